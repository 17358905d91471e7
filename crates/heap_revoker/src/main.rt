//! The program on its command line, standard input and standard output.
#![tactic(auto)]

use command_line::arguments;
use revoker_command::{FromRead, FromWrite, Refusal, plan_tool, refuse};
use std::process::ExitCode;

fn main(rt: HostRuntime) -> ExitCode {
    let alloc = rt.alloc();
    let mut reader = FromRead::new(rt.stdin());
    let mut writer = FromWrite::new(rt.stdout());
    let arguments = match arguments(&rt) {
        Ok(arguments) => arguments,
        Err(refusal) => return ExitCode::from(refuse(&mut writer, refusal)),
    };
    let words: Vec<&str> = match arguments.iter().map(|word| word.as_str()).collect(alloc) {
        Ok(words) => words,
        Err(_) => return ExitCode::from(refuse(&mut writer, Refusal::Memory)),
    };
    ExitCode::from(plan_tool(&rt, alloc, words.as_slice(), &mut reader, &mut writer))
}
