//! The lines of a log.

ghost use Rattle.std.specs.Prelude.{◌≡◌, ◌++◌, IfOk, OnOk, Some, codes, string_bytes};
ghost use Rattle.revoker_runs.specs.Told.{act_line, act_lines, answered_line, step_text};

use heap_machine::{Reply, RevokerCommand};
use heap_reply::{Hexadecimal, ShortText, put_reply_of};
use host_memory::Global;
use revokers::Act;
use std::alloc::AllocError;
use std::fmt;
use trace_text::Line;

// A step of a revoker, as a line asks it.
#[derive(Drop)]
struct StepText(RevokerCommand);

impl fmt::Display for StepText {
    ghost output = { λ step. Some (step_text step.0) };

    fn fmt<W: fmt::Write>(&self, f: &mut fmt::Formatter<W>) -> fmt::Result {
        match self.0 {
            RevokerCommand::Paint => write!(f, "paint"),
            RevokerCommand::Visit { page } => write!(f, "visit {page}"),
            RevokerCommand::UntagGranule { address } => {
                let address = Hexadecimal(u128::from(address));
                write!(f, "untag {address}")
            }
            RevokerCommand::UntagRegister { register } => write!(f, "untag c{register}"),
            RevokerCommand::Release => write!(f, "release"),
        }
    }
}

// The line of an act.
fn line_of(alloc: Global, act: Act) -> Result<String<Global>, AllocError>
    ensures { IfOk result (λ text. string_bytes text ≡ act_line act) }
{
    let step = StepText(act.command);
    let reply = act.reply;
    format!(in alloc; "{step} -> {reply}\n")
}

/// Puts the lines of acts behind a text.
pub fn push_acts(alloc: Global, text: &mut Vec<u8, Global>, acts: &[Act]) -> Result<(), AllocError>
    ensures { OnOk result (text.new.items ≡ text.old.items ++ act_lines acts.now) }
{
    for act in acts {
        let line = line_of(alloc, *act)?;
        text.extend_from_slice(line.as_bytes())?;
    }
    Ok(())
}

/// Puts a line behind it as it was read.
pub fn push_line(text: &mut Vec<u8, Global>, line: &Line<'_>) -> Result<(), AllocError>
    ensures { OnOk result (text.new.items ≡ text.old.items ++ (line.now ++ codes "\n")) }
{
    text.extend_from_slice(line.bytes())?;
    text.extend_from_slice(b"\n")
}

/// And one with the answer to the command in it.
pub fn push_answered(
    text: &mut Vec<u8, Global>,
    line: &Line<'_>,
    answer: &Reply,
) -> Result<(), AllocError>
    ensures { OnOk result (text.new.items ≡ text.old.items ++ answered_line line.now answer.now) }
{
    let mut told = ShortText::new();
    told.put("\n");
    put_reply_of(&mut told, answer);
    told.put(" -> ");
    text.extend_from_slice(line.bytes())?;
    text.extend_from_slice(told.as_bytes())
}
