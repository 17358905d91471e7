//! What the command line asks for.

ghost use Rattle.std.specs.Prelude.{◌≡◌, ◌↔◌, Err, IfErr, IfOk, OnOk, codes, false, true};
ghost use Rattle.clap.specs.Walk.{texts};
ghost use Rattle.clap.specs.Words.{app_of, found_of, kind_of, rows_of, rule_of, subcommand_rows_of};
ghost use Rattle.clap.specs.declared.builder.command.Command.TheViews.{out-Command as fields_of};
ghost use Rattle.command_line.specs.declared.asked.Options.{Options as TheOptions};
ghost use Rattle.command_line.specs.Asked.{AreAccepted, AsksFor, AsksOnlyFor, GivesNumber, HasOptions, NamesNothing, NamesStates, cut_rule, hex_rule, image_rule, run_app, subcommand_named, tool_app, with_run, word_app, workers_rule};

use clap::error::ErrorKind;
use clap::{Arg, ArgAction, ArgMatches, Command, Error};
use host_memory::Global;
use std::alloc::AllocError;

/// What the words of a command line ask for.
#[derive(Drop)]
pub enum Asked<'a> {
    /// The run of the trace that standard input has.
    Run(Options),
    /// The line of one word, whose text stands as it was written.
    Word(&'a str),
}

/// How a trace is run.
#[derive(Clone, Copy, Debug, PartialEq, Eq)]
pub struct Options {
    /// Whether the image is written after the report.
    pub image: bool,
    /// How many workers sweep, from 1 to 64.
    pub workers: u32,
    /// How many pages each task of a sweep has, from 1 to 256.
    pub pages_per_task: u32,
}

/// Why nothing is asked for.
#[derive(Clone, Copy, Debug, PartialEq, Eq)]
pub enum Refusal {
    /// Memory ran out.
    Memory,
    /// The words are no command of the program's.
    Words,
}

/// Reads the words of a command line, of which the first is the program's name.
pub fn asked_by<'a>(alloc: Global, words: &'a [&'a str]) -> Result<Asked<'a>, Refusal>
    ensures ok { IfOk result (AsksFor (texts words.entry.now)) }
    ensures only { IfOk result (AsksOnlyFor (texts words.entry.now)) }
    ensures refused { result ≡ Err Refusal.Words → NamesNothing (texts words.entry.now) }
{
    let matches = match parsed(alloc, words) {
        Ok(matches) => matches,
        Err(error) => return Err(refusal_of(&error)),
    };
    let Some((name, inner)) = matches.subcommand() else {
        return Err(Refusal::Words);
    };
    if name == "run" {
        return Ok(Asked::Run(options_of(inner)));
    }
    if name != "word" {
        return Err(Refusal::Words);
    }
    let Some(hex) = inner.get_str("hex") else {
        return Err(Refusal::Words);
    };
    Ok(Asked::Word(hex))
}

/// Reads the words of a program that tells states: after its own name they are those of `run`, but for --image.
pub fn states_options_by<'a>(alloc: Global, words: &'a [&'a str]) -> Result<Options, Refusal>
    ensures ok { IfOk result (NamesStates (texts words.entry.now)) }
    ensures refused { result ≡ Err Refusal.Words → (options : TheOptions) → NamesStates (texts words.entry.now) options → ⊥ }
{
    let Ok(run) = words_of_run(alloc, words) else {
        return Err(Refusal::Memory);
    };
    match asked_by(alloc, &run) {
        Ok(Asked::Run(options)) => without_image(options),
        Ok(Asked::Word(_)) => Err(Refusal::Words),
        Err(refusal) => Err(refusal),
    }
}

// The options, where they ask for no image.
fn without_image(options: Options) -> Result<Options, Refusal>
    ensures ok { IfOk result (λ same. (same ≡ options) × (same.image ≡ false)) }
    ensures err { IfErr result (λ refusal. options.image ≡ true) }
{
    if options.image {
        return Err(Refusal::Words);
    }
    Ok(options)
}

// The words with `heap_tool run` in place of the first.
fn words_of_run<'a>(alloc: Global, words: &'a [&'a str]) -> Result<Vec<&'a str, Global>, AllocError>
    ensures { IfOk result (λ run. texts run.items ≡ with_run (texts words.entry.now)) }
{
    let mut run = vec![in alloc; "heap_tool", "run"]?;
    run.extend_from_slice(words.get(1..).unwrap_or(&[]))?;
    Ok(run)
}

// The options of `run`, whose matches have both numbers.
fn options_of(matches: &ArgMatches<'_>) -> Options
    requires workers { GivesNumber (codes "workers") 1 64 (rows_of (found_of matches.now)) }
    requires cut { GivesNumber (codes "cut") 1 256 (rows_of (found_of matches.now)) }
    ensures { HasOptions (rows_of (found_of matches.now)) result }
{
    Options {
        image: matches.get_flag("image"),
        workers: matches.get_one::<u32>("workers").unwrap(),
        pages_per_task: matches.get_one::<u32>("cut").unwrap(),
    }
}

// Anything but want of memory is the words' fault.
fn refusal_of(error: &Error) -> Refusal
    ensures { (result ≡ Refusal.Memory) ↔ (kind_of error.now ≡ ErrorKind.OutOfMemory) }
{
    match error.kind() {
        ErrorKind::OutOfMemory => Refusal::Memory,
        _ => Refusal::Words,
    }
}

fn parsed<'a>(alloc: Global, words: &'a [&'a str]) -> Result<ArgMatches<'a>, Error>
    ensures taken { OnOk result (AreAccepted (texts words.entry.now)) }
    ensures matches { IfOk result (λ matches.
        subcommand_rows_of matches ≡ subcommand_named (texts words.entry.now)) }
    ensures err { IfErr result (λ error.
        AreAccepted (texts words.entry.now) → kind_of error ≡ ErrorKind.OutOfMemory) }
{
    let command = tool_command(alloc)?;
    command.try_get_matches_from(words)
}

fn tool_command<'a>(alloc: Global) -> Result<Command<'a>, AllocError>
    ensures { IfOk result (λ command. app_of command ≡ tool_app) }
{
    let run = run_command(alloc)?;
    let word = word_command(alloc)?;
    Command::new(alloc, "heap_tool")
        .subcommand(run)?
        .subcommand(word)
}

fn run_command<'a>(alloc: Global) -> Result<Command<'a>, AllocError>
    ensures app { IfOk result (λ command. app_of command ≡ run_app) }
    ensures local { IfOk result (λ command. (fields_of command).has_globals ≡ false) }
{
    Command::new(alloc, "run")
        .arg(image_arg(alloc))?
        .arg(workers_arg(alloc))?
        .arg(cut_arg(alloc))
}

fn image_arg<'a>(alloc: Global) -> Arg<'a>
    ensures rule { rule_of result ≡ image_rule }
    ensures local { result.global ≡ false }
{
    Arg::new(alloc, "image")
        .long("image")
        .action(ArgAction::SetTrue)
}

fn workers_arg<'a>(alloc: Global) -> Arg<'a>
    ensures rule { rule_of result ≡ workers_rule }
    ensures local { result.global ≡ false }
{
    Arg::new(alloc, "workers")
        .long("workers")
        .value_parser(clap::value_parser!(u32).range(1..=64))
        .default_value("1")
}

fn cut_arg<'a>(alloc: Global) -> Arg<'a>
    ensures rule { rule_of result ≡ cut_rule }
    ensures local { result.global ≡ false }
{
    Arg::new(alloc, "cut")
        .long("cut")
        .value_parser(clap::value_parser!(u32).range(1..=256))
        .default_value("16")
}

fn word_command<'a>(alloc: Global) -> Result<Command<'a>, AllocError>
    ensures app { IfOk result (λ command. app_of command ≡ word_app) }
    ensures local { IfOk result (λ command. (fields_of command).has_globals ≡ false) }
{
    Command::new(alloc, "word").arg(hex_arg(alloc))
}

fn hex_arg<'a>(alloc: Global) -> Arg<'a>
    ensures rule { rule_of result ≡ hex_rule }
    ensures local { result.global ≡ false }
{
    Arg::new(alloc, "hex").required(true)
}
