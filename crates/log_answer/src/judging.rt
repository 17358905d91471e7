//! What is answered for a text that was read.

ghost use Rattle.std.specs.Prelude.{◌≡◌, ℕ, IfOk, List, string_bytes};
ghost use Rattle.std.specs.List.{All};
ghost use Rattle.log_text.specs.Log.{IsListedEvent, first_line, record_of};
ghost use Rattle.given_state.specs.Given.{AreSafe, IsFirstFlaw};
ghost use Rattle.machine_steps.specs.State.{State};
ghost use Rattle.heap_log.specs.Judged.{AllFollow, DiffersAt};
ghost use Rattle.heap_log.specs.Origin.{gives, hands_out, last_line};
ghost use Rattle.log_answer.specs.Answer.{ComesFrom, IsHeldFrom, IsJudged, IsLogAnswer, IsReadLog, first_of, given_at, given_from, is_memory, live_from};

use crate::answer::LogAnswer;
use crate::due_lines::push_due_shown;
use crate::lines::{Differing, Origin, agrees_text, differs_text, fault_text, unsafe_text};
use agreed_log::agreed;
use given_state::{Lack, StartFault, start};
use heap_core::{Block, Obstacle};
use heap_log::{Difference, Verdict, freed_line, given_line, handed_out_line, judge};
use heap_machine::{Machine, Stepper, Why};
use host_memory::Global;
use log_text::{Event, Given, Log, LogFault, parse};
use std::alloc::AllocError;
use sweep_pool::Cutting;
use trace_text::TraceFault;

// The line that gives a block.
fn given_origin(givens: &[(u32, Given)], block: Block) -> Origin
    ensures { result ≡ given_at (first_line (gives block) givens.now) }
{
    match given_line(givens, block) {
        Some(line) => Origin::Given(line),
        None => Origin::Unknown,
    }
}

// Where a live block came from, after these events.
fn live_origin(log: &Log, before: &[(u32, Event)], block: Block) -> Origin
    ensures { result ≡ live_from (last_line (hands_out block) before.now) (first_line (gives block) log.now.givens.items) }
{
    match handed_out_line(before, block) {
        Some(line) => Origin::HandedOut(line),
        None => given_origin(&log.givens, block),
    }
}

// Where a held block came from, after these events: they are done anew, on another machine.
fn held_origin<S: Stepper>(
    stepper: &S,
    alloc: Global,
    log: &Log,
    cutting: Cutting,
    before: &[(u32, Event)],
    block: Block,
) -> Result<Origin, AllocError>
    requires ready { S.ready }
    requires read { IsReadLog log.now }
    requires valid { All IsListedEvent before.now }
    requires follow { (last : State) × AllFollow (first_of (record_of log.now)) before.now last }
    ensures { IfOk result (IsHeldFrom (record_of log.now) before.now block) }
{
    // Lines that were safe are so again: what is told is want of memory.
    let Ok(mut machine) = start(alloc, log.base, log.pages, &log.givens, cutting) else {
        return Err(AllocError);
    };
    let Ok(found) = freed_line(stepper, alloc, &mut machine, before, block) else {
        return Err(AllocError);
    };
    match found {
        Some(line) => Ok(Origin::Freed(line)),
        None => Ok(given_origin(&log.givens, block)),
    }
}

// Where the block in the way came from, after these events.
fn origin_of<S: Stepper>(
    stepper: &S,
    alloc: Global,
    log: &Log,
    cutting: Cutting,
    before: &[(u32, Event)],
    difference: Difference,
) -> Result<Origin, AllocError>
    requires ready { S.ready }
    requires read { IsReadLog log.now }
    requires valid { All IsListedEvent before.now }
    requires follow { (last : State) × AllFollow (first_of (record_of log.now)) before.now last }
    ensures { IfOk result (ComesFrom (record_of log.now) before.now difference) }
{
    match difference {
        Difference::Answer(Why::Refused(Obstacle::OverLive(block))) => {
            Ok(live_origin(log, before, block))
        }
        Difference::Answer(Why::Refused(Obstacle::OverHeld(block))) => {
            held_origin(stepper, alloc, log, cutting, before, block)
        }
        _ => Ok(Origin::Unknown),
    }
}

// The answer of a log whose event of this line differs, with so many before it, on the machine in whose state that is.
fn differs_answer<S: Stepper>(
    stepper: &S,
    alloc: Global,
    log: &Log,
    cutting: Cutting,
    machine: &Machine,
    line: u32,
    count: usize,
    difference: Difference,
) -> Result<LogAnswer, AllocError>
    requires ready { S.ready }
    requires read { IsReadLog log.now }
    requires safe { AreSafe log.now.base log.now.pages log.now.givens.items }
    requires differs { DiffersAt (first_of (record_of log.now)) log.now.events.items line count difference machine.now.state }
    ensures { IfOk result (λ answer. IsJudged (record_of log.now) answer.status answer.text.items) }
{
    let from = origin_of(
        stepper,
        alloc,
        log,
        cutting,
        &log.events[..count],
        difference,
    )?;
    let differing = Differing {
        event: log.events[count].1,
        is_open: machine.heap().is_open(),
        from,
        difference,
    };
    let first = differs_text(alloc, line, differing)?;
    let mut text = first.into_bytes();
    push_due_shown(alloc, &mut text, machine, differing)?;
    Ok(LogAnswer { status: 5, text })
}

// The answer with this status and line.
fn line_answer(
    status: u8,
    line: Result<String<Global>, AllocError>,
) -> Result<LogAnswer, AllocError>
    ensures { (told : List ℕ) → IfOk line (λ text. string_bytes text ≡ told) → IfOk result (λ answer. (answer.status ≡ status) × (answer.text.items ≡ told)) }
{
    let text = line?.into_bytes();
    Ok(LogAnswer { status, text })
}

// The answer of a log on a machine that is as its given lines tell.
fn judged_answer<S: Stepper>(
    stepper: &S,
    alloc: Global,
    log: &Log,
    cutting: Cutting,
    machine: &mut Machine,
) -> Result<LogAnswer, AllocError>
    requires ready { S.ready }
    requires read { IsReadLog log.now }
    requires safe { AreSafe log.now.base log.now.pages log.now.givens.items }
    requires first { machine.old.state ≡ first_of (record_of log.now) }
    ensures { IfOk result (λ answer. IsJudged (record_of log.now) answer.status answer.text.items) }
{
    match judge(stepper, alloc, machine, &log.events) {
        Ok(Verdict::Agrees(tally)) => line_answer(0, agrees_text(alloc, tally)),
        Ok(
            Verdict::Differs {
                line,
                count,
                difference,
            },
        ) => differs_answer(
            stepper, alloc, log, cutting, machine, line, count, difference,
        ),
        Err(_) => Err(AllocError),
    }
}

// The line that gives the block over which another is given.
fn lacking_origin(givens: &[(u32, Given)], lack: Lack) -> Origin
    ensures { result ≡ given_from givens.now lack }
{
    match lack {
        Lack::Block(Obstacle::OverLive(block)) => given_origin(givens, block),
        _ => Origin::Unknown,
    }
}

// The answer of a log whose given lines tell no safe state.
fn unsafe_answer(alloc: Global, log: &Log, line: u32, lack: Lack) -> Result<LogAnswer, AllocError>
    requires { IsFirstFlaw log.now.base log.now.pages log.now.givens.items line lack }
    ensures { IfOk result (λ answer. IsJudged (record_of log.now) answer.status answer.text.items) }
{
    let from = lacking_origin(&log.givens, lack);
    line_answer(5, unsafe_text(alloc, line, from, lack))
}

// The answer of a log.
fn read_log_answer<S: Stepper>(
    stepper: &S,
    alloc: Global,
    log: &Log,
    cutting: Cutting,
) -> Result<LogAnswer, AllocError>
    requires ready { S.ready }
    requires read { IsReadLog log.now }
    ensures { IfOk result (λ answer. IsJudged (record_of log.now) answer.status answer.text.items) }
{
    match start(alloc, log.base, log.pages, &log.givens, cutting) {
        Ok(mut machine) => judged_answer(stepper, alloc, log, cutting, &mut machine),
        Err(StartFault::Unsafe { line, lack }) => unsafe_answer(alloc, log, line, lack),
        Err(StartFault::Memory) => Err(AllocError),
    }
}

// The answer for a text that is read as a whole: as a log, or as its first fault.
fn read_answer<S: Stepper>(
    stepper: &S,
    alloc: Global,
    text: &[u8],
    cutting: Cutting,
) -> Result<LogAnswer, AllocError>
    requires ready { S.ready }
    ensures { IfOk result (λ answer. IsLogAnswer text.now answer.status answer.text.items) }
{
    match parse(alloc, text) {
        Ok(log) => read_log_answer(stepper, alloc, &log, cutting),
        Err(fault) if is_memory(&fault) => Err(AllocError),
        Err(fault) => line_answer(3, fault_text(alloc, &fault)),
    }
}

/// The answer for the text of a log, or the line of its fault, whoever makes the passes. Its sweeps are cut as `cutting` says,
/// which changes nothing of what is said. An error is want of memory.
pub fn log_answer<S: Stepper>(
    stepper: &S,
    alloc: Global,
    text: &[u8],
    cutting: Cutting,
) -> Result<LogAnswer, AllocError>
    requires ready { S.ready }
    ensures ok { IfOk result (λ answer. IsLogAnswer text.now answer.status answer.text.items) }
{
    // One pass finds that a log agrees. What a log lacks that doesn't is told by the events that were read.
    match agreed(stepper, alloc, text, cutting) {
        Some(tally) => line_answer(0, agrees_text(alloc, tally)),
        None => read_answer(stepper, alloc, text, cutting),
    }
}

// Whether memory ran out, so that the text may be a log.
fn is_memory(fault: &LogFault) -> bool
    ensures { result ≡ is_memory fault.now }
{
    matches!(fault, LogFault::Trace(TraceFault::Memory))
}
