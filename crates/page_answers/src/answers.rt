//! The calls.

ghost use Rattle.std.specs.Prelude.{◌≡◌, ◌≢◌, ◌<◌, ◌++◌, Err, IfErr, IfOk, IfSome, None, OnErr, drop, length};
ghost use Rattle.log_answer.specs.Answer.{IsLogAnswer};
ghost use Rattle.log_notes.specs.Notes.{AreNotes};
ghost use Rattle.state_data.specs.States.{IsDataOf};
ghost use Rattle.trace_report.specs.Image.{image_of};
ghost use Rattle.trace_text.specs.Reading.{trace_of};
ghost use Rattle.trace_text.specs.declared.fault.TraceFault.{TraceFault as TheTraceFault};
ghost use Rattle.page_answers.specs.Calls.{IsFaultOf, IsFaulty, IsLineOf, IsPlanned, IsPlannedOf, IsRunOf, IsSaidOf, IsTooLong, IsTrace, IsWritten, done, image_shown, no_memory, none, short, way_of};

use crate::codes::{DONE, NO_MEMORY, NONE, SHORT};
use cap_codec::Word;
use heap_machine::Alone;
use heap_reply::word_line;
use heap_trace::run_alone;
use host_memory::Global;
use log_answer::{LogAnswer, log_answer};
use log_notes::notes_of;
use revoker_runs::{PlanAnswer, Way, plan_answer};
use state_data::states_alone;
use sweep_masks::Cutting;
use trace_report::{Outcome, RunFault, image_lines, put_all};
use trace_text::{TraceFault, fault_line, parse};

/// Writes the states of the trace that a text is, as data.
#[unsafe(no_mangle)]
pub extern "C" fn page_states(alloc: Global, trace: &[u8], out: &mut [u8], count: &mut usize) -> u32
    ensures written { result ≡ done → IsWritten (IsDataOf trace.now) out.old out.new count.new }
    ensures short { result ≡ short → IsTooLong (IsDataOf trace.now) (length out.old) count.new }
    ensures fault { result ≡ none → IsFaulty trace.now }
    ensures still { result ≢ done → out.new ≡ out.old }
    ensures other { result ≢ done → result ≢ short → count.new ≡ count.old }
    ensures memory { result ≢ done → result ≢ short → result ≢ none → result ≡ no_memory }
{
    match states_alone(alloc, trace, Cutting::alone()) {
        Ok(states) => match put_all(&states, out) {
            Ok(length) => {
                *count = length;
                DONE
            }
            Err(length) => {
                *count = length;
                SHORT
            }
        },
        Err(RunFault::Memory) => NO_MEMORY,
        Err(RunFault::Trace(_)) => NONE,
    }
}

// The report, and the image after it if asked for; nothing for want of memory.
fn shown(alloc: Global, outcome: Outcome, image: bool) -> Option<Vec<u8, Global>>
    ensures { IfSome result (λ text. text.items ≡ outcome.report.items ++ image_shown image (image_of outcome.memory.base outcome.memory.granules)) }
{
    let mut text = outcome.report;
    if image {
        let Ok(lines) = image_lines(alloc, &outcome.memory) else {
            return None;
        };
        let Ok(()) = text.extend_from_slice(&lines) else {
            return None;
        };
    }
    Some(text)
}

// What the run of a text shows.
fn run_shown(alloc: Global, trace: &[u8], image: bool) -> Result<Vec<u8, Global>, RunFault>
    ensures ok { IfOk result (λ text. IsRunOf trace.now image text.items) }
    ensures fault { (fault : TheTraceFault) → result ≡ Err (RunFault.Trace fault) → trace_of trace.now ≡ Err fault }
{
    let outcome = run_alone(alloc, trace, Cutting::alone())?;
    match shown(alloc, outcome, image) {
        Some(text) => Ok(text),
        None => Err(RunFault::Memory),
    }
}

/// Writes the report of the run of the trace that a text is, and the image that it leaves if asked for.
#[unsafe(no_mangle)]
pub extern "C" fn page_report(
    alloc: Global,
    trace: &[u8],
    image: bool,
    out: &mut [u8],
    count: &mut usize,
) -> u32
    ensures written { result ≡ done → IsWritten (IsRunOf trace.now image) out.old out.new count.new }
    ensures short { result ≡ short → IsTooLong (IsRunOf trace.now image) (length out.old) count.new }
    ensures fault { result ≡ none → IsFaulty trace.now }
    ensures still { result ≢ done → out.new ≡ out.old }
    ensures other { result ≢ done → result ≢ short → count.new ≡ count.old }
    ensures memory { result ≢ done → result ≢ short → result ≢ none → result ≡ no_memory }
{
    match run_shown(alloc, trace, image) {
        Ok(text) => match put_all(&text, out) {
            Ok(length) => {
                *count = length;
                DONE
            }
            Err(length) => {
                *count = length;
                SHORT
            }
        },
        Err(RunFault::Memory) => NO_MEMORY,
        Err(RunFault::Trace(_)) => NONE,
    }
}

/// Writes the line that names the fault of a text that is no trace.
#[unsafe(no_mangle)]
pub extern "C" fn page_fault(alloc: Global, trace: &[u8], out: &mut [u8], count: &mut usize) -> u32
    ensures written { result ≡ done → IsWritten (IsFaultOf trace.now) out.old out.new count.new }
    ensures short { result ≡ short → IsTooLong (IsFaultOf trace.now) (length out.old) count.new }
    ensures none { result ≡ none → IsTrace trace.now }
    ensures still { result ≢ done → out.new ≡ out.old }
    ensures other { result ≢ done → result ≢ short → count.new ≡ count.old }
    ensures memory { result ≢ done → result ≢ short → result ≢ none → result ≡ no_memory }
{
    let fault = match parse(alloc, trace) {
        Ok(_) => return NONE,
        Err(TraceFault::Memory) => return NO_MEMORY,
        Err(fault) => fault,
    };
    match fault_line(alloc, &fault) {
        Ok(line) => match put_all(line.as_bytes(), out) {
            Ok(length) => {
                *count = length;
                DONE
            }
            Err(length) => {
                *count = length;
                SHORT
            }
        },
        Err(_) => NO_MEMORY,
    }
}

/// Writes what is said of a log: that it agrees, how it differs, or its fault; and tells the status that goes with it.
#[unsafe(no_mangle)]
pub extern "C" fn page_log(
    alloc: Global,
    log: &[u8],
    out: &mut [u8],
    count: &mut usize,
    status: &mut u32,
) -> u32
    ensures written { result ≡ done → IsWritten (IsLogAnswer log.now status.new) out.old out.new count.new }
    ensures short { result ≡ short → IsTooLong (IsSaidOf log.now) (length out.old) count.new }
    ensures some { result ≢ none }
    ensures still { result ≢ done → (out.new ≡ out.old) × (status.new ≡ status.old) }
    ensures other { result ≢ done → result ≢ short → count.new ≡ count.old }
    ensures memory { result ≢ done → result ≢ short → result ≢ none → result ≡ no_memory }
{
    match log_answer(&Alone, alloc, log, Cutting::alone()) {
        Ok(LogAnswer { status: told, text }) => match put_all(&text, out) {
            Ok(length) => {
                *count = length;
                *status = u32::from(told);
                DONE
            }
            Err(length) => {
                *count = length;
                SHORT
            }
        },
        Err(_) => NO_MEMORY,
    }
}

/// Writes what is said beside a log that gets this status: what is wanted in its faulty line, and that it has a part of a run.
/// There may be nothing to say.
#[unsafe(no_mangle)]
pub extern "C" fn page_notes(
    alloc: Global,
    log: &[u8],
    status: u32,
    out: &mut [u8],
    count: &mut usize,
) -> u32
    ensures written { result ≡ done → IsWritten (AreNotes log.now status) out.old out.new count.new }
    ensures short { result ≡ short → IsTooLong (AreNotes log.now status) (length out.old) count.new }
    ensures some { result ≢ none }
    ensures still { result ≢ done → out.new ≡ out.old }
    ensures other { result ≢ done → result ≢ short → count.new ≡ count.old }
    ensures memory { result ≢ done → result ≢ short → result ≢ none → result ≡ no_memory }
{
    match notes_of(alloc, log, status) {
        Ok(text) => match put_all(&text, out) {
            Ok(length) => {
                *count = length;
                DONE
            }
            Err(length) => {
                *count = length;
                SHORT
            }
        },
        Err(_) => NO_MEMORY,
    }
}

// Who does the steps of a plan's revoker, by number.
fn way_of(number: u32) -> Option<Way>
    ensures { result ≡ way_of number }
{
    match number {
        0 => Some(Way::ByHand),
        1 => Some(Way::Cornucopia),
        2 => Some(Way::Reloaded),
        _ => None,
    }
}

/// Writes the log of the run of the plan that a text is, or the line of its fault; and tells the status that goes with it. Its
/// revoker's steps are done by hand (0), by a revoker without a barrier (1) or by one with a barrier (2); another number has no log.
#[unsafe(no_mangle)]
pub extern "C" fn page_plan(
    alloc: Global,
    plan: &[u8],
    way: u32,
    out: &mut [u8],
    count: &mut usize,
    status: &mut u32,
) -> u32
    ensures written { result ≡ done → IsWritten (IsPlanned plan.now way status.new) out.old out.new count.new }
    ensures short { result ≡ short → IsTooLong (IsPlannedOf plan.now way) (length out.old) count.new }
    ensures none { result ≡ none → way_of way ≡ None }
    ensures still { result ≢ done → (out.new ≡ out.old) × (status.new ≡ status.old) }
    ensures other { result ≢ done → result ≢ short → count.new ≡ count.old }
    ensures memory { result ≢ done → result ≢ short → result ≢ none → result ≡ no_memory }
{
    let Some(way) = way_of(way) else {
        return NONE;
    };
    match plan_answer(&Alone, alloc, plan, way, Cutting::alone()) {
        Ok(PlanAnswer { status: code, text }) => match put_all(&text, out) {
            Ok(length) => {
                *count = length;
                *status = u32::from(code);
                DONE
            }
            Err(length) => {
                *count = length;
                SHORT
            }
        },
        Err(_) => NO_MEMORY,
    }
}

/// Writes the line of the word of these halves.
#[unsafe(no_mangle)]
pub extern "C" fn page_word(
    alloc: Global,
    address: u64,
    metadata: u64,
    out: &mut [u8],
    count: &mut usize,
) -> u32
    ensures written { result ≡ done → IsWritten (IsLineOf address metadata) out.old out.new count.new }
    ensures short { result ≡ short → IsTooLong (IsLineOf address metadata) (length out.old) count.new }
    ensures some { result ≢ none }
    ensures still { result ≢ done → out.new ≡ out.old }
    ensures other { result ≢ done → result ≢ short → count.new ≡ count.old }
    ensures memory { result ≢ done → result ≢ short → result ≢ none → result ≡ no_memory }
{
    let word = Word {
        bits: (u128::from(metadata) << 64) + u128::from(address),
    };
    match word_line(alloc, word) {
        Ok(line) => match put_all(line.as_bytes(), out) {
            Ok(length) => {
                *count = length;
                DONE
            }
            Err(length) => {
                *count = length;
                SHORT
            }
        },
        Err(_) => NO_MEMORY,
    }
}
