//! What is said beside the fault of a log: its line, and what is wanted there.

ghost use Rattle.std.specs.Prelude.{◌≡◌, ◌-◌, ◌++◌, ℕ, List, Ok, IfNone, IfOk, IfSome, slice_get};
ghost use Rattle.trace_text.specs.Lines.{lines_of};
ghost use Rattle.log_text.specs.Log.{Record, log_of};
ghost use Rattle.log_notes.specs.Hint.{IsHint, begun_for, numbered};

use crate::answers::answer_wanted;
use crate::forms::{form_wanted, gives, name_wanted, word_wanted};
use crate::saying::joined;
use host_memory::Global;
use log_text::{LogFault, parse};
use std::alloc::AllocError;
use trace_text::{Line, TraceFault, split_line};

const HEAP: &[u8] =
    b"the first line is 'heap BASE PAGES': BASE a multiple of 4096, PAGES 1 to 1024, the end at most 2^64";

const MARK: &[u8] = b"the text begins with a byte order mark: leave out its three bytes";

const LONG: &[u8] = b"a log has at most 16777216 bytes";

// Where the lines of a log are described.
const PRINTS: &[u8] = b" (docs/QUARANTINE.md: What it prints)\n";

const GIVES: &[u8] = b" (docs/QUARANTINE.md: From the middle of a run)\n";

// The line of a text with this number, from 1.
fn line_numbered(text: &[u8], number: u32) -> Option<Line<'_>>
    ensures { result ≡ slice_get (lines_of text.now) (number - 1) }
{
    let mut rest = text;
    let mut left = number;
    while left > 1 {
        let (_, after) = split_line(rest)?;
        rest = after;
        left -= 1;
    }
    let (line, _) = split_line(rest)?;
    Some(line)
}

// The number of the line that is faulty; a text that is too long has none.
fn numbered(fault: &LogFault) -> Option<u32>
    ensures { result ≡ numbered fault.now }
{
    match *fault {
        LogFault::BadAnswer(line) => Some(line),
        LogFault::Trace(TraceFault::NoHeap(line) | TraceFault::BadHeap(line)) => Some(line),
        LogFault::Trace(TraceFault::BadCommand(line) | TraceFault::BadCount(line)) => Some(line),
        LogFault::Trace(TraceFault::BadRegister(line) | TraceFault::BadNumber(line)) => Some(line),
        LogFault::Trace(TraceFault::BadData(line)) => Some(line),
        LogFault::Trace(TraceFault::TooLong | TraceFault::Memory) => None,
    }
}

// Whether the heap line is at fault.
fn is_of_heap(fault: &LogFault) -> bool {
    matches!(
        fault,
        LogFault::Trace(TraceFault::NoHeap(_) | TraceFault::BadHeap(_))
    )
}

// The beginning of what is said of a fault.
fn begun(alloc: Global, fault: &LogFault) -> Result<Vec<u8, Global>, AllocError>
    ensures { IfOk result (λ text. text.items ≡ begun_for fault.now) }
{
    let text = match numbered(fault) {
        Some(line) => format!(in alloc; "heap_check: line {line}: ")?,
        None => format!(in alloc; "heap_check: ")?,
    };
    Ok(text.into_bytes())
}

// What is wanted in the line of a fault.
fn wanted_in(
    alloc: Global,
    fault: &LogFault,
    line: &Line<'_>,
) -> Result<Vec<u8, Global>, AllocError> {
    match fault {
        LogFault::BadAnswer(_) => answer_wanted(alloc, line),
        LogFault::Trace(TraceFault::BadCommand(_)) => name_wanted(alloc, line),
        LogFault::Trace(TraceFault::BadCount(_)) => form_wanted(alloc, line),
        LogFault::Trace(_) => word_wanted(alloc, line),
    }
}

// What is wanted of a log whose heap is faulty.
fn heap_wanted(log: &[u8]) -> &'static [u8] {
    if log.starts_with(b"\xef\xbb\xbf") {
        MARK
    } else {
        HEAP
    }
}

// What is wanted of a log with this fault, and where it is described.
fn wanted(alloc: Global, fault: &LogFault, log: &[u8]) -> Result<Vec<u8, Global>, AllocError> {
    let Some(number) = numbered(fault) else {
        return joined(alloc, &[LONG, PRINTS]);
    };
    if is_of_heap(fault) {
        return joined(alloc, &[heap_wanted(log), PRINTS]);
    }
    let Some(line) = line_numbered(log, number) else {
        return joined(alloc, &[PRINTS]);
    };
    let wanted = wanted_in(alloc, fault, &line)?;
    joined(alloc, &[&wanted, if gives(&line) { GIVES } else { PRINTS }])
}

// What is said of a fault.
fn said_of(alloc: Global, fault: &LogFault, log: &[u8]) -> Result<Vec<u8, Global>, AllocError>
    ensures { IfOk result (λ text. (rest : List ℕ) × (text.items ≡ begun_for fault.now ++ rest)) }
{
    let mut text = begun(alloc, fault)?;
    let wanted = wanted(alloc, fault, log)?;
    text.extend_from_slice(&wanted)?;
    Ok(text)
}

/// The line that tells what is wanted in the faulty line of a log; nothing where it isn't faulty. An error is want of memory.
pub fn hint_of(alloc: Global, log: &[u8]) -> Result<Option<Vec<u8, Global>>, AllocError>
    ensures none { IfOk result (λ found. IfNone found ((read : Record) × (log_of log.now ≡ Ok read))) }
    ensures some { IfOk result (λ found. IfSome found (λ text. IsHint log.now text.items)) }
{
    match parse(alloc, log) {
        Ok(_) => Ok(None),
        Err(LogFault::Trace(TraceFault::Memory)) => Err(AllocError),
        Err(fault) => {
            let text = said_of(alloc, &fault, log)?;
            Ok(Some(text))
        }
    }
}
