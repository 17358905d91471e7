//! A text as a log.

ghost use Rattle.std.specs.Prelude.{◌≤◌, ◌<◌, ◌+◌, ◌^◌, length, IfErr, IfOk, All};
ghost use Rattle.trace_text.specs.Heap.{IsHeap};
ghost use Rattle.trace_text.specs.Lines.{lines_of};
ghost use Rattle.log_text.specs.Asking.{IsStart};
ghost use Rattle.log_text.specs.Log.{Fails, Gives, IsListedEvent, IsListedGiven, beginning_of, events_from, givens_from, log_of, record_of};

use crate::event::event_line;
use crate::fault::LogFault;
use crate::given::{Early, early_line};
use crate::log::{Event, Given, Log};
use host_memory::Global;
use trace_text::{TraceFault, read_heap, split_line};

/// The most bytes that the text of a log has.
pub const LONGEST_LOG: usize = 16_777_216;

// The given lines, the number of the first line after them, and the text from there on.
#[derive(Drop)]
struct Givens<'a> {
    givens: Vec<(u32, Given), Global>,
    next: u32,
    rest: &'a [u8],
}

/// A heap and its given lines, the number of the line after them, and the text from there on.
#[derive(Drop)]
pub struct Start<'a> {
    pub base: u64,
    pub pages: u32,
    pub givens: Vec<(u32, Given), Global>,
    pub next: u32,
    pub rest: &'a [u8],
}

// The given lines of a text whose first line has this number.
fn read_givens(alloc: Global, first: u32, text: &[u8]) -> Result<Givens<'_>, LogFault>
    requires { first + length text.now < 2 ^ 32 }
    ensures value { Gives (λ s. record { givens = s.givens.items; next = s.next; rest = lines_of s.rest.now })
        result (givens_from first (lines_of text.now)) }
    ensures valid { IfOk result (λ s. All IsListedGiven s.givens.items) }
    ensures next { IfOk result (λ s. s.next + length s.rest.now ≤ first + length text.now) }
{
    let mut givens = Vec::new(alloc);
    let mut next = first;
    let mut rest = text;
    while let Some((line, after)) = split_line(rest) {
        match early_line(next, &line)? {
            Early::Passed => {}
            Early::Given(given) => givens.push((next, given))?,
            Early::Event => return Ok(Givens { givens, next, rest }),
        }
        rest = after;
        next += 1;
    }
    Ok(Givens { givens, next, rest })
}

// The events of a text whose first line has this number.
fn read_events(
    alloc: Global,
    first: u32,
    text: &[u8],
) -> Result<Vec<(u32, Event), Global>, LogFault>
    requires { first + length text.now < 2 ^ 32 }
    ensures value { Gives (λ list. list.items) result (events_from first (lines_of text.now)) }
    ensures valid { IfOk result (λ list. All IsListedEvent list.items) }
    ensures few { IfOk result (λ list. first + length list.items < 2 ^ 32) }
{
    let mut list = Vec::new(alloc);
    let mut number = first;
    let mut rest = text;
    while let Some((line, after)) = split_line(rest) {
        if let Some(event) = event_line(number, &line)? {
            list.push((number, event))?;
        }
        rest = after;
        number += 1;
    }
    Ok(list)
}

/// A text of at most 16,777,216 bytes up to its first event, or the first fault before that.
#[tactic(auto, unfolding(crate::specs::Log::beginning_of))]
pub fn read_start(alloc: Global, text: &[u8]) -> Result<Start<'_>, LogFault>
    ensures start { IfOk result (IsStart text.now) }
    ensures fails { IfErr result (λ fault. Fails fault (beginning_of text.now)) }
    ensures few { IfOk result (λ start. start.next + length start.rest.now < 2 ^ 32) }
{
    if text.len() > LONGEST_LOG {
        return Err(LogFault::Trace(TraceFault::TooLong));
    }
    let opening = read_heap(text)?;
    let lines = read_givens(alloc, opening.next, opening.rest)?;
    Ok(Start {
        base: opening.base,
        pages: opening.pages,
        givens: lines.givens,
        next: lines.next,
        rest: lines.rest,
    })
}

/// The log that a text of at most 16,777,216 bytes is, or its first fault.
#[tactic(auto, unfolding(crate::specs::Log::log_of))]
pub fn parse(alloc: Global, text: &[u8]) -> Result<Log, LogFault>
    ensures exact { Gives record_of result (log_of text.now) }
    ensures heap { IfOk result (λ log. IsHeap log.base log.pages) }
    ensures givens { IfOk result (λ log. All IsListedGiven log.givens.items) }
    ensures events { IfOk result (λ log. All IsListedEvent log.events.items) }
    ensures few { IfOk result (λ log. length log.events.items < 2 ^ 32) }
{
    let start = read_start(alloc, text)?;
    let events = read_events(alloc, start.next, start.rest)?;
    Ok(Log {
        base: start.base,
        pages: start.pages,
        givens: start.givens,
        events,
    })
}
