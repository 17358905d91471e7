//! A text as a trace.

ghost use Rattle.std.specs.Prelude.{◌≢◌, ◌≤◌, ◌<◌, ◌+◌, ◌^◌, length, IfErr, IfOk, All};
ghost use Rattle.trace_text.specs.Command.{IsListed};
ghost use Rattle.trace_text.specs.Grammar.{IsFaulty, IsTrace};
ghost use Rattle.trace_text.specs.Heap.{IsHeap};
ghost use Rattle.trace_text.specs.Lines.{lines_of};
ghost use Rattle.trace_text.specs.Reading.{Gives, commands_from, opening_from, script_of, trace_of};

use crate::fault::TraceFault;
use crate::line::{command_at, heap_at};
use crate::trace::{Command, Trace};
use crate::words::split_line;
use host_memory::Global;

/// The most bytes that the text of a trace has.
pub const LONGEST_TEXT: usize = 4_194_304;

/// A heap, the number of the line after the heap line, and the text from there on.
#[derive(Clone, Copy)]
pub struct Opening<'a> {
    pub base: u64,
    pub pages: u32,
    pub next: u32,
    pub rest: &'a [u8],
}

/// A text up to its heap line, which is the first that isn't passed over.
pub fn read_heap(text: &[u8]) -> Result<Opening<'_>, TraceFault>
    requires { length text.now + 1 < 2 ^ 32 }
    ensures value { Gives (λ o. record { base = o.base; pages = o.pages; next = o.next; rest = lines_of o.rest.now })
        result (opening_from 1 (lines_of text.now)) }
    ensures heap { IfOk result (λ o. IsHeap o.base o.pages) }
    ensures next { IfOk result (λ o. o.next + length o.rest.now ≤ length text.now + 1) }
{
    let mut number = 1;
    let mut rest = text;
    while let Some((line, after)) = split_line(rest) {
        if let Some((base, pages)) = heap_at(number, &line)? {
            let next = number + 1;
            return Ok(Opening {
                base,
                pages,
                next,
                rest: after,
            });
        }
        rest = after;
        number += 1;
    }
    Err(TraceFault::NoHeap(number))
}

// The commands of a text whose first line has this number.
fn read_commands(
    alloc: Global,
    first: u32,
    text: &[u8],
) -> Result<Vec<(u32, Command), Global>, TraceFault>
    requires { first + length text.now < 2 ^ 32 }
    ensures value { Gives (λ list. list.items) result (commands_from first (lines_of text.now)) }
    ensures valid { IfOk result (λ list. All IsListed list.items) }
{
    let mut list = Vec::new(alloc);
    let mut number = first;
    let mut rest = text;
    while let Some((line, after)) = split_line(rest) {
        if let Some(command) = command_at(number, &line)? {
            list.push((number, command))?;
        }
        rest = after;
        number += 1;
    }
    Ok(list)
}

/// The trace that a text of at most 4,194,304 bytes is, or its first fault.
#[tactic(auto, unfolding(crate::specs::Reading::trace_of))]
pub fn parse(alloc: Global, text: &[u8]) -> Result<Trace, TraceFault>
    ensures exact { Gives script_of result (trace_of text.now) }
    ensures trace { IfOk result (λ trace. IsTrace text.now (script_of trace)) }
    ensures fault { IfErr result (λ fault. fault ≢ TraceFault.Memory → IsFaulty text.now fault) }

    ensures heap { IfOk result (λ trace. IsHeap trace.base trace.pages) }
    ensures valid { IfOk result (λ trace. All IsListed trace.commands.items) }
{
    if text.len() > LONGEST_TEXT {
        return Err(TraceFault::TooLong);
    }
    let opening = read_heap(text)?;
    let commands = read_commands(alloc, opening.next, opening.rest)?;
    Ok(Trace {
        base: opening.base,
        pages: opening.pages,
        commands,
    })
}
