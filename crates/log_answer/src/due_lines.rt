//! The lines of words that are due.

ghost use Rattle.std.specs.Prelude.{◌≡◌, ◌++◌, IfOk, flat_map, string_bytes, take};
ghost use Rattle.log_answer.specs.Answer.{due_shown, miscounts, unless_equal};
ghost use Rattle.log_answer.specs.Text.{due_line, due_text};

use crate::lines::{Counted, Differing, Noun};
use heap_log::{Difference, DueWord, due_words};
use heap_machine::{Machine, Why};
use heap_reply::Reply;
use host_memory::Global;
use log_text::Event;
use revoker_steps::{RevokerReply, RevokerTrap};
use std::alloc::AllocError;

// The most of them that are told.
const MOST_TOLD: usize = 100;

fn line_of(alloc: Global, word: DueWord) -> Result<String<Global>, AllocError>
    ensures { IfOk result (λ text. string_bytes text ≡ due_line word) }
{
    match word {
        DueWord::Register { register, base } => format!(in alloc; "c{register} base 0x{base:x}\n"),
        DueWord::Granule { address, base } => {
            format!(in alloc; "granule 0x{address:x} base 0x{base:x}\n")
        }
    }
}

// The lines of these words, after what stands.
fn push_lines(
    alloc: Global,
    text: &mut Vec<u8, Global>,
    words: &[DueWord],
) -> Result<(), AllocError>
    ensures { IfOk result (λ done. text.new.items ≡ text.old.items ++ flat_map due_line words.now) }
{
    for word in words {
        let line = line_of(alloc, *word)?;
        text.extend_from_slice(line.as_bytes())?;
    }
    Ok(())
}

// The first of these words, and how many they are.
fn push_due(alloc: Global, text: &mut Vec<u8, Global>, words: &[DueWord]) -> Result<(), AllocError>
    ensures { IfOk result (λ done. text.new.items ≡ text.old.items ++ due_text words.now) }
{
    let told = words.len().min(MOST_TOLD);
    push_lines(alloc, text, &words[..told])?;
    let count = Counted {
        count: words.len() as u64,
        noun: Noun::Word,
    };
    let last = format!(in alloc; "{count} due\n")?;
    text.extend_from_slice(last.as_bytes())?;
    Ok(())
}

// Whether registers count too, where the numbers differ.
fn unless_equal(told: u32, is: u32, registers_too: bool) -> Option<bool>
    ensures { result ≡ unless_equal told is registers_too }
{
    if told == is {
        None
    } else {
        Some(registers_too)
    }
}

// Whether a pass took another number of tags than it was said to, or a revoker left some, and whether those of registers count too.
fn miscounts(event: Event, difference: Difference) -> Option<bool>
    ensures { result ≡ miscounts event difference }
{
    match (event, difference) {
        (Event::Done { .. }, Difference::Answer(Why::Takes(_))) => Some(true),
        (
            Event::Done {
                answer: Reply::Swept { cleared: told, .. },
                ..
            },
            Difference::Answer(Why::MustBe(Reply::Swept { cleared, .. })),
        ) => unless_equal(told, cleared, true),
        (
            Event::Done {
                answer: Reply::Begun { cleared: told },
                ..
            },
            Difference::Answer(Why::MustBe(Reply::Begun { cleared })),
        ) => unless_equal(told, cleared, false),
        (Event::Revoked { .. }, Difference::Step(RevokerReply::Trap(RevokerTrap::Left))) => {
            Some(true)
        }
        _ => None,
    }
}

/// The words that are due, after what stands, where a pass was said to take another number of tags, or a revoker left some.
pub fn push_due_shown(
    alloc: Global,
    text: &mut Vec<u8, Global>,
    machine: &Machine,
    differing: Differing,
) -> Result<(), AllocError>
    ensures { IfOk result (λ done. text.new.items
        ≡ text.old.items ++ due_shown (miscounts differing.event differing.difference) machine.now.state) }
{
    let Some(registers_too) = miscounts(differing.event, differing.difference) else {
        return Ok(());
    };
    let words = due_words(alloc, machine, registers_too)?;
    push_due(alloc, text, &words)?;
    Ok(())
}
