//! Which word of an answer that isn't read wasn't taken.

ghost use Rattle.std.specs.Prelude.{◌≤◌, length};

use crate::saying::{joined, shown};
use host_memory::Global;
use log_text::{Asked, asked_line, event_of_answer};
use std::alloc::AllocError;
use trace_text::Line;

// One answer of each form, with all words that it may have.
const ANSWERS: [&str; 7] = [
    "block 0x0 0x0 swept 0",
    "nospace swept 0",
    "held 0",
    "ok",
    "cleared 0 released 0",
    "tag 0 address 0x0 base 0x0 top 0x0 perms 0x0 type 0x0 exponent 0",
    "trap tag",
];

// The same of answers to a revoker's commands.
const REVOKED: [&str; 4] = ["ok", "cleared 0", "released 0", "trap left"];

// What is seen of a granule.
const SEEN: [&str; 1] = ["0 00000000000000000000000000000000"];

// More words than any answer has.
const MOST_WORDS: usize = 16;

/// What of a line's answer wasn't taken.
#[derive(Clone, Copy)]
enum Wrong<'a> {
    /// There is no arrow between blanks.
    NoArrow,
    /// The answer ends before it is one.
    Ends,
    /// No answer has this word there.
    Word(&'a [u8]),
}

// What stands behind so many words, if there are as many.
fn behind_words<'a>(line: &'a str, count: usize) -> Option<&'a [u8]> {
    let mut rest = Line::of_bytes(line.as_bytes());
    for _ in 0..count {
        let (_, after) = rest.split_word()?;
        rest = after;
    }
    Some(rest.bytes())
}

// Whether these words, each with a blank behind it, begin an answer of this form.
fn begins_as(
    alloc: Global,
    asked: Asked,
    words: &[u8],
    count: usize,
    form: &str,
) -> Result<bool, AllocError> {
    let Some(rest) = behind_words(form, count) else {
        return Ok(false);
    };
    let mut whole = Vec::with_capacity(alloc, words.len())?;
    whole.extend_from_slice(words)?;
    whole.extend_from_slice(rest)?;
    Ok(event_of_answer(asked, &Line::of_bytes(&whole)).is_some())
}

// Whether they begin any answer to what was asked.
fn begin_answer(
    alloc: Global,
    asked: Asked,
    words: &[u8],
    count: usize,
) -> Result<bool, AllocError> {
    let forms: &[&str] = match asked {
        Asked::Command(_) => &ANSWERS,
        Asked::Revoker(_) => &REVOKED,
        Asked::Granule(_) => &SEEN,
    };
    for form in forms {
        if begins_as(alloc, asked, words, count, form)? {
            return Ok(true);
        }
    }
    Ok(false)
}

// The first word with which those of a line begin no answer; or that they end too early.
fn wrong_answer<'a>(alloc: Global, asked: Asked, told: &Line<'a>) -> Result<Wrong<'a>, AllocError> {
    let mut words = Vec::new(alloc);
    let mut rest = Line::of_bytes(told.bytes());
    for count in 0..MOST_WORDS {
        let Some((word, after)) = rest.split_word() else {
            return Ok(Wrong::Ends);
        };
        words.extend_from_slice(word)?;
        words.push(b' ')?;
        if !begin_answer(alloc, asked, &words, count + 1)? {
            return Ok(Wrong::Word(word));
        }
        rest = after;
    }
    Ok(Wrong::Ends)
}

// What is wrong with the answer of this line.
fn wrong_in<'a>(alloc: Global, line: &Line<'a>) -> Result<Wrong<'a>, AllocError> {
    match asked_line(line) {
        Some(Some((asked, told))) => wrong_answer(alloc, asked, &told),
        _ => Ok(Wrong::NoArrow),
    }
}

/// That a line has no arrow.
pub(crate) fn no_arrow(alloc: Global) -> Result<Vec<u8, Global>, AllocError> {
    joined(alloc, &[b"it has no arrow -> between blanks"])
}

/// What is wrong with the answer of this line.
pub(crate) fn answer_wanted(alloc: Global, line: &Line<'_>) -> Result<Vec<u8, Global>, AllocError> {
    match wrong_in(alloc, line)? {
        Wrong::NoArrow => no_arrow(alloc),
        Wrong::Ends => joined(alloc, &[b"its answer ends too early"]),
        Wrong::Word(word) => {
            let word = shown(alloc, word)?;
            joined(alloc, &[b"no answer has the word ", &word, b" there"])
        }
    }
}
