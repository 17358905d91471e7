//! Logs of a part of a run: their last line is a comment that says so.

ghost use Rattle.std.specs.Prelude.{◌≡◌, ◌+◌, ◌-◌, ◌<◌, ◌≤◌, ◌==◌, ℕ, None, true, false, length, slice_index, IfOk};
ghost use Rattle.std.specs.Option.{option_map};
ghost use Rattle.log_notes.specs.Notes.{line_of_part};
ghost use Rattle.log_notes.specs.Part.{comment_in, part_comment, part_line, shown_byte};

use host_memory::Global;
use std::alloc::AllocError;

// How such a comment begins.
const PART_WORDS: &[u8] = b"# Part: ";

const BEGUN: &[u8] = b"heap_check: the log has a part: ";

// As much as is told of it.
const MOST_COMMENT: usize = 600;

// Where the last line of a text ends: before a feed that the text ends with.
fn last_end(text: &[u8]) -> usize
    ensures within { result ≤ length text.now }
    ensures feed { result < length text.now → (result + 1 ≡ length text.now) × ((slice_index text.now result == 10) ≡ true) }
    ensures none { result ≡ length text.now → 0 < result → (slice_index text.now (result - 1) == 10) ≡ false }
{
    let length = text.len();
    if length == 0 {
        return 0;
    }
    if text[length - 1] == b'\n' {
        return length - 1;
    }
    length
}

// Where the last line of a text begins, which ends at `end`.
fn last_start(text: &[u8], end: usize) -> usize
    requires { end ≤ length text.now }
    ensures within { result ≤ end }
    ensures line { (j : ℕ) → result ≤ j → j < end → (slice_index text.now j == 10) ≡ false }
    ensures feed { 0 < result → slice_index text.now (result - 1) ≡ 10 }
{
    let mut start = end;
    while start > 0 && text[start - 1] != b'\n' {
        start -= 1;
    }
    start
}

/// What the last line of a log says of the part of a run that it has, if it says so.
pub fn part_comment(log: &[u8]) -> Option<&[u8]>
    ensures { option_map (λ comment. comment.now) result ≡ part_comment log.now }
{
    let end = last_end(log);
    let start = last_start(log, end);
    comment_in(&log[start..end])
}

// What a line says behind the words with which such a comment begins.
fn comment_in(line: &[u8]) -> Option<&[u8]>
    ensures { option_map (λ comment. comment.now) result ≡ comment_in line.now }
{
    if line.starts_with(PART_WORDS) {
        Some(&line[PART_WORDS.len()..])
    } else {
        None
    }
}

fn shown_byte(byte: u8) -> u8
    ensures { result ≡ shown_byte byte }
{
    if byte >= b' ' && byte <= b'~' {
        byte
    } else {
        b'?'
    }
}

/// The line that tells such a comment. An error is want of memory.
pub fn part_line(alloc: Global, comment: &[u8]) -> Result<Vec<u8, Global>, AllocError>
    ensures { IfOk result (λ line. line.items ≡ part_line comment.now) }
{
    let mut line = Vec::from_slice(alloc, BEGUN)?;
    let told = &comment[..comment.len().min(MOST_COMMENT)];
    for byte in told {
        line.push(shown_byte(*byte))?;
    }
    line.push(b'\n')?;
    Ok(line)
}

/// The line that tells of the part of a run that a log has, and nothing where it has a whole one. An error is want of memory.
pub(crate) fn part_note(alloc: Global, log: &[u8]) -> Result<Vec<u8, Global>, AllocError>
    ensures { IfOk result (λ text. text.items ≡ line_of_part (part_comment log.now)) }
{
    match part_comment(log) {
        Some(comment) => part_line(alloc, comment),
        None => Ok(Vec::new(alloc)),
    }
}
