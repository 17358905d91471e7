//! The lines of a text and the words of a line.

ghost use Rattle.std.specs.Prelude.{◌≡◌, ◌<◌, ◌≤◌, ◌==◌, ℕ, [], ◌∷◌, false, length, slice_index, take, IsTrue, IfNone, IfSome, OnSome};
ghost use Rattle.std.specs.Option.{option_map};
ghost use Rattle.trace_text.specs.Lines.{is_blank, is_passed_over, lines_of, words_of};
ghost use Rattle.trace_text.specs.Marked.{Ends};
ghost use Rattle.trace_text.specs.Reading.{no_word_in, one_word_in, three_words_in, two_words_in};

use crate::marked::{LANES, Line, feeds_of, near_feeds_of};
use memchr::memchr_iter;
use tag_memory::lowest_bit;

// The least length of a line in which a look finds where words end.
const LEAST_SEEN: usize = 4;

// How many bytes stand before the first feed, or in all.
fn bytes_before_feed(text: &[u8]) -> usize
    ensures { Ends (λ byte. byte == 10) text.now result }
{
    // The iterator looks at the next 32 bytes first, which most lines don't pass.
    memchr_iter(b'\n', text).next().unwrap_or(text.len())
}

// The first `count` bytes of a text as a line. A comment is passed over whatever its words, and in few bytes they are found
// sooner one after the other.
#[inline(always)]
fn line_of(text: &[u8], count: usize) -> Line<'_>
    requires { count ≤ length text.now }
    ensures { result ≡ take count text.now }
{
    if count < LEAST_SEEN || count >= LANES || text.len() < LANES || text.starts_with(b"#") {
        return Line::of_bytes(&text[..count]);
    }
    Line::of_text(text, 1 << count, count)
}

// The first line of a text that isn't empty, which ends at the first feed from a place on, and what follows it.
#[inline(always)]
fn split_from(text: &[u8], place: usize) -> (Line<'_>, &[u8])
    requires some { 0 < length text.now }
    requires within { place ≤ length text.now }
    requires none { (j : ℕ) → j < place → (slice_index text.now j == 10) ≡ false }
    ensures line { lines_of text.now ≡ result.0 ∷ lines_of result.1.now }
    ensures shorter { length result.1.now < length text.now }
{
    let count = place + bytes_before_feed(&text[place..]);
    (line_of(text, count), &text[(count + 1).min(text.len())..])
}

/// The first line of a text, without its line feed, and the text after it. None at the text's end.
#[inline(always)]
pub fn split_line(text: &[u8]) -> Option<(Line<'_>, &[u8])>
    ensures end { IfNone result (text.now ≡ []) }
    ensures line { IfSome result (λ parts. lines_of text.now ≡ parts.0 ∷ lines_of parts.1.now) }
    ensures shorter { IfSome result (λ parts. length parts.1.now < length text.now) }
{
    let Some(first) = text.first() else {
        return None;
    };
    // An empty line is no work for a search.
    if *first == b'\n' {
        return Some((Line::of_bytes(&text[..0]), &text[1..]));
    }
    // Of a line that begins with a blank or as a comment does, the feed alone may be all that is asked for.
    if *first <= b'#' || text.len() < LANES {
        return Some(split_from(text, 0));
    }
    let near = near_feeds_of(text);
    if near != 0 {
        let count = lowest_bit(near);
        return Some((Line::of_text(text, near, count), &text[count + 1..]));
    }
    let feeds = feeds_of(text);
    if feeds == 0 {
        return Some(split_from(text, LANES));
    }
    let count = lowest_bit(feeds);
    Some((Line::of_text(text, feeds, count), &text[count + 1..]))
}

/// The first word of a line, and what follows it. None where the line is passed over.
#[inline(always)]
pub fn split_name<'a>(line: &Line<'a>) -> Option<(&'a [u8], Line<'a>)>
    ensures none { IfNone result (IsTrue (is_passed_over (words_of line.now))) }
    ensures counts { OnSome result (is_passed_over (words_of line.now) ≡ false) }
    ensures name { IfSome result (λ parts. words_of line.now ≡ parts.0.now ∷ words_of parts.1) }
{
    let rest = line.from_word()?;
    if rest.is_comment() {
        return None;
    }
    Some(rest.split_front())
}

/// Whether a line has no word.
#[inline(always)]
pub fn no_word(line: &Line<'_>) -> bool
    ensures { result ≡ no_word_in (words_of line.now) }
{
    line.split_word().is_none()
}

/// The word of a line that has just one.
#[inline(always)]
pub fn one_word<'a>(line: &Line<'a>) -> Option<&'a [u8]>
    ensures { option_map (λ word. word.now) result ≡ one_word_in (words_of line.now) }
{
    let (word, rest) = line.split_word()?;
    if rest.split_word().is_some() {
        return None;
    }
    Some(word)
}

/// The words of a line that has just two.
#[inline(always)]
pub fn two_words<'a>(line: &Line<'a>) -> Option<(&'a [u8], &'a [u8])>
    ensures { option_map (λ words. (words.0.now, words.1.now)) result ≡ two_words_in (words_of line.now) }
{
    let (first, rest) = line.split_word()?;
    let second = one_word(&rest)?;
    Some((first, second))
}

/// The words of a line that has just three.
#[inline(always)]
pub fn three_words<'a>(line: &Line<'a>) -> Option<(&'a [u8], &'a [u8], &'a [u8])>
    ensures { option_map (λ words. (words.0.now, words.1.now, words.2.now)) result ≡ three_words_in (words_of line.now) }
{
    let (first, rest) = line.split_word()?;
    let (second, third) = two_words(&rest)?;
    Some((first, second, third))
}
