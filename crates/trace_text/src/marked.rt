//! A line of a text, and where its words end.

ghost use Rattle.std.specs.Prelude.{◌≡◌, ◌<◌, ◌≤◌, ◌==◌, ℕ, [], ◌∷◌, drop, false, length, not, slice_index, take, true, IfNone, IfSome};
ghost use Rattle.std.specs.Option.{option_map};
ghost use Rattle.tag_memory.specs.Tags.{is_set};
ghost use Rattle.trace_text.specs.Lines.{is_blank, is_passed_over, split_at_first, words_of};
ghost use Rattle.trace_text.specs.Marked.{Ends, IsNextWord, StartsWord};

use std::marker::Model;
use std::simd::prelude::*;
use tag_memory::lowest_bit;

/// How many bytes one look takes in.
pub const LANES: usize = 64;

// How many a first look takes in: most lines end there.
const NEAR: usize = 32;

/// A line, and where its words end, if one look took it in with the feed after it.
#[derive(Drop)]
pub struct Line<'a> {
    bytes: &'a [u8],
    is_seen: bool,
    // Where it is seen: bit `j` is 1 where byte `j` is a blank, and where the line ends.
    stops: u64,
}

impl<'a> Model for Line<'a> {
    ghost use Rattle.std.specs.Prelude.{◌≡◌, ℕ, List, true};

    ghost Value = { List ℕ };

    ghost view = { λ line. line.bytes.now };

    ghost use Rattle.trace_text.specs.Marked.{AreStops};

    ghost invariant = { λ line. line.is_seen ≡ true → AreStops line.bytes.now line.stops };
}

/// Which of the first 64 bytes of a text are line feeds: bit `j` is that of byte `j`.
#[inline(always)]
pub fn feeds_of(text: &[u8]) -> u64
    requires { 64 ≤ length text.now }
    ensures { (j : ℕ) → j < 64 → is_set result j ≡ (slice_index text.now j == 10) }
{
    u8x64::from_slice(text)
        .simd_eq(u8x64::splat(b'\n'))
        .to_bitmask()
}

/// Which of the first 32 are; the other bits are 0.
#[inline(always)]
pub fn near_feeds_of(text: &[u8]) -> u64
    requires { 64 ≤ length text.now }
    ensures near { (j : ℕ) → j < 32 → is_set result j ≡ (slice_index text.now j == 10) }
    ensures far { (j : ℕ) → 32 ≤ j → is_set result j ≡ false }
{
    u8x32::from_slice(text)
        .simd_eq(u8x32::splat(b'\n'))
        .to_bitmask()
}

// Which of the bytes of a text are blank, of as many as are looked at for a line of `count` bytes.
#[inline(always)]
fn blanks_of(text: &[u8], count: usize) -> u64
    requires room { 64 ≤ length text.now }
    requires within { count < 64 }
    ensures { (j : ℕ) → j < count → is_set result j ≡ is_blank (slice_index text.now j) }
{
    if count < NEAR {
        near_blanks_of(text)
    } else {
        far_blanks_of(text)
    }
}

// Which of the first 32 are.
#[inline(always)]
fn near_blanks_of(text: &[u8]) -> u64
    requires { 64 ≤ length text.now }
    ensures { (j : ℕ) → j < 32 → is_set result j ≡ is_blank (slice_index text.now j) }
{
    let bytes = u8x32::from_slice(text);
    let is_space = bytes.simd_eq(u8x32::splat(b' '));
    let is_tab = bytes.simd_eq(u8x32::splat(b'\t'));
    let is_return = bytes.simd_eq(u8x32::splat(b'\r'));
    (is_space | (is_tab | is_return)).to_bitmask()
}

// Which of the first 64 are.
#[inline(always)]
fn far_blanks_of(text: &[u8]) -> u64
    requires { 64 ≤ length text.now }
    ensures { (j : ℕ) → j < 64 → is_set result j ≡ is_blank (slice_index text.now j) }
{
    let bytes = u8x64::from_slice(text);
    let is_space = bytes.simd_eq(u8x64::splat(b' '));
    let is_tab = bytes.simd_eq(u8x64::splat(b'\t'));
    let is_return = bytes.simd_eq(u8x64::splat(b'\r'));
    (is_space | (is_tab | is_return)).to_bitmask()
}

// The place of the lowest bit that is 0, or 64.
#[inline(always)]
fn first_zero(mask: u64) -> usize
    ensures within { result ≤ 64 }
    ensures before { (j : ℕ) → j < result → is_set mask j ≡ true }
    ensures here { result < 64 → is_set mask result ≡ false }
{
    let zeros = !mask;
    if zeros == 0 { LANES } else { lowest_bit(zeros) }
}

fn is_blank_byte(byte: u8) -> bool
    ensures { result ≡ is_blank byte }
{
    byte == b' ' || byte == b'\t' || byte == b'\r'
}

// How many bytes stand before the first blank, by looking at one after the other.
fn bytes_before_blank(bytes: &[u8]) -> usize
    ensures { Ends is_blank bytes.now result }
{
    bytes
        .iter()
        .position(|byte| is_blank_byte(*byte))
        .unwrap_or(bytes.len())
}

// How many bytes stand before the first that is no blank.
fn bytes_before_word(bytes: &[u8]) -> usize
    ensures { Ends (λ byte. not (is_blank byte)) bytes.now result }
{
    bytes
        .iter()
        .position(|byte| !is_blank_byte(*byte))
        .unwrap_or(bytes.len())
}

impl<'a> Line<'a> {
    /// The line before the first feed of a text, which stands at `count`. These are feeds, up to that one.
    #[inline(always)]
    pub fn of_text(text: &'a [u8], feeds: u64, count: usize) -> Line<'a>
        requires room { 64 ≤ length text.now }
        requires within { count < 64 }
        requires feed { is_set feeds count ≡ true }
        requires first { (j : ℕ) → j < count → is_set feeds j ≡ false }
        ensures { result ≡ take count text.now }
    {
        Line {
            bytes: &text[..count],
            is_seen: true,
            stops: blanks_of(text, count) | feeds,
        }
    }

    /// The line of these bytes.
    #[inline(always)]
    pub fn of_bytes(bytes: &'a [u8]) -> Line<'a>
        ensures { result ≡ bytes.now }
    {
        Line {
            bytes,
            is_seen: false,
            stops: 0,
        }
    }

    /// The bytes of the line.
    #[inline(always)]
    pub fn bytes(&self) -> &'a [u8]
        ensures { result.now ≡ self.now }
    {
        self.bytes
    }

    // What follows the first `count` bytes.
    #[inline(always)]
    fn after(&self, count: usize) -> Line<'a>
        requires { count ≤ length self.now }
        ensures { result ≡ drop count self.now }
    {
        Line {
            bytes: &self.bytes[count..],
            is_seen: self.is_seen,
            stops: self.stops >> (count % LANES),
        }
    }

    // How many bytes stand before the first blank.
    #[inline(always)]
    fn before_blank(&self) -> usize
        ensures { Ends is_blank self.now result }
    {
        if self.is_seen {
            lowest_bit(self.stops)
        } else {
            bytes_before_blank(self.bytes)
        }
    }

    // How many bytes stand before the first that is no blank.
    #[inline(always)]
    fn before_word(&self) -> usize
        ensures { Ends (λ byte. not (is_blank byte)) self.now result }
    {
        if self.is_seen {
            first_zero(self.stops).min(self.bytes.len())
        } else {
            bytes_before_word(self.bytes)
        }
    }

    /// The line from its first word on.
    #[inline(always)]
    pub fn from_word(&self) -> Option<Line<'a>>
        ensures none { IfNone result (words_of self.now ≡ []) }
        ensures same { IfSome result (λ rest. words_of rest ≡ words_of self.now) }
        ensures word { IfSome result StartsWord }
    {
        let start = self.before_word();
        if start == self.bytes.len() {
            return None;
        }
        Some(self.after(start))
    }

    /// Whether a line that begins with a word is a comment: where the word ends need not be known.
    #[inline(always)]
    pub fn is_comment(&self) -> bool
        requires { StartsWord self.now }
        ensures { result ≡ is_passed_over (words_of self.now) }
    {
        self.bytes.starts_with(b"#")
    }

    /// The word with which a line begins, and what follows it.
    #[inline(always)]
    pub fn split_front(&self) -> (&'a [u8], Line<'a>)
        requires { StartsWord self.now }
        ensures { words_of self.now ≡ result.0.now ∷ words_of result.1 }
    {
        let end = self.before_blank();
        (&self.bytes[..end], self.after(end))
    }

    /// The first word, and what follows it.
    #[inline(always)]
    pub fn split_word(&self) -> Option<(&'a [u8], Line<'a>)>
        ensures none { IfNone result (words_of self.now ≡ []) }
        ensures word { IfSome result (λ parts. words_of self.now ≡ parts.0.now ∷ words_of parts.1) }
    {
        Some(self.from_word()?.split_front())
    }

    // The first `count` bytes. Where the line is seen, its last word now ends there too.
    #[inline(always)]
    fn before(&self, count: usize) -> Line<'a>
        requires { count ≤ length self.now }
        ensures { result ≡ take count self.now }
    {
        Line {
            bytes: &self.bytes[..count],
            is_seen: self.is_seen,
            stops: self.stops | (1 << (count % LANES)),
        }
    }

    // Where the first word from this place on begins, and where it ends.
    #[inline(always)]
    fn next_word(&self, place: usize) -> Option<(usize, usize)>
        requires { place ≤ length self.now }
        ensures none { IfNone result (words_of (drop place self.now) ≡ []) }
        ensures word { IfSome result (λ word. IsNextWord self.now place word.0 word.1) }
    {
        let blanks = self.after(place).before_word();
        if blanks == self.bytes.len() - place {
            return None;
        }
        let start = place + blanks;
        let end = start + self.after(start).before_blank();
        Some((start, end))
    }

    /// The parts of the line before and after the first word that is this one. None where no word is.
    pub fn split_at_word(&self, word: &[u8]) -> Option<(Line<'a>, Line<'a>)>
        ensures { option_map (λ parts. (words_of parts.0, words_of parts.1)) result ≡ split_at_first word.now (words_of self.now) }
    {
        let mut place = 0;
        while let Some((start, end)) = self.next_word(place) {
            if &self.bytes[start..end] == word {
                return Some((self.before(start), self.after(end)));
            }
            place = end;
        }
        None
    }
}
