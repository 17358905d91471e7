//! The words of an answer, which are just those of the text that a report has for it.

ghost use Rattle.std.specs.Prelude.{◌≡◌, ◌<◌, ◌≤◌, ◌^◌, IfSome};
ghost use Rattle.std.specs.Option.{option_map};
ghost use Rattle.trace_text.specs.Lines.{words_of};
ghost use Rattle.log_text.specs.ReplyText.{reply_in, block_in, cleared_in, done_in, exponent_in, field_in, held_in, hexadecimal_in, kind_in, no_space_in, bounded_address_in, shown_in, swept_in, trap_in};

use crate::numbers::{bit, decimal, hexadecimal};
use heap_reply::{BoundedAddress, Reply, Shown, Trap};
use trace_text::{Line, no_word, one_word, two_words};

// How many tags a sweep took, in words that may follow. The outer None is for other words.
#[tactic(auto, unfolding(crate::specs::ReplyText::swept_in))]
fn swept(line: &Line<'_>) -> Option<Option<u32>>
    ensures { result ≡ swept_in (words_of line.now) }
{
    let Some((name, rest)) = line.split_word() else {
        return Some(None);
    };
    if name != b"swept".as_slice() {
        return None;
    }
    let cleared = decimal(one_word(&rest)?, u64::from(u32::MAX))?;
    Some(Some(cleared as u32))
}

// A block, and perhaps the sweep before it.
#[tactic(auto, unfolding(crate::specs::ReplyText::block_in))]
fn block(line: &Line<'_>) -> Option<Reply>
    ensures { result ≡ block_in (words_of line.now) }
{
    let (base, rest) = line.split_word()?;
    let (top, rest) = rest.split_word()?;
    let base = hexadecimal(base, 16)? as u64;
    let top = hexadecimal(top, 32)?;
    match swept(&rest)? {
        None => Some(Reply::Block { base, top }),
        Some(cleared) => Some(Reply::BlockAfter { base, top, cleared }),
    }
}

// That no block was found, and perhaps the sweep before it.
fn no_space(line: &Line<'_>) -> Option<Reply>
    ensures { result ≡ no_space_in (words_of line.now) }
{
    match swept(line)? {
        None => Some(Reply::NoSpace),
        Some(cleared) => Some(Reply::NoSpaceAfter { cleared }),
    }
}

// That a tag was cleared, how many were, or how many and how many bytes are free again.
#[tactic(auto, unfolding(crate::specs::ReplyText::cleared_in))]
fn cleared(line: &Line<'_>) -> Option<Reply>
    ensures { result ≡ cleared_in (words_of line.now) }
{
    let Some((cleared, rest)) = line.split_word() else {
        return Some(Reply::Cleared);
    };
    let cleared = decimal(cleared, u64::from(u32::MAX))? as u32;
    let Some((name, rest)) = rest.split_word() else {
        return Some(Reply::Begun { cleared });
    };
    if name != b"released".as_slice() {
        return None;
    }
    let released = decimal(one_word(&rest)?, u64::MAX)?;
    Some(Reply::Swept { cleared, released })
}

// The number of bytes in quarantine.
fn held(line: &Line<'_>) -> Option<Reply>
    ensures { result ≡ held_in (words_of line.now) }
{
    let bytes = decimal(one_word(line)?, u64::MAX)?;
    Some(Reply::Held(bytes))
}

// That it is done.
fn done(line: &Line<'_>) -> Option<Reply>
    ensures { result ≡ done_in (words_of line.now) }
{
    if no_word(line) {
        Some(Reply::Done)
    } else {
        None
    }
}

// The number after this name, of at most so many hexadecimal digits, and what follows it.
#[tactic(auto, unfolding(crate::specs::ReplyText::field_in))]
fn hexadecimal_field<'a>(line: &Line<'a>, name: &[u8], most: usize) -> Option<(u128, Line<'a>)>
    requires { (0 < most) × (most ≤ 32) }
    ensures value { option_map (λ field. (field.0, words_of field.1)) result ≡ field_in name.now (hexadecimal_in (16 ^ most)) (words_of line.now) }
    ensures below { IfSome result (λ field. field.0 < 16 ^ most) }
{
    let (first, rest) = line.split_word()?;
    let (second, rest) = rest.split_word()?;
    if first != name {
        return None;
    }
    let number = hexadecimal(second, most)?;
    Some((number, rest))
}

// Address, base and top, and what follows them.
#[tactic(auto, unfolding(crate::specs::ReplyText::bounded_address_in))]
fn bounded_address<'a>(line: &Line<'a>) -> Option<(BoundedAddress, Line<'a>)>
    ensures { option_map (λ read. ((read.0.address, read.0.base, read.0.top), words_of read.1)) result ≡ bounded_address_in (words_of line.now) }
{
    let (address, rest) = hexadecimal_field(line, b"address", 16)?;
    let (base, rest) = hexadecimal_field(&rest, b"base", 16)?;
    let (top, rest) = hexadecimal_field(&rest, b"top", 32)?;
    let place = BoundedAddress {
        address: address as u64,
        base: base as u64,
        top,
    };
    Some((place, rest))
}

// The exponent, with which the words end.
fn exponent(line: &Line<'_>) -> Option<u8>
    ensures { result ≡ exponent_in (words_of line.now) }
{
    let (name, word) = two_words(line)?;
    if name != b"exponent".as_slice() {
        return None;
    }
    let exponent = decimal(word, u64::from(u8::MAX))?;
    Some(exponent as u8)
}

// Permissions, type and exponent, with which the words end.
#[tactic(auto, unfolding(crate::specs::ReplyText::kind_in))]
fn kind(line: &Line<'_>) -> Option<(u16, u32, u8)>
    ensures { result ≡ kind_in (words_of line.now) }
{
    let (perms, rest) = hexadecimal_field(line, b"perms", 4)?;
    let (otype, rest) = hexadecimal_field(&rest, b"type", 8)?;
    let exponent = exponent(&rest)?;
    Some((perms as u16, otype as u32, exponent))
}

// What a register shows.
#[tactic(auto, unfolding(crate::specs::ReplyText::shown_in))]
fn shown(line: &Line<'_>) -> Option<Shown>
    ensures { result ≡ shown_in (words_of line.now) }
{
    let (tag, rest) = line.split_word()?;
    let tag = bit(tag)?;
    let (place, rest) = bounded_address(&rest)?;
    let (perms, otype, exponent) = kind(&rest)?;
    Some(Shown {
        top: place.top,
        address: place.address,
        base: place.base,
        otype,
        perms,
        exponent,
        tag,
    })
}

// The trap with this name.
#[tactic(auto, unfolding(crate::specs::ReplyText::trap_in))]
fn trap(name: &[u8]) -> Option<Trap>
    ensures { result ≡ trap_in name.now }
{
    if name == b"tag".as_slice() {
        return Some(Trap::Tag);
    }
    if name == b"perm".as_slice() {
        return Some(Trap::Perm);
    }
    if name == b"bounds".as_slice() {
        return Some(Trap::Bounds);
    }
    if name == b"align".as_slice() {
        return Some(Trap::Align);
    }
    if name == b"empty".as_slice() {
        return Some(Trap::Empty);
    }
    if name == b"inexact".as_slice() {
        return Some(Trap::Inexact);
    }
    if name == b"freed".as_slice() {
        return Some(Trap::Freed);
    }
    if name == b"notblock".as_slice() {
        return Some(Trap::NotBlock);
    }
    if name == b"open".as_slice() {
        return Some(Trap::Open);
    }
    if name == b"notopen".as_slice() {
        return Some(Trap::NotOpen);
    }
    None
}

/// The reply whose text in a report has the words of this line. Blanks may stand between them as in a trace.
#[tactic(auto, unfolding(crate::specs::ReplyText::reply_in))]
pub fn reply(line: &Line<'_>) -> Option<Reply>
    ensures { result ≡ reply_in (words_of line.now) }
{
    let (name, rest) = line.split_word()?;
    if name == b"block".as_slice() {
        return block(&rest);
    }
    if name == b"nospace".as_slice() {
        return no_space(&rest);
    }
    if name == b"held".as_slice() {
        return held(&rest);
    }
    if name == b"ok".as_slice() {
        return done(&rest);
    }
    if name == b"cleared".as_slice() {
        return cleared(&rest);
    }
    if name == b"tag".as_slice() {
        return Some(Reply::Shown(shown(&rest)?));
    }
    if name == b"trap".as_slice() {
        return Some(Reply::Trap(trap(one_word(&rest)?)?));
    }
    None
}
