//! The texts of replies.

ghost use Rattle.std.specs.Prelude.{◌≡◌, ◌≤◌, ◌+◌, ◌++◌, Some, length};
ghost use Rattle.heap_reply.specs.Kind.{kind_text};
ghost use Rattle.heap_reply.specs.ReplyText.{text_of_reply, block_text, shown_text, trap_name};

use crate::display::flag_number;
use crate::reply::{Reply, Shown, Trap};
use crate::short_text::ShortText;
use std::fmt;

impl Trap {
    /// The word that names it, of 8 bytes at most.
    pub fn name(self) -> &'static str
        ensures name { result.now ≡ trap_name self }
        ensures short { length result.now ≤ 8 }
    {
        match self {
            Trap::Tag => "tag",
            Trap::Perm => "perm",
            Trap::Bounds => "bounds",
            Trap::Align => "align",
            Trap::Empty => "empty",
            Trap::Inexact => "inexact",
            Trap::Freed => "freed",
            Trap::NotBlock => "notblock",
            Trap::Open => "open",
            Trap::NotOpen => "notopen",
        }
    }
}

// Puts what a capability allows, its type and its exponent before what stands.
#[inline(always)]
fn put_kind(text: &mut ShortText, perms: u16, otype: u32, exponent: u8)
    requires room { 79 + length text.old ≤ 256 }
    ensures text { text.new ≡ kind_text perms otype exponent ++ text.old }
    ensures length { length text.new ≤ 79 + length text.old }
{
    // What a malloc gives of less than 4 KiB has these, until some are taken from it.
    if perms == 0x3d && otype == 0x3ffff && exponent == 0 {
        text.put(" perms 0x3d type 0x3ffff exponent 0");
        return;
    }
    text.put_decimal(u64::from(exponent));
    text.put(" exponent ");
    text.put_hexadecimal(u64::from(otype));
    text.put(" type ");
    text.put_hexadecimal(u64::from(perms));
    text.put(" perms ");
}

// Puts what is shown of a register before what stands.
#[inline(always)]
fn put_shown(text: &mut ShortText, shown: &Shown)
    requires room { 200 + length text.old ≤ 256 }
    ensures text { text.new ≡ shown_text shown.now ++ text.old }
    ensures length { length text.new ≤ 200 + length text.old }
{
    put_kind(text, shown.perms, shown.otype, shown.exponent);
    text.put_bounded_address(shown.address, shown.base, shown.top);
    text.put(" ");
    text.put_decimal(u64::from(flag_number(shown.tag)));
    text.put("tag ");
}

// Puts a block's bounds before what stands.
#[inline(always)]
fn put_bounds(text: &mut ShortText, base: u64, top: u128)
    requires room { 60 + length text.old ≤ 256 }
    ensures text { text.new ≡ block_text base top ++ text.old }
    ensures length { length text.new ≤ 60 + length text.old }
{
    text.put_wide_hexadecimal(top);
    text.put(" ");
    text.put_hexadecimal(base);
    text.put("block ");
}

/// Puts the text of a reply before what stands, 200 bytes at most.
#[inline(always)]
pub fn put_reply(text: &mut ShortText, reply: Reply)
    requires room { 200 + length text.old ≤ 256 }
    ensures text { text.new ≡ text_of_reply reply ++ text.old }
    ensures length { length text.new ≤ 200 + length text.old }
{
    put_reply_of(text, &reply);
}

/// The same of a reply that stays where it is: a copy of one that was just written waits for the cache.
#[inline(always)]
pub fn put_reply_of(text: &mut ShortText, reply: &Reply)
    requires room { 200 + length text.old ≤ 256 }
    ensures text { text.new ≡ text_of_reply reply.now ++ text.old }
    ensures length { length text.new ≤ 200 + length text.old }
{
    match *reply {
        Reply::Block { base, top } => put_bounds(text, base, top),
        Reply::BlockAfter { base, top, cleared } => {
            text.put_decimal(u64::from(cleared));
            text.put(" swept ");
            put_bounds(text, base, top);
        }
        Reply::NoSpace => text.put("nospace"),
        Reply::NoSpaceAfter { cleared } => {
            text.put_decimal(u64::from(cleared));
            text.put("nospace swept ");
        }
        Reply::Held(bytes) => {
            text.put_decimal(bytes);
            text.put("held ");
        }
        Reply::Done => text.put("ok"),
        Reply::Cleared => text.put("cleared"),
        Reply::Swept { cleared, released } => {
            text.put_decimal(released);
            text.put(" released ");
            text.put_decimal(u64::from(cleared));
            text.put("cleared ");
        }
        Reply::Begun { cleared } => {
            text.put_decimal(u64::from(cleared));
            text.put("cleared ");
        }
        Reply::Shown(ref shown) => put_shown(text, shown),
        Reply::Trap(trap) => {
            text.put(trap.name());
            text.put("trap ");
        }
    }
}

impl fmt::Display for Shown {
    ghost output = { λ s. Some (shown_text s) };

    fn fmt<W: fmt::Write>(&self, f: &mut fmt::Formatter<W>) -> fmt::Result {
        let mut text = ShortText::new();
        put_shown(&mut text, self);
        f.write_str(text.as_str())
    }
}

impl fmt::Display for Reply {
    ghost output = { λ r. Some (text_of_reply r) };

    fn fmt<W: fmt::Write>(&self, f: &mut fmt::Formatter<W>) -> fmt::Result {
        let mut text = ShortText::new();
        put_reply_of(&mut text, self);
        f.write_str(text.as_str())
    }
}
