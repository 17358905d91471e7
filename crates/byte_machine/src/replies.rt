//! Replies as records of plain numbers.

ghost use Rattle.std.specs.Prelude.{◌≡◌, Some};
ghost use Rattle.byte_machine.specs.Records as records;

use crate::halves::{flag, high_half, low_half, wide};
use heap_reply::{Reply, Shown, Trap};

/// A reply in plain numbers. Kinds count from 0: block, block after a sweep, no space, no space after a sweep, held, done,
/// cleared, swept, begun, shown, trap. `trap` counts from 0: tag, perm, bounds, align, empty, inexact, freed, notblock,
/// open, notopen. `top_high` is what of a top is above `2^64`; `bytes` are those held or released.
#[repr(C)]
#[derive(Debug, Clone, Copy, PartialEq, Eq)]
pub struct ReplyRecord {
    pub kind: u8,
    pub trap: u8,
    pub tag: u8,
    pub exponent: u8,
    pub perms: u16,
    pub cleared: u32,
    pub otype: u32,
    pub base: u64,
    pub top: u64,
    pub top_high: u64,
    pub address: u64,
    pub bytes: u64,
}

// A record of this kind, with no more in it.
pub fn bare(kind: u8) -> ReplyRecord
    ensures { result ≡ records.bare_record kind }
{
    ReplyRecord {
        kind,
        trap: 0,
        tag: 0,
        exponent: 0,
        perms: 0,
        cleared: 0,
        otype: 0,
        base: 0,
        top: 0,
        top_high: 0,
        address: 0,
        bytes: 0,
    }
}

fn with_bounds(kind: u8, base: u64, top: u128) -> ReplyRecord
    ensures { result ≡ records.with_bounds kind base top }
{
    ReplyRecord {
        base,
        top: low_half(top),
        top_high: high_half(top),
        ..bare(kind)
    }
}

pub fn with_cleared(given: ReplyRecord, cleared: u32) -> ReplyRecord
    ensures { result ≡ records.with_cleared given cleared }
{
    ReplyRecord { cleared, ..given }
}

pub fn with_bytes(given: ReplyRecord, bytes: u64) -> ReplyRecord
    ensures { result ≡ records.with_bytes given bytes }
{
    ReplyRecord { bytes, ..given }
}

fn shown_record(shown: Shown) -> ReplyRecord
    ensures { result ≡ records.record_of_shown shown }
{
    ReplyRecord {
        address: shown.address,
        otype: shown.otype,
        perms: shown.perms,
        tag: flag(shown.tag),
        exponent: shown.exponent,
        ..with_bounds(9, shown.base, shown.top)
    }
}

fn trap_number(trap: Trap) -> u8
    ensures { result ≡ records.trap_number trap }
{
    match trap {
        Trap::Tag => 0,
        Trap::Perm => 1,
        Trap::Bounds => 2,
        Trap::Align => 3,
        Trap::Empty => 4,
        Trap::Inexact => 5,
        Trap::Freed => 6,
        Trap::NotBlock => 7,
        Trap::Open => 8,
        Trap::NotOpen => 9,
    }
}

fn trap_record(trap: Trap) -> ReplyRecord
    ensures { result ≡ records.record_of_trap trap }
{
    ReplyRecord {
        trap: trap_number(trap),
        ..bare(10)
    }
}

/// The record of a reply; what it doesn't tell is 0.
pub fn reply_record(reply: Reply) -> ReplyRecord
    ensures value { result ≡ records.record_of_reply reply }
    ensures back { records.reply_of_record result ≡ Some reply }
{
    told(reply)
}

fn told(reply: Reply) -> ReplyRecord
    ensures { result ≡ records.record_of_reply reply }
{
    match reply {
        Reply::Block { base, top } => with_bounds(0, base, top),
        Reply::BlockAfter { base, top, cleared } => with_cleared(
            with_bounds(1, base, top),
            cleared,
        ),
        Reply::NoSpace => bare(2),
        Reply::NoSpaceAfter { cleared } => with_cleared(bare(3), cleared),
        Reply::Held(bytes) => with_bytes(bare(4), bytes),
        Reply::Done => bare(5),
        Reply::Cleared => bare(6),
        Reply::Swept { cleared, released } => with_bytes(with_cleared(bare(7), cleared), released),
        Reply::Begun { cleared } => with_cleared(bare(8), cleared),
        Reply::Shown(shown) => shown_record(shown),
        Reply::Trap(trap) => trap_record(trap),
    }
}

fn trap_numbered(number: u8) -> Option<Trap>
    ensures { result ≡ records.trap_of_number number }
{
    match number {
        0 => Some(Trap::Tag),
        1 => Some(Trap::Perm),
        2 => Some(Trap::Bounds),
        3 => Some(Trap::Align),
        4 => Some(Trap::Empty),
        5 => Some(Trap::Inexact),
        6 => Some(Trap::Freed),
        7 => Some(Trap::NotBlock),
        8 => Some(Trap::Open),
        9 => Some(Trap::NotOpen),
        _ => None,
    }
}

// The trap of a record, as a reply.
fn trap_from(given: ReplyRecord) -> Option<Reply>
    ensures { result ≡ records.trap_reply (records.trap_of_number given.trap) }
{
    match trap_numbered(given.trap) {
        Some(trap) => Some(Reply::Trap(trap)),
        None => None,
    }
}

// What a record shows of a register.
fn shown_from(given: ReplyRecord) -> Option<Reply>
    ensures { result ≡ records.shown_of_record given }
{
    if given.tag < 2 {
        Some(Reply::Shown(Shown {
            top: wide(given.top, given.top_high),
            address: given.address,
            base: given.base,
            otype: given.otype,
            perms: given.perms,
            exponent: given.exponent,
            tag: given.tag == 1,
        }))
    } else {
        None
    }
}

/// The reply of a record. None where no kind or no trap has its number, or where its tag is neither 0 nor 1; what a kind
/// doesn't use isn't looked at.
#[tactic(auto, unfolding(crate::specs::Records::reply_of_record))]
pub fn reply_of(given: ReplyRecord) -> Option<Reply>
    ensures { result ≡ records.reply_of_record given }
{
    let base = given.base;
    let top = wide(given.top, given.top_high);
    let cleared = given.cleared;
    match given.kind {
        0 => Some(Reply::Block { base, top }),
        1 => Some(Reply::BlockAfter { base, top, cleared }),
        2 => Some(Reply::NoSpace),
        3 => Some(Reply::NoSpaceAfter { cleared }),
        4 => Some(Reply::Held(given.bytes)),
        5 => Some(Reply::Done),
        6 => Some(Reply::Cleared),
        7 => Some(Reply::Swept {
            cleared,
            released: given.bytes,
        }),
        8 => Some(Reply::Begun { cleared }),
        9 => shown_from(given),
        10 => trap_from(given),
        _ => None,
    }
}
