//! Why an answer isn't allowed, as a record of plain numbers.

ghost use Rattle.std.specs.Prelude.{◌≡◌};
ghost use Rattle.byte_machine.specs.Records as records;

use crate::halves::{high_half, low_half};
use crate::replies::{ReplyRecord, bare, reply_record};
use heap_core::{Block, Obstacle};
use heap_machine::Why;

/// A reason in plain numbers. Kinds count from 0: must be `reply`, not of malloc, too short, may not sweep, takes `count`
/// tags, refused. `claim` says why a place is refused, from 1: uneven, empty, outside, inexact, over a live block, over a
/// held one. The block in the way lies from `base` to the top, of which `top_high` is what is above `2^64`.
#[repr(C)]
#[derive(Debug, Clone, Copy, PartialEq, Eq)]
pub struct WhyRecord {
    pub kind: u8,
    pub claim: u8,
    pub count: u32,
    pub base: u64,
    pub top: u64,
    pub top_high: u64,
    pub reply: ReplyRecord,
}

fn reason(kind: u8) -> WhyRecord
    ensures { result ≡ records.reason_record kind }
{
    WhyRecord {
        kind,
        claim: 0,
        count: 0,
        base: 0,
        top: 0,
        top_high: 0,
        reply: bare(0),
    }
}

fn refusal_reason(claim: u8) -> WhyRecord
    ensures { result ≡ records.refused_record claim }
{
    WhyRecord { claim, ..reason(5) }
}

fn in_the_way(claim: u8, block: Block) -> WhyRecord
    ensures { result ≡ records.block_record claim block.base block.top }
{
    WhyRecord {
        base: block.base,
        top: low_half(block.top),
        top_high: high_half(block.top),
        ..refusal_reason(claim)
    }
}

fn obstacle_record(obstacle: Obstacle) -> WhyRecord
    ensures { result ≡ records.record_of_obstacle obstacle }
{
    match obstacle {
        Obstacle::Uneven => refusal_reason(1),
        Obstacle::Empty => refusal_reason(2),
        Obstacle::Outside => refusal_reason(3),
        Obstacle::Inexact => refusal_reason(4),
        Obstacle::OverLive(block) => in_the_way(5, block),
        Obstacle::OverHeld(block) => in_the_way(6, block),
    }
}

/// The record of a reason; what it doesn't tell is 0.
pub fn why_record(why: Why) -> WhyRecord
    ensures { result ≡ records.record_of_why why }
{
    match why {
        Why::MustBe(reply) => WhyRecord {
            reply: reply_record(reply),
            ..reason(0)
        },
        Why::NotOfMalloc => reason(1),
        Why::TooShort => reason(2),
        Why::MayNotSweep => reason(3),
        Why::Takes(count) => WhyRecord { count, ..reason(4) },
        Why::Refused(claim) => obstacle_record(claim),
    }
}
