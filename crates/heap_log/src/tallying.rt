//! What the events of a log come to, one more at a time.

ghost use Rattle.std.specs.Prelude.{◌≡◌, ◌<◌, ◌≤◌, ◌^◌, length};
ghost use Rattle.heap_log.specs.Counting.{Grows, HasRoom, tally_with, tally_with_event};
ghost use Rattle.revoker_steps.specs.Events.{cleared_by};
ghost use Rattle.heap_log.specs.Judged.{blocks_of_reply, passes_of_reply, passes_of_step, tags_of_reply, tally_of};

use crate::verdict::Tally;
use heap_reply::Reply;
use log_text::Event;
use revoker_steps::{RevokerCommand, RevokerReply};

#[inline(always)]
fn blocks_in(answer: &Reply) -> u32
    ensures value { result ≡ blocks_of_reply answer.now }
    ensures few { result ≤ 1 }
{
    match *answer {
        Reply::Block { .. } | Reply::BlockAfter { .. } => 1,
        _ => 0,
    }
}

#[inline(always)]
fn passes_in(answer: &Reply) -> u32
    ensures value { result ≡ passes_of_reply answer.now }
    ensures few { result ≤ 1 }
{
    match *answer {
        Reply::BlockAfter { .. }
        | Reply::NoSpaceAfter { .. }
        | Reply::Swept { .. }
        | Reply::Begun { .. } => 1,
        _ => 0,
    }
}

// The tags that the answer's pass took.
#[inline(always)]
fn tags_in(answer: &Reply) -> u32
    ensures { result ≡ tags_of_reply answer.now }
{
    match *answer {
        Reply::BlockAfter { cleared, .. }
        | Reply::NoSpaceAfter { cleared }
        | Reply::Swept { cleared, .. }
        | Reply::Begun { cleared } => cleared,
        _ => 0,
    }
}

/// Counts an answer.
#[inline(always)]
pub fn count(tally: &mut Tally, answer: &Reply)
    requires room { HasRoom tally.old }
    ensures value { tally.new ≡ tally_with tally.old answer.now }
    ensures few { Grows tally.old tally.new }
{
    tally.tags += u64::from(tags_in(answer));
    tally.commands += 1;
    tally.blocks += blocks_in(answer);
    tally.passes += passes_in(answer);
}

// The tags that a revoker's step took.
fn tags_of_step(answer: RevokerReply) -> u32
    ensures { result ≡ cleared_by answer }
{
    match answer {
        RevokerReply::Cleared { cleared } => cleared,
        RevokerReply::Done | RevokerReply::Released { .. } | RevokerReply::Trap(_) => 0,
    }
}

// The pass that it begins: that of an epoch.
fn passes_of_step(command: RevokerCommand, answer: RevokerReply) -> u32
    ensures value { result ≡ passes_of_step command answer }
    ensures few { result ≤ 1 }
{
    match (command, answer) {
        (RevokerCommand::Paint, RevokerReply::Done) => 1,
        _ => 0,
    }
}

/// Counts an event: a granule that was read adds nothing.
pub fn count_event(tally: &mut Tally, event: &Event)
    requires room { HasRoom tally.old }
    ensures value { tally.new ≡ tally_with_event tally.old event.now }
    ensures few { Grows tally.old tally.new }
{
    match *event {
        Event::Done { ref answer, .. } => count(tally, answer),
        Event::Revoked { command, answer } => {
            tally.tags += u64::from(tags_of_step(answer));
            tally.commands += 1;
            tally.passes += passes_of_step(command, answer);
        }
        Event::Seen { .. } => {}
    }
}

/// What these events come to.
pub fn tally(events: &[(u32, Event)]) -> Tally
    requires { length events.now < 2 ^ 32 }
    ensures { result ≡ tally_of events.now }
{
    let mut tally = Tally {
        tags: 0,
        commands: 0,
        blocks: 0,
        passes: 0,
    };
    for (_, event) in events {
        count_event(&mut tally, event);
    }
    tally
}
