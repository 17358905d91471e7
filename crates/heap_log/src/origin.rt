//! Where a block came from that is in the way of another.

ghost use Rattle.std.specs.Prelude.{◌≡◌, IfErr, IfOk, Some, if◌then◌else◌};
ghost use Rattle.std.specs.List.{All};
ghost use Rattle.log_text.specs.Log.{IsListedEvent, IsValidEvent, first_line};
ghost use Rattle.machine_steps.specs.State.{State};
ghost use Rattle.heap_log.specs.Judged.{AllFollow};
ghost use Rattle.heap_log.specs.Origin.{IsLastFree, are_bounds, frees, gives, hands_out, last_line};

use crate::judging::follow_event;
use crate::laws::safe_log_law;
use cap_codec::{Word, bounds};
use heap_core::Block;
use heap_machine::{Machine, MachineFault, Stepper};
use heap_reply::Reply;
use host_memory::Global;
use log_text::{Event, Given};
use trace_text::Command;

// Whether these are the bounds of a block.
fn are_bounds(block: Block, base: u64, top: u128) -> bool
    ensures { result ≡ are_bounds block base top }
{
    base == block.base && top == block.top
}

// The line where it passes, and else the one before.
fn noted(passes: bool, line: u32, before: Option<u32>) -> Option<u32>
    ensures { result ≡ (if passes then Some line else before) }
{
    if passes { Some(line) } else { before }
}

fn hands_out(block: Block, event: Event) -> bool
    ensures { result ≡ hands_out block event }
{
    match event {
        Event::Done { answer, .. } => match answer {
            Reply::Block { base, top } | Reply::BlockAfter { base, top, .. } => {
                are_bounds(block, base, top)
            }
            _ => false,
        },
        Event::Revoked { .. } | Event::Seen { .. } => false,
    }
}

/// The line of the last event that hands out the block.
pub fn handed_out_line(events: &[(u32, Event)], block: Block) -> Option<u32>
    ensures { result ≡ last_line (hands_out block) events.now }
{
    let mut found = None;
    for (line, event) in events {
        found = noted(hands_out(block, *event), *line, found);
    }
    found
}

fn gives(block: Block, given: Given) -> bool
    ensures { result ≡ gives block given }
{
    match given {
        Given::Live { base, top } | Given::Waiting { base, top } | Given::Painted { base, top } =>
            are_bounds(block, base, top),
        _ => false,
    }
}

/// The first line that gives the block.
pub fn given_line(givens: &[(u32, Given)], block: Block) -> Option<u32>
    ensures { result ≡ first_line (gives block) givens.now }
{
    for (line, given) in givens {
        if gives(block, *given) {
            return Some(*line);
        }
    }
    None
}

// Whether an event that follows now frees the block.
fn frees(block: Block, machine: &Machine, event: Event) -> bool
    requires { IsValidEvent event }
    ensures { result ≡ frees block machine.now.state event }
{
    match event {
        Event::Done {
            command: Command::Free { rs },
            answer: Reply::Held { .. },
        } => {
            let (word, _) = machine.registers().get(rs);
            let freed = bounds(word);
            are_bounds(block, freed.base, freed.top)
        }
        _ => false,
    }
}

/// The line of the last event that frees the block, on a machine that is as it was before the first of them. All of them
/// have to follow, and the machine does them.
pub fn freed_line<S: Stepper>(
    stepper: &S,
    alloc: Global,
    machine: &mut Machine,
    events: &[(u32, Event)],
    block: Block,
) -> Result<Option<u32>, MachineFault>
    requires ready { S.ready }
    requires valid { All IsListedEvent events.now }
    requires follow { (last : State) × AllFollow machine.old.state events.now last }
    ensures last { IfOk result (λ found. IsLastFree machine.old.state block events.now found machine.new.state) }
    ensures memory { IfErr result (λ fault. fault ≡ MachineFault.Memory) }
{
    safe_log_law();
    let mut found = None;
    for (line, event) in events {
        found = noted(frees(block, machine, *event), *line, found);
        follow_event(stepper, alloc, machine, *event)?;
    }
    Ok(found)
}
