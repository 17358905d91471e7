//! Steps of a machine without texts, by the calling thread alone, on one page and on 1,024, each command again and again;
//! then steps on states as bytes, and what reading and writing such a state takes of them.

mod bytes;
mod work;

use crate::steps::bytes::time_bytes;
use crate::steps::work::{BASE, ROUNDS, Work, works};
use heap_machine::Machine;
use heap_reply::{Reply, Shown};
use std::alloc::Global;
use std::io;
use std::time::{CpuClock, Duration};
use sweep_pool::{Cutting, Open};
use trace_text::Command;

// How many commands were done, and a sum of what all were answered: an answer that nobody asks for needn't be made.
#[derive(Clone, Copy)]
struct Done {
    steps: u64,
    sum: u64,
}

pub(crate) fn time_all(rt: &HostRuntime) -> io::Result<()> {
    for pages in [1, 1024] {
        for work in &works() {
            time_steps(rt, pages, work)?;
        }
    }
    time_bytes(rt, 1, 100)?;
    time_bytes(rt, 1024, 3)
}

// Times this work on a heap of so many pages.
fn time_steps(rt: &HostRuntime, pages: u32, work: &Work) -> io::Result<()> {
    let Some(mut machine) = prepared(rt.alloc(), pages) else {
        return println!(rt; "no machine");
    };
    let mut least = Duration::MAX;
    let mut done = Done { steps: 0, sum: 0 };
    for _ in 0..ROUNDS {
        let start = rt.thread_cpu_time()?;
        done = repeat(&mut machine, rt.alloc(), work, done);
        least = least.min(rt.thread_cpu_time()?.saturating_sub(start));
        step(&mut machine, rt.alloc(), Command::Sweep);
    }
    let name = work.name;
    let Done { steps, sum } = done;
    println!(rt; "{name}, pages {pages}: {steps} times, answered {sum:#x}")?;
    let nanoseconds = least.as_nanos() / u128::from(work.times.max(1));
    eprintln!(rt; "{name}, pages {pages}: {nanoseconds} ns")
}

/// A machine with a block in register 1 and another one in register 2, and a capability in the first.
pub(crate) fn prepared(alloc: Global, pages: u32) -> Option<Machine> {
    let cutting = Cutting::new(1, 16).ok()?;
    let mut machine = Machine::new(alloc, BASE, pages, cutting).ok()?;
    step(&mut machine, alloc, Command::Malloc { rd: 1, size: 16 });
    step(&mut machine, alloc, Command::Malloc { rd: 2, size: 32 });
    step(&mut machine, alloc, Command::StoreCap { ra: 1, rs: 2 });
    Some(machine)
}

// Does the work once more.
fn repeat(machine: &mut Machine, alloc: Global, work: &Work, before: Done) -> Done {
    let mut done = before;
    for _ in 0..work.times {
        done = in_turn(machine, alloc, work, done);
    }
    done
}

// Does its commands in turn.
fn in_turn(machine: &mut Machine, alloc: Global, work: &Work, before: Done) -> Done {
    let mut done = before;
    for command in work.commands.iter().take(work.count) {
        if let Some(number) = step(machine, alloc, *command) {
            done.steps = done.steps.wrapping_add(1);
            done.sum = done.sum.wrapping_mul(3).wrapping_add(number);
        }
    }
    done
}

// Does a command, and tells its answer as a number.
#[inline]
fn step(machine: &mut Machine, alloc: Global, command: Command) -> Option<u64> {
    if !command.is_valid() {
        return None;
    }
    match machine.step_alone(alloc, command, &Open) {
        Ok(ref reply) => Some(number_of(reply)),
        Err(_) => None,
    }
}

// A number that depends on all that these answers tell.
#[inline]
fn number_of(reply: &Reply) -> u64 {
    match *reply {
        Reply::Block { base, top } => base ^ (top % (1 << 64)) as u64,
        Reply::Held(bytes) => bytes,
        Reply::Swept { cleared, released } => u64::from(cleared) ^ released,
        Reply::Shown(
            Shown {
                tag,
                address,
                base,
                top,
                perms,
                otype,
                exponent,
            },
        ) => {
            let kind = u64::from(perms) ^ u64::from(otype) ^ u64::from(exponent) ^ u64::from(tag);
            address ^ base.wrapping_mul(3) ^ (top % (1 << 64)) as u64 ^ kind
        }
        _ => 1,
    }
}
