//! Steps on states as bytes.

use crate::steps::prepared;
use crate::steps::work::ROUNDS;
use byte_machine::step;
use state_bytes::{decode, encode};
use std::alloc::Global;
use std::io;
use std::time::{CpuClock, Duration};
use sweep_pool::Cutting;
use trace_text::Command;

/// Times a step on a state's bytes, and the reading and the writing of these, on a heap of so many pages, each so often in
/// a round.
pub(crate) fn time_bytes(rt: &HostRuntime, pages: u32, times: u32) -> io::Result<()> {
    let Some(bytes) = state(rt.alloc(), pages) else {
        return println!(rt; "no state");
    };
    let Some(mut out) = state(rt.alloc(), pages) else {
        return println!(rt; "no room");
    };
    let mut least = [Duration::MAX; 2];
    let mut done = 0u64;
    for _ in 0..ROUNDS {
        let start = rt.thread_cpu_time()?;
        done = done.wrapping_add(steps(rt.alloc(), &bytes, &mut out, times));
        let middle = rt.thread_cpu_time()?;
        done = done.wrapping_add(readings(rt.alloc(), &bytes, times));
        let end = rt.thread_cpu_time()?;
        least[0] = least[0].min(middle.saturating_sub(start));
        least[1] = least[1].min(end.saturating_sub(middle));
    }
    println!(rt; "bytes, pages {pages}: {done} times")?;
    let stepped = least[0].as_nanos() / u128::from(times.max(1));
    let read = least[1].as_nanos() / u128::from(times.max(1));
    eprintln!(rt; "a step on bytes, pages {pages}: {stepped} ns")?;
    eprintln!(rt; "read and written, pages {pages}: {read} ns")
}

// The bytes of a machine with two blocks.
fn state(alloc: Global, pages: u32) -> Option<Vec<u8>> {
    let machine = prepared(alloc, pages)?;
    encode(alloc, &machine).ok()
}

// Steps from this state, and how many were done.
fn steps(alloc: Global, bytes: &[u8], out: &mut [u8], times: u32) -> u64 {
    let mut done = 0u64;
    for _ in 0..times {
        if step(alloc, bytes, Command::Copy { rd: 3, rs: 1 }, out).is_ok() {
            done = done.wrapping_add(1);
        }
    }
    done
}

// The state read and written again, and how often that was done.
fn readings(alloc: Global, bytes: &[u8], times: u32) -> u64 {
    let mut done = 0u64;
    for _ in 0..times {
        if is_read_and_written(alloc, bytes) {
            done = done.wrapping_add(1);
        }
    }
    done
}

fn is_read_and_written(alloc: Global, bytes: &[u8]) -> bool {
    let Ok(cutting) = Cutting::new(1, 16) else {
        return false;
    };
    let Ok(machine) = decode(alloc, cutting, bytes) else {
        return false;
    };
    encode(alloc, &machine).is_ok()
}
