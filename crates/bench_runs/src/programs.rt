//! Traces as real programs leave them: 4,096 pointers in a table, most of the calls for those used last, and a sweep or an
//! epoch where a quarter of what is live waits. `heap_tool run` makes the report.

use crate::devices::{Digest, run};
use crate::draws::Draws;
use crate::slots::{Policy, Slots};
use crate::text::Text;
use std::alloc::{AllocError, Global};
use std::thread::Threads;

const SLOTS: usize = 4096;

const TURNS: u32 = 200_000;

/// Makes such a trace, and runs it.
pub(crate) fn job<R: Threads + Sync>(
    rt: &R,
    alloc: Global,
    seed: u64,
    digest: &mut Digest,
) -> Result<(), AllocError> {
    let policy = if seed.is_multiple_of(2) {
        Policy::Sweeps
    } else {
        Policy::Epochs
    };
    let text = trace(alloc, seed, policy)?;
    run(rt, alloc, &["heap_tool", "run"], text.as_bytes(), digest);
    Ok(())
}

fn trace(alloc: Global, seed: u64, policy: Policy) -> Result<Text, AllocError> {
    let mut draws = Draws::new(seed);
    let mut text = Text::new(alloc, 1024)?;
    let mut slots = Slots::new(alloc, &mut text, SLOTS, policy)?;
    let mut lately = 0;
    for _ in 0..TURNS {
        if !text.has_room() {
            return Ok(text);
        }
        let slot = if draws.below(8) == 0 {
            lately = slots.any(&mut draws);
            lately
        } else {
            lately.wrapping_add(draws.below(64) as usize) % SLOTS
        };
        slots.turn(&mut text, &mut draws, slot)?;
        if draws.below(16) == 0 {
            text.put("write c1 6f6c64206461746120206f6c64206461\n")?;
        }
    }
    Ok(text)
}
