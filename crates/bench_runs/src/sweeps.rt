//! Traces of a heap full of pointers, that is swept again and again after few blocks were freed, in every second trace by
//! epochs. `heap_tool run` makes the report.

use crate::devices::{Digest, run};
use crate::draws::Draws;
use crate::slots::{Policy, Slots};
use crate::text::Text;
use std::alloc::{AllocError, Global};
use std::thread::Threads;

const SLOTS: usize = 24_576;

const ROUNDS: u32 = 2000;

/// Makes such a trace, and runs it.
pub(crate) fn job<R: Threads + Sync>(
    rt: &R,
    alloc: Global,
    seed: u64,
    digest: &mut Digest,
) -> Result<(), AllocError> {
    let text = trace(alloc, seed)?;
    run(rt, alloc, &["heap_tool", "run"], text.as_bytes(), digest);
    Ok(())
}

// A size of a small block.
fn small(draws: &mut Draws) -> u64 {
    16 + draws.below(100)
}

fn trace(alloc: Global, seed: u64) -> Result<Text, AllocError> {
    let mut draws = Draws::new(seed);
    let mut text = Text::new(alloc, 1024)?;
    let mut slots = Slots::new(alloc, &mut text, SLOTS, Policy::Asked)?;
    for slot in 0..slots.count() {
        let size = small(&mut draws);
        slots.fill(&mut text, slot, size)?;
        // The block points to itself.
        text.put("storecap c1 c1\n")?;
    }
    for _ in 0..ROUNDS {
        if !text.has_room() {
            return Ok(text);
        }
        round(&mut text, &mut draws, &mut slots, seed.is_multiple_of(2))?;
    }
    Ok(text)
}

// Frees up to 16 blocks, makes a pass, and asks for as many.
fn round(
    text: &mut Text,
    draws: &mut Draws,
    slots: &mut Slots,
    sweeps: bool,
) -> Result<(), AllocError> {
    let first = slots.any(draws);
    let count = 1 + draws.below(16) as usize;
    for k in 0..count {
        let slot = first.wrapping_add(k.wrapping_mul(37)) % SLOTS;
        slots.empty(text, slot)?;
    }
    text.put(if sweeps { "sweep\n" } else { "begin\nend\n" })?;
    for k in 0..count {
        let slot = first.wrapping_add(k.wrapping_mul(37)) % SLOTS;
        let size = small(draws);
        slots.fill(text, slot, size)?;
    }
    Ok(())
}
