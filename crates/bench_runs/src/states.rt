//! Traces of some thousand commands on 64 pages, as a page in a browser shows them. `heap_states` tells their states.

use crate::devices::{Digest, give};
use crate::draws::Draws;
use crate::slots::{Policy, Slots};
use crate::text::Text;
use std::alloc::{AllocError, Global};
use std::thread::Threads;

const SLOTS: usize = 512;

const TURNS: u32 = 6000;

/// Makes such a trace, and tells its states.
pub(crate) fn job<R: Threads + Sync>(
    rt: &R,
    alloc: Global,
    seed: u64,
    digest: &mut Digest,
) -> Result<(), AllocError> {
    let text = trace(alloc, seed)?;
    give(rt, alloc, text.as_bytes(), digest);
    Ok(())
}

fn trace(alloc: Global, seed: u64) -> Result<Text, AllocError> {
    let mut draws = Draws::new(seed);
    let mut text = Text::new(alloc, 64)?;
    let policy = if seed.is_multiple_of(2) {
        Policy::Sweeps
    } else {
        Policy::Epochs
    };
    let mut slots = Slots::new(alloc, &mut text, SLOTS, policy)?;
    for _ in 0..TURNS {
        let slot = slots.any(&mut draws);
        if slots.is_full(slot) {
            slots.empty(&mut text, slot)?;
        } else {
            let size = 16 + draws.below(400);
            slots.fill(&mut text, slot, size)?;
        }
        match draws.below(8) {
            0 => text.put("storecap c1 c1\n")?,
            1 => text.put("narrow c3 c1 16\nshow c3\n")?,
            _ => {}
        }
    }
    Ok(text)
}
