//! Awkward traces, three each time: many blocks freed in no order, told by `heap_states`; long blocks asked of a heap whose
//! free runs are all just too short for their alignment; and a long text whose last line is faulty.

use crate::devices::{Digest, give, run};
use crate::draws::Draws;
use crate::slots::{Policy, Slots};
use crate::text::Text;
use std::alloc::{AllocError, Global};
use std::thread::Threads;

// A power of 2, so that odd steps go through all slots.
const SLOTS: usize = 16_384;

// A long block: 1,252 granules, at a multiple of two granules.
const LONG: u64 = 20_032;

// Runs of so many granules, and blocks of two between them, fill the heap.
const RUNS: u32 = 209;

/// Makes such traces, and gives them to the programs.
pub(crate) fn job<R: Threads + Sync>(
    rt: &R,
    alloc: Global,
    seed: u64,
    digest: &mut Digest,
) -> Result<(), AllocError> {
    let mut draws = Draws::new(seed);
    let freed = freed_in_no_order(alloc, &mut draws)?;
    give(rt, alloc, freed.as_bytes(), digest);
    let ragged = ragged_heap(alloc, &mut draws)?;
    run(rt, alloc, &["heap_tool", "run"], ragged.as_bytes(), digest);
    let faulty = faulty_text(alloc, &mut draws)?;
    run(rt, alloc, &["heap_tool", "run"], faulty.as_bytes(), digest);
    Ok(())
}

// Fills all slots, and frees them in an order that jumps about.
fn freed_in_no_order(alloc: Global, draws: &mut Draws) -> Result<Text, AllocError> {
    let mut text = Text::new(alloc, 1024)?;
    let mut slots = Slots::new(alloc, &mut text, SLOTS, Policy::Asked)?;
    for slot in 0..slots.count() {
        let size = 16 + draws.below(160);
        slots.fill(&mut text, slot, size)?;
    }
    let step = 2 * draws.below(8192) as usize + 1;
    for k in 0..slots.count() {
        slots.empty(&mut text, k.wrapping_mul(step) % SLOTS)?;
    }
    text.put("sweep\n")?;
    Ok(text)
}

// Small blocks, then runs of free granules that start at odd ones, and a long block asked for again and again while an epoch
// is open, so that no sweep comes.
fn ragged_heap(alloc: Global, draws: &mut Draws) -> Result<Text, AllocError> {
    let mut text = Text::new(alloc, 1024)?;
    text.put("malloc c3 16\n")?;
    for _ in 0..RUNS {
        // 1,252 granules in six blocks, and two that stay.
        for register in 10..15 {
            put_malloc(&mut text, register, 4000)?;
        }
        put_malloc(&mut text, 15, 32)?;
        text.put("malloc c3 32\nfree c10\nfree c11\nfree c12\nfree c13\nfree c14\nfree c15\n")?;
    }
    text.put("sweep\nbegin\n")?;
    for _ in 0..16_000 {
        put_malloc(&mut text, 1, LONG - draws.below(16))?;
        if draws.below(4) == 0 {
            put_malloc(&mut text, 2, 3 * LONG + 64 * draws.below(64))?;
        }
    }
    Ok(text)
}

fn put_malloc(text: &mut Text, register: u64, size: u64) -> Result<(), AllocError> {
    text.put("malloc c")?;
    text.number(register)?;
    text.put(" ")?;
    text.number(size)?;
    text.put("\n")
}

// A text of comments, blanks and commands, with a fault at its end.
fn faulty_text(alloc: Global, draws: &mut Draws) -> Result<Text, AllocError> {
    let mut text = Text::new(alloc, 1)?;
    for _ in 0..200_000 {
        if !text.has_room() {
            return with_fault(text);
        }
        match draws.below(4) {
            0 => text.put("# what is written here is passed over\n\t  \r\n")?,
            1 => text.put("  write \t c12   000102030405060708090a0b0c0d0e0f \r\n")?,
            2 => text.put("\n\nandperm c1 c2 0xffff\n")?,
            _ => {
                text.put("setaddr c31 c30 18446744073709")?;
                text.number(100_000 + draws.below(100_000))?;
                text.put("\n")?;
            }
        }
    }
    with_fault(text)
}

fn with_fault(text: Text) -> Result<Text, AllocError> {
    let mut text = text;
    text.put("malloc c32 16\n")?;
    Ok(text)
}
