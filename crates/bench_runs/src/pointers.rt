//! Traces of pointer arithmetic: derived capabilities of blocks of many exponents, loads and stores by them, and what they
//! are then. `heap_tool run --image` makes the report and the image.

use crate::devices::{Digest, run};
use crate::draws::Draws;
use crate::text::{BASE, Text};
use std::alloc::{AllocError, Global};
use std::thread::Threads;

const TURNS: u32 = 100_000;

// Blocks, in registers 1 to 8: block k has `512 << k` bytes, at a multiple of so many.
const BLOCKS: u64 = 8;

/// Makes such a trace, and runs it.
pub(crate) fn job<R: Threads + Sync>(
    rt: &R,
    alloc: Global,
    seed: u64,
    digest: &mut Digest,
) -> Result<(), AllocError> {
    let text = trace(alloc, seed)?;
    let words = ["heap_tool", "run", "--image"];
    run(rt, alloc, &words, text.as_bytes(), digest);
    Ok(())
}

fn trace(alloc: Global, seed: u64) -> Result<Text, AllocError> {
    let mut draws = Draws::new(seed);
    let mut text = Text::new(alloc, 64)?;
    for k in 0..BLOCKS {
        text.put("malloc c")?;
        text.number(k + 1)?;
        text.put(" ")?;
        text.number(512 << k)?;
        text.put("\n")?;
    }
    for _ in 0..TURNS {
        if !text.has_room() {
            return Ok(text);
        }
        turn(&mut text, &mut draws)?;
    }
    Ok(text)
}

fn turn(text: &mut Text, draws: &mut Draws) -> Result<(), AllocError> {
    let k = draws.below(BLOCKS);
    let bytes = 512 << k;
    // The blocks lie one after the other.
    let base = BASE + bytes - 512;
    text.put("setaddr c20 c")?;
    text.number(k + 1)?;
    text.put(" ")?;
    text.address(base + draws.below(bytes) / 16 * 16)?;
    text.put("\nnarrow c21 c20 ")?;
    text.number(16 << draws.below(6))?;
    text.put("\nsetaddr c22 c21 ")?;
    text.address(base + draws.below(4 * bytes))?;
    text.put("\nshow c21\n")?;
    match draws.below(4) {
        0 => text.put("storecap c20 c21\nshow c22\n"),
        1 => text.put("loadcap c23 c20\nshow c23\n"),
        2 => text.put("write c21 6f6c64206461746120206f6c64206461\nandperm c24 c22 0x2d\n"),
        _ => text.put("copy c25 c22\nshow c25\n"),
    }
}
