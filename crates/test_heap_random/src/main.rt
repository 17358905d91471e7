//! Work that tries the heap: 300,000 commands on a heap that gets and stays fragmented, each compared with
//! what a plain sorted list of blocks answers. What was done, and how often the two differed, goes to
//! standard output.
#![tactic(auto)]

mod draws;
mod pair;
mod plain;

use crate::draws::Draws;
use crate::pair::{Counts, Pair};
use heap_core::HeapFault;
use std::alloc::Global;
use std::io;

const COMMANDS: u32 = 300_000;

// Commands from one look at all bytes and granules to the next.
const LOOK: u32 = 1000;

fn main(rt: HostRuntime) -> io::Result<()> {
    let Ok(counts) = stress(rt.alloc()) else {
        return println!(rt; "want of memory");
    };
    println!(rt;
        "reserve: {} blocks, {} of them aligned to more than 16 bytes, {} refused",
        counts.reserved, counts.aligned, counts.refused
    )?;
    println!(rt;
        "release: {} blocks, {} held already, {} not of a block",
        counts.released, counts.held_already, counts.not_block
    )?;
    println!(rt;
        "give back: {} times, {} bytes",
        counts.given_back, counts.given_bytes
    )?;
    println!(rt;
        "at most {} blocks, and at the looks at most {} gaps",
        counts.most_blocks, counts.most_gaps
    )?;
    println!(rt;
        "{COMMANDS} commands, {} looks, {} differences",
        counts.looks, counts.differences
    )
}

fn stress(alloc: Global) -> Result<Counts, HeapFault> {
    let mut pair = Pair::new(alloc)?;
    let mut draws = Draws { seed: 1 };
    for turn in 0..COMMANDS {
        let command = draws.command(turn, &pair.plain);
        pair.obey(command)?;
        if turn % LOOK == LOOK - 1 {
            pair.look(alloc)?;
        }
    }
    Ok(pair.counts)
}
