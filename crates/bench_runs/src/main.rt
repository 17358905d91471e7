//! Jobs that users wait for, for a stopwatch: traces of several kinds, made from a seed, go through the programs' own
//! `heap_tool run` and `heap_states` over devices in memory, and commands go one by one to `Machine::step`. A digest of all
//! that they answer goes to standard output. The words are a kind, a seed, and how many traces; `every` is each kind.
#![tactic(auto)]

mod devices;
mod draws;
mod explore;
mod pointers;
mod programs;
mod ragged;
mod slots;
mod states;
mod sweeps;
mod text;

use crate::devices::Digest;
use command_line::arguments;
use std::alloc::{AllocError, Global};
use std::io;
use std::thread::Threads;

// The kinds of jobs.
const KINDS: [&str; 6] = [
    "programs", "pointers", "sweeps", "states", "ragged", "explore",
];

fn main(rt: HostRuntime) -> io::Result<()> {
    let Ok(words) = arguments(&rt) else {
        return println!(rt; "no words");
    };
    let kind = words.get(1).map_or("", |word| word.as_str());
    let seed = number(words.get(2).map_or("", |word| word.as_str()));
    let count = number(words.get(3).map_or("", |word| word.as_str()));
    for each in KINDS {
        if kind == each || kind == "every" {
            let mut digest = Digest::new();
            match job(&rt, rt.alloc(), each, seed, count, &mut digest) {
                Ok(()) => println!(rt; "{each} {:016x} of {}", digest.sum(), digest.bytes())?,
                Err(AllocError) => println!(rt; "{each} want of memory")?,
            }
        }
    }
    Ok(())
}

fn number(word: &str) -> u64 {
    word.parse::<u64>().unwrap_or(1)
}

// Does the jobs of one kind, and digests what they answer.
fn job<R: Threads + Sync>(
    rt: &R,
    alloc: Global,
    kind: &str,
    seed: u64,
    count: u64,
    digest: &mut Digest,
) -> Result<(), AllocError> {
    for turn in 0..count {
        let seed = seed.wrapping_mul(1_000_003).wrapping_add(turn);
        match kind {
            "programs" => programs::job(rt, alloc, seed, digest)?,
            "pointers" => pointers::job(rt, alloc, seed, digest)?,
            "sweeps" => sweeps::job(rt, alloc, seed, digest)?,
            "states" => states::job(rt, alloc, seed, digest)?,
            "ragged" => ragged::job(rt, alloc, seed, digest)?,
            _ => explore::job(rt, alloc, seed, digest)?,
        }
    }
    Ok(())
}
