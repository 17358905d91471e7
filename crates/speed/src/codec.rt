//! The bounds of a million words of mixed exponents, decoded by `bounds` and by `plain::bounds` in turn.

use crate::draws::next;
use crate::fastest::Fastest;
use cap_codec::{Bounds, Word, bounds, plain};
use std::alloc::{AllocError, Global};
use std::io;
use std::time::CpuClock;

const WORDS: u32 = 1_000_000;

const ROUNDS: u32 = 10;

// The sum over the rounds so far, and the processor's time for the fastest of them.
#[derive(Clone, Copy)]
struct Tally {
    sum: u64,
    fastest: Fastest,
}

pub(crate) fn time_bounds(rt: &HostRuntime) -> io::Result<()> {
    let words = mixed_words(rt.alloc())?;
    let mut corrected = Tally {
        sum: 0,
        fastest: Fastest::NONE,
    };
    let mut plain = corrected;
    for _ in 0..ROUNDS {
        corrected = after_round(rt, corrected, &words, |w| bounds(w))?;
        plain = after_round(rt, plain, &words, |w| plain::bounds(w))?;
    }
    report(rt, "corrected", corrected)?;
    report(rt, "plain", plain)
}

fn report(rt: &HostRuntime, name: &str, tally: Tally) -> io::Result<()> {
    println!(rt;
        "{name}: {ROUNDS} rounds of {WORDS} words, sum {}",
        tally.sum
    )?;
    eprintln!(rt; "{name}: {} microseconds", tally.fastest.microseconds())
}

// The tally after one more round, in which each word is decoded once.
fn after_round<F: Fn(Word) -> Bounds>(
    rt: &HostRuntime,
    tally: Tally,
    words: &[Word],
    decode: F,
) -> io::Result<Tally>
    requires { F.IsAlwaysCallable decode }
{
    let start = rt.thread_cpu_time()?;
    let sum = sum_of_bounds(tally.sum, words, decode);
    let mut fastest = tally.fastest;
    fastest.take_round(rt, start)?;
    Ok(Tally { sum, fastest })
}

fn sum_of_bounds<F: Fn(Word) -> Bounds>(start: u64, words: &[Word], decode: F) -> u64
    requires { F.IsAlwaysCallable decode }
{
    let mut sum = start;
    for w in words {
        let within = decode(*w);
        sum = sum
            .wrapping_add(within.base)
            .wrapping_add(folded(within.top));
    }
    sum
}

// Both halves of a top.
fn folded(top: u128) -> u64 {
    ((top >> 64) as u64).wrapping_add((top % (1 << 64)) as u64)
}

fn mixed_words(alloc: Global) -> Result<Vec<Word>, AllocError> {
    let mut words = Vec::with_capacity(alloc, WORDS as usize)?;
    let mut seed = 1;
    for _ in 0..WORDS {
        let metadata = next(seed);
        let address = next(metadata);
        seed = address;
        words.push(Word {
            bits: (u128::from(mixed(metadata)) << 64) + u128::from(mixed(address)),
        })?;
    }
    Ok(words)
}

// A number of that row with its upper half over its lower, which repeats too soon.
fn mixed(number: u64) -> u64 {
    number ^ number >> 32
}
