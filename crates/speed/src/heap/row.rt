//! A row of free granules that is cut into small gaps: its runs given and taken, and searched for.

ghost use Rattle.std.specs.Prelude.{◌<◌, ◌≤◌, ◌^◌};

use crate::draws::next;
use crate::fastest::{Fastest, ROUNDS};
use granule_rows::FreeRow;
use std::alloc::{AllocError, Global};
use std::io;
use std::time::CpuClock;

// Runs that are given and taken, or searched for, in a round.
const STEPS: u64 = 200_000;

/// A row of so many words.
pub(crate) fn report_row(rt: &HostRuntime, words: usize) -> io::Result<()>
    requires some { 0 < words }
    requires limit { words ≤ 2 ^ 24 }
{
    let Ok(mut row) = cut_row(rt.alloc(), words) else {
        return println!(rt; "want of memory");
    };
    let mut turns = Fastest::NONE;
    let mut firsts = Fastest::NONE;
    let mut nexts = Fastest::NONE;
    let mut first = 0u64;
    let mut later = 0u64;
    for _ in 0..ROUNDS {
        let start = rt.thread_cpu_time()?;
        turn_runs(&mut row);
        turns.take_round(rt, start)?;
        let start = rt.thread_cpu_time()?;
        first = first.wrapping_add(first_runs(&row));
        firsts.take_round(rt, start)?;
        let start = rt.thread_cpu_time()?;
        later = later.wrapping_add(next_runs(&row));
        nexts.take_round(rt, start)?;
    }
    println!(rt;
        "{} granules: first places {first}, next places {later}",
        row.granules()
    )?;
    eprintln!(rt;
        "{} granules: {} ns for give and take, {} for first_run, {} for next_run",
        row.granules(),
        turns.nanoseconds_a_step(STEPS),
        firsts.nanoseconds_a_step(STEPS),
        nexts.nanoseconds_a_step(STEPS)
    )
}

// Of each 8 granules the last 1 to 5 are free, and of the last of 32 parts all.
fn cut_row(alloc: Global, words: usize) -> Result<FreeRow, AllocError>
    requires some { 0 < words }
    requires limit { words ≤ 2 ^ 24 }
{
    let mut row = FreeRow::new(alloc, words)?;
    let granules = row.granules();
    row.vacate(0, granules);
    for k in 0..granules / 8 - granules / 256 {
        occupy_run(&mut row, k);
    }
    Ok(row)
}

// Takes the first 3 to 7 of some 8 granules.
fn occupy_run(row: &mut FreeRow, k: usize) {
    if k < row.granules() / 8 {
        row.occupy(8 * k, 3 + k % 5);
    }
}

// Gives the first 3 to 7 of some 8 granules back.
fn vacate_run(row: &mut FreeRow, k: usize) {
    if k < row.granules() / 8 {
        row.vacate(8 * k, 3 + k % 5);
    }
}

// Gives runs all over the row back, and takes each again.
fn turn_runs(row: &mut FreeRow) {
    let runs = (row.granules() / 8 - row.granules() / 256).max(1);
    let mut seed = 1u64;
    for _ in 0..STEPS {
        seed = next(seed);
        let k = (seed >> 33) as usize % runs;
        vacate_run(row, k);
        occupy_run(row, k);
    }
}

// Asks for the first place of 1 to 16 granules, and adds the places up.
fn first_runs(row: &FreeRow) -> u64 {
    let mut seed = 1u64;
    let mut sum = 0u64;
    for _ in 0..STEPS {
        seed = next(seed);
        if let Some(place) = row.first_run(1 + (seed >> 50) as usize % 16) {
            sum = sum.wrapping_add(place as u64);
        }
    }
    sum
}

// Asks for the next place of 1 to 16 granules from places all over the row, and adds these up.
fn next_runs(row: &FreeRow) -> u64 {
    let granules = row.granules().max(1);
    let mut seed = 1u64;
    let mut sum = 0u64;
    for _ in 0..STEPS {
        seed = next(seed);
        let from = (seed >> 33) as usize % granules;
        if let Some(place) = row.next_run(1 + (seed >> 50) as usize % 16, from) {
            sum = sum.wrapping_add(place as u64);
        }
    }
    sum
}
