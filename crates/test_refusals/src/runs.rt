//! Whole runs of which allocations are refused.

use crate::rows::{ROWS, Row};
use heap_trace::{Outcome, RunFault, image_text, run};
use std::alloc::Global;
use std::process::Abort;
use std::thread::Threads;
use sweep_pool::Cutting;
use tag_memory::{Memory, REGISTERS, Registers};

// The registers and granules are the row's, word for word.
fn words_are(rt: &impl Abort, row: &Row, registers: &Registers, memory: &Memory) {
    for r in 0..REGISTERS {
        let (word, tag) = registers.get(r);
        assert_eq!(rt;
            (word.bits, tag),
            row.register(r),
            "{:?}: register {r}",
            row.text
        );
    }
    for i in 0..memory.granules() {
        assert_eq!(rt;
            memory.cell(i),
            row.granule(i),
            "{:?}: granule {i}",
            row.text
        );
    }
}

// The outcome is the row's.
fn outcome_is(rt: &impl Abort, alloc: Global, row: &Row, outcome: &Outcome) {
    assert_eq!(rt; outcome.report.as_slice(), row.report.as_bytes());
    words_are(rt, row, &outcome.registers, &outcome.memory);
    if let Ok(image) = image_text(alloc, &outcome.memory) {
        assert_eq!(rt; image.as_slice(), row.image.as_bytes());
    }
}

// Each run with these workers, and 1 page a task, gives the row's outcome, or wants memory.
fn runs_are_right<R: Abort + Threads + Sync>(rt: &R, alloc: Global, workers: u32) {
    let cutting = Cutting::new(workers, 1).expect(rt, "it is a cutting");
    for row in ROWS {
        match run(rt, alloc, row.text.as_bytes(), cutting) {
            Ok(outcome) => outcome_is(rt, alloc, &row, &outcome),
            Err(fault) => assert_eq!(rt; fault, RunFault::Memory, "{:?}", row.text),
        }
    }
}

#[test]
fn a_refused_allocation_of_runs_is_told(rt: HostRuntime) {
    for workers in [1, 2, 64] {
        runs_are_right(&rt, rt.alloc(), workers);
    }
}

#[test]
fn refused_allocations_of_runs_are_told(rt: HostRuntime) {
    for workers in [1, 2, 64] {
        runs_are_right(&rt, rt.alloc(), workers);
    }
}
