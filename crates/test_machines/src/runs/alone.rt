//! Runs by the calling thread alone, which are given no runtime.

use crate::runs::sweeps::SWEEPS;
use crate::runs::{REPORTS, THROUGH_MEMORY, THROUGH_MEMORY_REPORT};
use heap_trace::{Outcome, RunFault, TraceFault, image_text, run, run_alone};
use std::alloc::Global;
use std::process::Abort;
use std::thread::Threads;
use sweep_pool::Cutting;
use tag_memory::Registers;

// Traces of epochs with the reports of their runs: one with a store in it, and one without.
const EPOCHS: [(&str, &str); 2] = [
    (
        "heap 0x40000000 2
malloc c1 32
malloc c2 4096
malloc c3 32
storecap c2 c1
free c1
begin
storecap c3 c1
free c2
sweep
end
end
malloc c4 32
sweep
",
        "2 malloc block 0x40000000 0x40000020
3 malloc block 0x40000020 0x40001020
4 malloc block 0x40001020 0x40001040
5 storecap ok
6 free held 32
7 begin cleared 1
8 storecap ok
9 free held 4096
10 sweep trap open
11 end cleared 2 released 32
12 end trap notopen
13 malloc block 0x40000000 0x40000020
14 sweep cleared 1 released 4096
end live 64 held 0 free 8128 tags 2
",
    ),
    (
        "heap 0x40000000 1
begin
end
malloc c1 48
copy c2 c1
free c1
begin
begin
end
",
        "2 begin cleared 0
3 end cleared 0 released 0
4 malloc block 0x40000000 0x40000030
5 copy ok
6 free held 48
7 begin cleared 0
8 begin trap open
9 end cleared 2 released 48
end live 0 held 0 free 4096 tags 0
",
    ),
];

// What a run alone answers, with the cutting for so many workers.
fn answer_alone(alloc: Global, text: &str, workers: u32) -> Result<Outcome, RunFault> {
    let cutting = Cutting::new(workers, 1).map_err(|_| RunFault::Memory)?;
    run_alone(alloc, text.as_bytes(), cutting)
}

fn are_reported(rt: &impl Abort, alloc: Global, rows: &[(&str, &str)]) {
    for (text, report) in rows {
        let outcome = answer_alone(alloc, text, 3).expect(rt, "it is a trace");
        assert_eq!(rt; outcome.report.as_slice(), report.as_bytes(), "{text:?}");
    }
}

#[test]
fn traces_are_run_without_a_runtime(rt: HostRuntime) {
    are_reported(&rt, rt.alloc(), &REPORTS);
    are_reported(&rt, rt.alloc(), &SWEEPS);
    are_reported(&rt, rt.alloc(), &EPOCHS);
    are_reported(&rt, rt.alloc(), &[(THROUGH_MEMORY, THROUGH_MEMORY_REPORT)]);
}

fn have_equal_registers(rt: &impl Abort, one: &Registers, other: &Registers) {
    for register in 0..32 {
        assert_eq!(rt; one.get(register), other.get(register), "{register}");
    }
}

// A run with so many workers leaves what a run alone leaves.
fn is_run_alike<R: Abort + Threads + Sync>(rt: &R, alloc: Global, text: &str, workers: u32) {
    let cutting = Cutting::new(workers, 1).expect(rt, "it is a cutting");
    let one = run(rt, alloc, text.as_bytes(), cutting).expect(rt, "it is a trace");
    let other = answer_alone(alloc, text, workers).expect(rt, "it is a trace");
    assert_eq!(rt; one.report.as_slice(), other.report.as_slice(), "{text:?}");
    let image = image_text(alloc, &one.memory).expect(rt, "there is memory");
    let other_image = image_text(alloc, &other.memory).expect(rt, "there is memory");
    assert_eq!(rt; image.as_slice(), other_image.as_slice(), "{text:?}");
    have_equal_registers(rt, &one.registers, &other.registers);
}

#[test]
fn a_run_alone_leaves_what_workers_leave(rt: HostRuntime) {
    for workers in [1, 3] {
        for (text, _) in SWEEPS {
            is_run_alike(&rt, rt.alloc(), text, workers);
        }
        for (text, _) in EPOCHS {
            is_run_alike(&rt, rt.alloc(), text, workers);
        }
        is_run_alike(&rt, rt.alloc(), THROUGH_MEMORY, workers);
    }
}

#[test]
fn faulty_traces_are_not_run_without_a_runtime(rt: HostRuntime) {
    let cases = [
        ("", TraceFault::NoHeap(1)),
        ("heap 0x40000008 1\n", TraceFault::BadHeap(1)),
        ("heap 0x40000000 1\nmalloc c1\n", TraceFault::BadCount(2)),
    ];
    for (text, fault) in cases {
        let refusal = answer_alone(rt.alloc(), text, 1).err();
        assert_eq!(rt; refusal, Some(RunFault::Trace(fault)), "{text:?}");
    }
}

// Run with each allocation refused in turn, too.
#[test]
fn a_refused_allocation_of_a_run_alone_is_told(rt: HostRuntime) {
    let (text, report) = EPOCHS[0];
    match answer_alone(rt.alloc(), text, 3) {
        Ok(outcome) => assert_eq!(rt; outcome.report.as_slice(), report.as_bytes()),
        Err(fault) => assert_eq!(rt; fault, RunFault::Memory),
    }
}
