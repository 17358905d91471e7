//! Each beginning of a trace, which has a fault or is run.

use crate::rows::KEPT;
use heap_trace::{Outcome, RunFault, TraceFault, run};
use std::alloc::Global;
use std::thread::Threads;
use sweep_pool::Cutting;

// The faults of the beginnings of so many bytes: from the first number up to the second.
const FAULTS: [(usize, usize, TraceFault); 20] = [
    (0, 3, TraceFault::NoHeap(1)),
    (4, 16, TraceFault::BadHeap(1)),
    (19, 23, TraceFault::BadCommand(2)),
    (24, 28, TraceFault::BadCount(2)),
    (32, 36, TraceFault::BadCommand(3)),
    (37, 41, TraceFault::BadCount(3)),
    (45, 51, TraceFault::BadCommand(4)),
    (52, 56, TraceFault::BadCount(4)),
    (57, 57, TraceFault::BadRegister(4)),
    (60, 62, TraceFault::BadCommand(5)),
    (63, 64, TraceFault::BadCount(5)),
    (65, 65, TraceFault::BadRegister(5)),
    (68, 71, TraceFault::BadCommand(6)),
    (74, 78, TraceFault::BadCommand(7)),
    (79, 83, TraceFault::BadCount(7)),
    (87, 92, TraceFault::BadCommand(8)),
    (93, 97, TraceFault::BadCount(8)),
    (98, 98, TraceFault::BadRegister(8)),
    (101, 103, TraceFault::BadCommand(9)),
    (104, 105, TraceFault::BadCount(9)),
];

// The lines of the report of the whole.
const LINES: [&str; 8] = [
    "2 malloc block 0x40000000 0x40000020\n",
    "3 malloc block 0x40000020 0x40000040\n",
    "4 storecap ok\n",
    "5 free held 32\n",
    "6 sweep cleared 1 released 32\n",
    "7 malloc block 0x40000000 0x40000020\n",
    "8 loadcap ok\n",
    "9 show tag 1 address 0x40000020 base 0x40000020 top 0x40000040 perms 0x3d type 0x3ffff exponent 0\n",
];

// The other beginnings: how many of those lines their report has, and what comes after them. A `malloc` that
// ends after the first digit asks for 3 bytes.
const RUNS: [(usize, usize, usize, &str); 12] = [
    (17, 18, 0, "end live 0 held 0 free 4096 tags 0\n"),
    (
        29,
        29,
        0,
        "2 malloc block 0x40000000 0x40000010\nend live 16 held 0 free 4080 tags 1\n",
    ),
    (30, 31, 1, "end live 32 held 0 free 4064 tags 1\n"),
    (
        42,
        42,
        1,
        "3 malloc block 0x40000020 0x40000030\nend live 48 held 0 free 4048 tags 2\n",
    ),
    (43, 44, 2, "end live 64 held 0 free 4032 tags 2\n"),
    (58, 59, 3, "end live 64 held 0 free 4032 tags 3\n"),
    (66, 67, 4, "end live 32 held 32 free 4032 tags 3\n"),
    (72, 73, 5, "end live 32 held 0 free 4064 tags 2\n"),
    (
        84,
        84,
        5,
        "7 malloc block 0x40000000 0x40000010\nend live 48 held 0 free 4048 tags 3\n",
    ),
    (85, 86, 6, "end live 64 held 0 free 4032 tags 3\n"),
    (99, 100, 7, "end live 64 held 0 free 4032 tags 4\n"),
    (107, 108, 8, "end live 64 held 0 free 4032 tags 4\n"),
];

// What the beginning of so many bytes answers.
fn answer<R: Threads + Sync>(rt: &R, alloc: Global, bytes: usize) -> Result<Outcome, RunFault> {
    let cutting = Cutting::new(2, 1).map_err(|_| RunFault::Memory)?;
    let text = KEPT.text.as_bytes();
    run(rt, alloc, &text[..bytes.min(text.len())], cutting)
}

// Whether a report is so many of the lines, and the rest.
fn is_report(report: &[u8], lines: usize, rest: &str) -> bool {
    let mut left = report;
    for line in LINES.iter().take(lines) {
        match left.strip_prefix(line.as_bytes()) {
            Some(after) => left = after,
            None => return false,
        }
    }
    left == rest.as_bytes()
}

#[test]
fn each_beginning_has_its_fault_or_its_report(rt: HostRuntime) {
    let mut beginnings = 0usize;
    for (first, last, fault) in FAULTS {
        for bytes in first..=last {
            let refusal = answer(&rt, rt.alloc(), bytes).err();
            let is_it = matches!(&refusal, Some(RunFault::Trace(found)) if *found == fault);
            assert!(rt; is_it, "{bytes} bytes: {refusal:?}");
            beginnings = beginnings.wrapping_add(1);
        }
    }
    for (first, last, lines, rest) in RUNS {
        for bytes in first..=last {
            let outcome = answer(&rt, rt.alloc(), bytes).expect(&rt, "it is a trace");
            assert!(rt; is_report(&outcome.report, lines, rest), "{bytes} bytes");
            beginnings = beginnings.wrapping_add(1);
        }
    }
    // With the one that ends in no register, each was tried.
    assert_eq!(rt; beginnings, KEPT.text.len());
    let refusal = answer(&rt, rt.alloc(), 106).err();
    assert_eq!(rt; refusal, Some(RunFault::Trace(TraceFault::BadRegister(9))));
}
