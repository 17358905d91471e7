//! Traces with their reports.

mod alone;
mod image;
mod sweeps;

use heap_trace::{Outcome, RunFault, TraceFault, image_text, run};
use std::alloc::Global;
use std::thread::Threads;
use sweep_pool::Cutting;

// Traces with the reports of their runs.
const REPORTS: [(&str, &str); 4] = [
    (
        "heap 0x40000000 1\n",
        "end live 0 held 0 free 4096 tags 0\n",
    ),
    (
        "heap 0x40000000 1\nmalloc c0 0\nshow c0\n",
        "2 malloc block 0x40000000 0x40000010\n\
         3 show tag 0 address 0x0 base 0x0 top 0x10000000000000000 perms 0x0 type 0x3ffff exponent 52\n\
         end live 16 held 0 free 4080 tags 0\n",
    ),
    (
        "heap 0x40000000 1\nmalloc c1 4080\nmalloc c2 32\nmalloc c3 16\ncopy c4 c1\nshow c4\n",
        "2 malloc block 0x40000000 0x40000ff0\n\
         3 malloc nospace\n\
         4 malloc block 0x40000ff0 0x40001000\n\
         5 copy ok\n\
         6 show tag 1 address 0x40000000 base 0x40000000 top 0x40000ff0 perms 0x3d type 0x3ffff exponent 0\n\
         end live 4096 held 0 free 0 tags 3\n",
    ),
    // No space clears the register.
    (
        "heap 0x40000000 1\nmalloc c1 4080\nmalloc c1 32\nshow c1",
        "2 malloc block 0x40000000 0x40000ff0\n\
         3 malloc nospace\n\
         4 show tag 0 address 0x0 base 0x0 top 0x10000000000000000 perms 0x0 type 0x3ffff exponent 52\n\
         end live 4080 held 0 free 16 tags 0\n",
    ),
];

// What a run of the text answers, for any cutting.
pub(crate) fn answer<R: Threads + Sync>(
    rt: &R,
    alloc: Global,
    text: &str,
) -> Result<Outcome, RunFault> {
    let cutting = Cutting::new(1, 16).map_err(|_| RunFault::Memory)?;
    run(rt, alloc, text.as_bytes(), cutting)
}

#[test]
fn traces_are_run(rt: HostRuntime) {
    for (text, report) in REPORTS {
        let outcome = answer(&rt, rt.alloc(), text).expect(&rt, "it is a trace");
        assert_eq!(rt; outcome.report.as_slice(), report.as_bytes(), "{text:?}");
        assert_eq!(rt;
            (outcome.memory.base(), outcome.memory.pages()),
            (0x4000_0000, 1)
        );
        assert_eq!(rt; outcome.memory.tagged(), 0);
    }
}

// Traces of derived capabilities, and of blocks of more than 4,080 bytes.
const DERIVED: [(&str, &str); 7] = [
    // Both edges of the window, and one past each.
    (
        "heap 0x40000000 1
malloc c1 32
setaddr c2 c1 0x3ffff800
setaddr c3 c1 0x400037ff
setaddr c4 c1 0x3ffff7ff
setaddr c5 c1 0x40003800
show c2
show c4
",
        "2 malloc block 0x40000000 0x40000020
3 setaddr ok
4 setaddr ok
5 setaddr cleared
6 setaddr cleared
7 show tag 1 address 0x3ffff800 base 0x40000000 top 0x40000020 perms 0x3d type 0x3ffff exponent 0
8 show tag 0 address 0x3ffff7ff base 0x3fffc000 top 0x3fffc020 perms 0x3d type 0x3ffff exponent 0
end live 32 held 0 free 4064 tags 3
",
    ),
    // A top of 2^64, and a window that wraps.
    (
        "heap 0xfffffffffffff000 1
malloc c1 4096
setaddr c2 c1 0x10
show c2
",
        "2 malloc block 0xfffffffffffff000 0x10000000000000000
3 setaddr ok
4 show tag 1 address 0x10 base 0xfffffffffffff000 top 0x10000000000000000 perms 0x3d type 0x3ffff exponent 0
end live 4096 held 0 free 0 tags 2
",
    ),
    // Alignment finds no place.
    (
        "heap 0x1000 1024
malloc c1 4194304
show c1
",
        "2 malloc nospace
3 show tag 0 address 0x0 base 0x0 top 0x10000000000000000 perms 0x0 type 0x3ffff exponent 52
end live 0 held 0 free 4194304 tags 0
",
    ),
    // The rounded length raises the exponent.
    (
        "heap 0x40000000 64
malloc c1 131056
show c1
",
        "2 malloc block 0x40000000 0x40020000
3 show tag 1 address 0x40000000 base 0x40000000 top 0x40020000 perms 0x3d type 0x3ffff exponent 5
end live 131072 held 0 free 131072 tags 1
",
    ),
    // Narrowing, with each of its traps but the tag's.
    (
        "heap 0x40000000 64
malloc c1 100000
narrow c2 c1 0
setaddr c3 c1 0x40000001
narrow c2 c3 5000
narrow c2 c3 100096
narrow c2 c1 100096
",
        "2 malloc block 0x40000000 0x40018700
3 narrow trap empty
4 setaddr ok
5 narrow trap inexact
6 narrow trap bounds
7 narrow ok
end live 100096 held 0 free 162048 tags 3
",
    ),
    // The least place, in a gap too.
    (
        "heap 0x40000000 16
malloc c1 16
malloc c2 16384
malloc c3 16
",
        "2 malloc block 0x40000000 0x40000010
3 malloc block 0x40000020 0x40004020
4 malloc block 0x40000010 0x40000020
end live 16416 held 0 free 49120 tags 3
",
    ),
    // An untagged register keeps its bits, and narrow asks for the tag before the length; a register of
    // its own source.
    (
        "heap 0x40000000 1
malloc c1 32
andperm c1 c1 0x5
narrow c2 c0 0
setaddr c3 c0 0x20
setaddr c1 c1 0x40000010
narrow c1 c1 16
show c1
narrow c1 c1 17
",
        "2 malloc block 0x40000000 0x40000020
3 andperm ok
4 narrow trap tag
5 setaddr ok
6 setaddr ok
7 narrow ok
8 show tag 1 address 0x40000010 base 0x40000010 top 0x40000020 perms 0x5 type 0x3ffff exponent 0
9 narrow trap bounds
end live 32 held 0 free 4064 tags 1
",
    ),
];

#[test]
fn derived_capabilities_are_shown(rt: HostRuntime) {
    for (text, report) in DERIVED {
        let outcome = answer(&rt, rt.alloc(), text).expect(&rt, "it is a trace");
        assert_eq!(rt; outcome.report.as_slice(), report.as_bytes(), "{text:?}");
    }
}

// Stores and loads, with each of their traps.
const STORES: &str = "heap 0x40000000 1
malloc c1 32
storecap c1 c1
andperm c2 c1 0xd
loadcap c3 c2
show c3
storecap c2 c1
storecap c2 c3
write c2 000102030405060708090a0b0c0d0e0f
setaddr c4 c1 0x40000008
loadcap c5 c4
setaddr c4 c1 0x40000018
loadcap c5 c4
loadcap c5 c3
";

const STORES_REPORT: &str = "2 malloc block 0x40000000 0x40000020
3 storecap ok
4 andperm ok
5 loadcap ok
6 show tag 0 address 0x40000000 base 0x40000000 top 0x40000020 perms 0x3d type 0x3ffff exponent 0
7 storecap trap perm
8 storecap ok
9 write ok
10 setaddr ok
11 loadcap trap align
12 setaddr ok
13 loadcap trap bounds
14 loadcap trap tag
end live 32 held 0 free 4064 tags 3
";

#[test]
fn stores_and_loads_ask_for_permission(rt: HostRuntime) {
    let outcome = answer(&rt, rt.alloc(), STORES).expect(&rt, "it is a trace");
    assert_eq!(rt; outcome.report.as_slice(), STORES_REPORT.as_bytes());
    let image = image_text(rt.alloc(), &outcome.memory).expect(&rt, "there is memory");
    let line = "0x40000000 0 000102030405060708090a0b0c0d0e0f\n";
    assert_eq!(rt; image.as_slice(), line.as_bytes());
}

// A capability goes through memory whole, and a write over it takes its tag.
const THROUGH_MEMORY: &str = "heap 0x40000000 1
malloc c1 32
malloc c2 64
storecap c1 c2
loadcap c3 c1
show c3
write c1 ffffffffffffffffffffffffffffffff
loadcap c4 c1
show c4
andperm c5 c1 0x29
loadcap c6 c5
write c5 00000000000000000000000000000000
andperm c7 c1 0x1d
storecap c7 c1
storecap c7 c0
";

const THROUGH_MEMORY_REPORT: &str = "2 malloc block 0x40000000 0x40000020
3 malloc block 0x40000020 0x40000060
4 storecap ok
5 loadcap ok
6 show tag 1 address 0x40000020 base 0x40000020 top 0x40000060 perms 0x3d type 0x3ffff exponent 0
7 write ok
8 loadcap ok
9 show tag 0 address 0xffffffffffffffff base 0xfffffffffffffffb top 0x10000000000000ff9 perms 0xffff type 0x0 exponent 0
10 andperm ok
11 loadcap trap perm
12 write ok
13 andperm ok
14 storecap trap perm
15 storecap ok
end live 96 held 0 free 4000 tags 5
";

#[test]
fn capabilities_go_through_memory(rt: HostRuntime) {
    let outcome = answer(&rt, rt.alloc(), THROUGH_MEMORY).expect(&rt, "it is a trace");
    assert_eq!(rt; outcome.report.as_slice(), THROUGH_MEMORY_REPORT.as_bytes());
    assert_eq!(rt; outcome.memory.tagged(), 0);
}

#[test]
fn faulty_traces_are_not_run(rt: HostRuntime) {
    let cases = [
        ("", TraceFault::NoHeap(1)),
        ("# x\n", TraceFault::NoHeap(2)),
        ("heap 0x40000008 1\n", TraceFault::BadHeap(1)),
        (
            "heap 0x40000000 1\nmalloc c32 16\nfrob\n",
            TraceFault::BadRegister(2),
        ),
        ("heap 0x40000000 1\nmalloc c1\n", TraceFault::BadCount(2)),
        (
            "heap 0x40000000 1\nmalloc c1 16\nwrite c1 0001\n",
            TraceFault::BadData(3),
        ),
    ];
    for (text, fault) in cases {
        let refusal = answer(&rt, rt.alloc(), text).err();
        assert_eq!(rt; refusal, Some(RunFault::Trace(fault)), "{text:?}");
    }
}

#[test]
fn faults_by_their_names(rt: HostRuntime) {
    let cases = [
        (RunFault::Memory, "Memory"),
        (RunFault::Trace(TraceFault::NoHeap(1)), "Trace"),
    ];
    for (fault, name) in cases {
        let message = format!(in rt.alloc(); "{fault}").expect(&rt, "there is memory");
        assert_eq!(rt; message.as_str(), name);
    }
}

#[test]
fn a_refused_allocation_of_a_run_is_told(rt: HostRuntime) {
    let (text, report) = REPORTS[2];
    match answer(&rt, rt.alloc(), text) {
        Ok(outcome) => assert_eq!(rt; outcome.report.as_slice(), report.as_bytes()),
        Err(fault) => assert_eq!(rt; fault, RunFault::Memory),
    }
}
