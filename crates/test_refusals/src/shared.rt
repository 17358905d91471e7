//! A trace of which so many granules are tagged that threads share its passes, of which allocations and threads are
//! refused.

ghost use Rattle.std.specs.Prelude.{◌<◌};

use crate::steps::Seen;
use heap_machine::{Machine, MachineFault, Reply};
use heap_trace::{Outcome, RunFault, run};
use std::alloc::Global;
use std::fmt::Write;
use std::process::Abort;
use std::thread::Threads;
use sweep_pool::{Cutting, Open};
use tag_memory::{Memory, REGISTERS, Registers};
use trace_text::Command;

const BASE: u64 = 0x4000_0000;

// From 86,000 tagged granules on a pass has two workers.
const TAGGED: u64 = 90_002;

// Three blocks: of 16 bytes, of 352 pages, which begins at granule 128, and of 2,048 bytes behind these. The first and the
// last are given up, so that the painted granules lie all over the heap. In so many granules of the second stand the capabilities
// of the first and of itself by turns.
const FREED: u128 = 0x003d_0000_0405_8004_0000_0000_4000_0000;

const KEPT: u128 = 0x003d_0000_0183_c00c_0000_0000_4000_0800;

// That of the second with the address of the last such granule.
const LAST: u128 = 0x003d_0000_0183_c00c_0000_0000_4016_0110;

// That of the third.
const BEHIND: u128 = 0x003d_0000_0401_8804_0000_0000_4016_0800;

// The capabilities of the first block in memory. One more stands in register 1, and that of the third block in register 4.
const STORED: u32 = 45_001;

const SWEPT: Reply = Reply::Swept {
    cleared: STORED + 2,
    released: 2064,
};

const BEGUN: Reply = Reply::Begun { cleared: STORED };

// The address of a granule of the second block, by its place there.
fn address_of(place: u64) -> u64
    requires { place < 90002 }
{
    BASE + 0x800 + 16 * place
}

// The trace: a store into each of these granules, and a sweep once the first block and the third are freed. Its room is taken at
// once, so that few allocations are there to be refused.
fn trace_text(alloc: Global) -> Option<String> {
    let mut text = String::with_capacity(alloc, 3_700_000).ok()?;
    text.push_str("heap 0x40000000 360\nmalloc c1 16\nmalloc c2 1441792\nmalloc c4 2048\n")
        .ok()?;
    for place in 0..TAGGED {
        let address = address_of(place);
        let stored = place % 2 + 1;
        write!(text, "setaddr c3 c2 0x{address:x}\nstorecap c3 c{stored}\n").ok()?;
    }
    text.push_str("free c1\nfree c4\nsweep\n").ok()?;
    Some(text)
}

// Its report.
fn report_text(alloc: Global) -> Option<String> {
    let mut report = String::with_capacity(alloc, 3_300_000).ok()?;
    report
        .push_str(
            "2 malloc block 0x40000000 0x40000010\n3 malloc block 0x40000800 0x40160800\n4 malloc block 0x40160800 0x40161000\n",
        )
        .ok()?;
    for place in 0..TAGGED {
        let line = 5 + 2 * place;
        let next = line + 1;
        write!(report, "{line} setaddr ok\n{next} storecap ok\n").ok()?;
    }
    report
        .push_str(
            "180009 free held 16\n180010 free held 2048\n180011 sweep cleared 45003 released 2064\nend live 1441792 held 0 free 32768 tags 45003\n",
        )
        .ok()?;
    Some(report)
}

// What a granule has once the capabilities of the first block have lost their tags.
fn swept_granule(i: usize) -> (u128, bool) {
    match i.checked_sub(128) {
        Some(place) if place < TAGGED as usize => {
            if place % 2 == 0 {
                (FREED, false)
            } else {
                (KEPT, true)
            }
        }
        _ => (0, false),
    }
}

fn memory_is_swept(rt: &impl Abort, memory: &Memory) {
    assert_eq!(rt; memory.granules(), 92_160);
    for i in 0..memory.granules() {
        assert_eq!(rt; memory.cell(i), swept_granule(i), "granule {i}");
    }
}

fn registers_are_swept(rt: &impl Abort, registers: &Registers) {
    for r in 0..REGISTERS {
        let wanted = match r {
            1 => (FREED, false),
            2 => (KEPT, true),
            3 => (LAST, true),
            4 => (BEHIND, false),
            _ => (0, false),
        };
        let (word, tag) = registers.get(r);
        assert_eq!(rt; (word.bits, tag), wanted, "register {r}");
    }
}

// The outcome, word for word.
fn outcome_is_swept(rt: &impl Abort, outcome: &Outcome, report: &str) {
    assert!(rt; outcome.report.as_slice() == report.as_bytes());
    registers_are_swept(rt, &outcome.registers);
    memory_is_swept(rt, &outcome.memory);
}

// The run gives its outcome, or wants memory.
fn run_is_right<R: Abort + Threads + Sync>(rt: &R, alloc: Global) {
    let Some(text) = trace_text(alloc) else {
        return;
    };
    let Some(report) = report_text(alloc) else {
        return;
    };
    let cutting = Cutting::new(2, 6).expect(rt, "it is a cutting");
    match run(rt, alloc, text.as_bytes(), cutting) {
        Ok(outcome) => outcome_is_swept(rt, &outcome, &report),
        Err(fault) => assert_eq!(rt; fault, RunFault::Memory),
    }
}

#[test]
fn a_refused_allocation_of_a_shared_run_is_told(rt: HostRuntime) {
    run_is_right(&rt, rt.alloc());
}

#[test]
fn refused_allocations_of_a_shared_run_are_told(rt: HostRuntime) {
    run_is_right(&rt, rt.alloc());
}

#[test]
fn a_refused_allocation_and_thread_of_a_shared_run_are_told(rt: HostRuntime) {
    run_is_right(&rt, rt.alloc());
}

// The machine after those stores, with the first block and the third freed; none where an allocation was refused.
fn machine<R: Threads + Sync>(rt: &R, alloc: Global) -> Option<Machine> {
    let cutting = Cutting::new(2, 6).ok()?;
    let mut machine = Machine::new(alloc, BASE, 360, cutting).ok()?;
    for command in [
        Command::Malloc { rd: 1, size: 16 },
        Command::Malloc {
            rd: 2,
            size: 1_441_792,
        },
        Command::Malloc { rd: 4, size: 2048 },
    ] {
        let _ = machine.step(rt, alloc, command, &Open).ok()?;
    }
    for place in 0..TAGGED {
        store_at(rt, alloc, &mut machine, place)?;
    }
    for rs in [1, 4] {
        let _ = machine.step(rt, alloc, Command::Free { rs }, &Open).ok()?;
    }
    Some(machine)
}

// The two commands of the trace that fill one granule.
fn store_at<R: Threads + Sync>(
    rt: &R,
    alloc: Global,
    machine: &mut Machine,
    place: u64,
) -> Option<()>
    requires { place < 90002 }
{
    let address = address_of(place);
    let moved = Command::SetAddr {
        rd: 3,
        rs: 2,
        address,
    };
    let _ = machine.step(rt, alloc, moved, &Open).ok()?;
    let rs = if place % 2 == 0 { 1 } else { 2 };
    let _ = machine
        .step(rt, alloc, Command::StoreCap { ra: 3, rs }, &Open)
        .ok()?;
    Some(())
}

// A pass gives its reply, or wants memory and changes nothing; then it succeeds where it is given once more.
fn pass_is_done<R: Abort + Threads + Sync>(
    rt: &R,
    alloc: Global,
    pass: (Command, Reply),
    again: bool,
) {
    let (command, wanted) = pass;
    let Some(mut machine) = machine(rt, alloc) else {
        return;
    };
    let Some(before) = Seen::of(alloc, &machine) else {
        return;
    };
    assert!(rt; command.is_valid());
    let mut reply = machine.step(rt, alloc, command, &Open);
    if reply == Err(MachineFault::Memory) {
        before.is_still(rt, &machine);
        if !again {
            return;
        }
        reply = machine.step(rt, alloc, command, &Open);
    }
    assert_eq!(rt; reply, Ok(wanted));
    memory_is_swept(rt, machine.memory());
}

const PASSES: [(Command, Reply); 2] = [(Command::Sweep, SWEPT), (Command::Begin, BEGUN)];

#[test]
fn a_refused_allocation_of_a_shared_pass_changes_nothing(rt: HostRuntime) {
    for pass in PASSES {
        pass_is_done(&rt, rt.alloc(), pass, true);
    }
}

#[test]
fn refused_allocations_of_a_shared_pass_change_nothing(rt: HostRuntime) {
    for pass in PASSES {
        pass_is_done(&rt, rt.alloc(), pass, false);
    }
}

#[test]
fn a_refused_allocation_and_thread_of_a_shared_pass_change_nothing(rt: HostRuntime) {
    for pass in PASSES {
        pass_is_done(&rt, rt.alloc(), pass, true);
    }
}
