//! Cuttings by their numbers, and sweeps of small memories.

ghost use Rattle.std.specs.Prelude.{◌≤◌};

use cap_codec::{Word, set_address, with_bounds};
use heap_core::{Heap, HeapFault, Shadow};
use std::alloc::Global;
use sweep_pool::{
    CutFault, Cutting, Gate, GatherFault, Open, SweepFault, due_registers, sweep_masks,
    sweep_masks_alone, swept_registers,
};
use tag_memory::{Memory, Registers};

#[test]
fn cuttings_are_judged(rt: HostRuntime) {
    let faults = [
        (0, 1, CutFault::BadWorkers),
        (65, 300, CutFault::BadWorkers),
        (1, 0, CutFault::BadTask),
        (1, 257, CutFault::BadTask),
    ];
    for (workers, pages, fault) in faults {
        assert_eq!(rt; Cutting::new(workers, pages), Err(fault));
    }
}

#[test]
fn faults_by_their_names(rt: HostRuntime) {
    let cuts = [
        (CutFault::BadWorkers, "BadWorkers"),
        (CutFault::BadTask, "BadTask"),
    ];
    for (fault, name) in cuts {
        let message = format!(in rt.alloc(); "{fault}").expect(&rt, "there is memory");
        assert_eq!(rt; message.as_str(), name);
    }
    let gatherings = [
        (GatherFault::Memory, "Memory"),
        (GatherFault::Stranger(7), "Stranger(7)"),
        (GatherFault::Double(0), "Double(0)"),
        (GatherFault::WrongSize(1), "WrongSize(1)"),
        (GatherFault::Missing(0), "Missing(0)"),
    ];
    for (fault, name) in gatherings {
        let message = format!(in rt.alloc(); "{fault}").expect(&rt, "there is memory");
        assert_eq!(rt; message.as_str(), name);
    }
    let message = format!(in rt.alloc(); "{}", SweepFault::Memory).expect(&rt, "there is memory");
    assert_eq!(rt; message.as_str(), "Memory");
}

#[test]
fn tasks_are_counted(rt: HostRuntime) {
    let cutting = Cutting::new(4, 3).expect(&rt, "it is a cutting");
    assert_eq!(rt; (cutting.workers(), cutting.pages_per_task()), (4, 3));
    for (pages, tasks) in [(0, 0), (1, 1), (3, 1), (4, 2), (7, 3)] {
        assert_eq!(rt; cutting.tasks(pages), tasks);
    }
    Open.pass(0);
}

pub const BASE: u64 = 0x4000_0000;

// A heap of one page whose first two granules are held, and whose next two are live.
fn held_heap(alloc: Global) -> Result<Heap, HeapFault> {
    let mut heap = Heap::new(alloc, BASE, 1)?;
    let _ = heap.reserve(32)?;
    let _ = heap.reserve(32)?;
    let _ = heap.release(BASE, u128::from(BASE) + 32)?;
    Ok(heap)
}

pub(crate) fn held_shadow(alloc: Global) -> Result<Shadow, HeapFault> {
    held_heap(alloc)?.shadow(alloc)
}

// A word with these bounds, counted from the heap's base, and this address.
pub(crate) fn word(from: u64, to: u64, address: u64) -> Word
    requires order { from ≤ to }
    requires limit { to ≤ 4096 }
    requires small { address ≤ 4096 }
{
    let base = BASE + from;
    let top = u128::from(BASE) + u128::from(to);
    let (word, _) = with_bounds(Word::NULL, base, top);
    set_address(word, BASE + address)
}

#[test]
fn registers_are_swept_by_their_bases(rt: HostRuntime) {
    let heap = held_heap(rt.alloc()).expect(&rt, "there is memory");
    let shadow = heap.shadow(rt.alloc()).expect(&rt, "there is memory");
    let mut registers = Registers::new();
    registers.set(1, word(0, 32, 0), true);
    registers.set(2, word(16, 32, 0x100), true);
    registers.set(3, word(32, 64, 0), true);
    registers.set(4, word(0, 32, 0), false);
    registers.set(31, word(5, 9, 5), true);
    let mask = swept_registers(&registers, &shadow, BASE);
    assert_eq!(rt; mask, 0x8000_0006);
    assert_eq!(rt; due_registers(&registers, &heap), 0x8000_0006);
}

#[test]
fn memory_is_swept_by_bases(rt: HostRuntime) {
    let shadow = held_shadow(rt.alloc()).expect(&rt, "there is memory");
    let mut memory = Memory::new(rt.alloc(), BASE, 1).expect(&rt, "there is memory");
    memory.put(0, word(0, 32, 0).bits, false);
    memory.put(1, word(32, 64, 0).bits, true);
    memory.put(64, word(0, 32, 0x100).bits, true);
    memory.put(255, word(16, 32, 16).bits, true);
    let masks = sweep_masks(
        &rt,
        rt.alloc(),
        &memory,
        &shadow,
        &Cutting::new(1, 16).expect(&rt, "it is a cutting"),
        &Open,
    )
    .expect(&rt, "there is memory");
    assert_eq!(rt; masks.as_slice(), [0, 1, 0, 1 << 63].as_slice());
}

// A base before the heap, with an address in a held granule; one that lies 2^32 granules behind the first, which is held; and
// one in the second granule.
#[test]
fn far_bases_are_not_swept(rt: HostRuntime) {
    let shadow = held_shadow(rt.alloc()).expect(&rt, "there is memory");
    let mut memory = Memory::new(rt.alloc(), BASE, 1).expect(&rt, "there is memory");
    let (before, _) = with_bounds(Word::NULL, 0, 1 << 64);
    let (behind, _) = with_bounds(
        Word::NULL,
        BASE + (1 << 36),
        u128::from(BASE) + (1 << 36) + 16,
    );
    memory.put(0, set_address(before, BASE).bits, true);
    memory.put(1, behind.bits, true);
    memory.put(2, word(16, 32, 16).bits, true);
    let cutting = Cutting::alone();
    let masks = sweep_masks_alone(rt.alloc(), &memory, &shadow, &cutting, &Open).expect(
        &rt,
        "there is memory",
    );
    assert_eq!(rt; masks.as_slice(), [4, 0, 0, 0].as_slice());
}

const LAST_BASE: u64 = 0xffff_ffff_ffff_f000;

// A heap whose page ends at 2^64, of which the last granule is held.
fn last_heap(alloc: Global) -> Result<Heap, HeapFault> {
    let mut heap = Heap::new(alloc, LAST_BASE, 1)?;
    let _ = heap.reserve(4080)?;
    let _ = heap.reserve(16)?;
    let _ = heap.release(LAST_BASE + 4080, 1 << 64)?;
    Ok(heap)
}

#[test]
fn a_base_in_the_last_granule_of_all_is_swept(rt: HostRuntime) {
    let heap = last_heap(rt.alloc()).expect(&rt, "there is memory");
    let shadow = heap.shadow(rt.alloc()).expect(&rt, "there is memory");
    let mut memory = Memory::new(rt.alloc(), LAST_BASE, 1).expect(&rt, "there is memory");
    let (last, _) = with_bounds(Word::NULL, LAST_BASE + 4080, 1 << 64);
    let (first, _) = with_bounds(Word::NULL, LAST_BASE, u128::from(LAST_BASE) + 4080);
    memory.put(0, Word::NULL.bits, true);
    memory.put(70, last.bits, true);
    memory.put(71, first.bits, true);
    let cutting = Cutting::alone();
    let masks = sweep_masks_alone(rt.alloc(), &memory, &shadow, &cutting, &Open).expect(
        &rt,
        "there is memory",
    );
    assert_eq!(rt; masks.as_slice(), [0, 1 << 6, 0, 0].as_slice());
}
