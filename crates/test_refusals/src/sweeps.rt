//! Sweeps and paintings by themselves, of seven pages, of which allocations and threads are refused.

use cap_codec::block_capability;
use heap_core::{Heap, Shadow};
use std::alloc::Global;
use std::process::Abort;
use std::thread::Threads;
use sweep_pool::{Cutting, Open, SweepFault, paint_shadow, sweep_masks};
use tag_memory::Memory;

const BASE: u64 = 0x4000_0000;

const PAGES: u32 = 7;

// A heap of seven pages, in each of which the first 48 bytes are held, and as many after them are live; none
// where an allocation was refused.
fn held_heap(alloc: Global) -> Option<Heap> {
    let mut heap = Heap::new(alloc, BASE, PAGES).ok()?;
    for _ in 0..PAGES {
        let held = heap.reserve(48).ok()??;
        let _ = heap.reserve(48).ok()??;
        let _ = heap.reserve(4000).ok()??;
        let _ = heap.release(held.base, held.top);
    }
    Some(heap)
}

// A memory of those pages, each of which begins with a capability of its held block and one of its live
// block.
fn tagged_memory(alloc: Global) -> Option<Memory> {
    let mut memory = Memory::new(alloc, BASE, PAGES).ok()?;
    for page in 0..u64::from(PAGES) {
        let held = BASE + 4096 * page;
        let live = held + 48;
        let granule = 256 * page as usize;
        if granule + 1 < memory.granules() {
            memory.put(granule, block_capability(held, u128::from(live)).bits, true);
            memory.put(
                granule + 1,
                block_capability(live, u128::from(live + 48)).bits,
                true,
            );
        }
    }
    Some(memory)
}

fn cutting_of(rt: &impl Abort, workers: u32) -> Cutting {
    Cutting::new(workers, 1).expect(rt, "it is a cutting")
}

// The first granule of each page is taken, and no other.
fn masks_are_right(rt: &impl Abort, masks: &[u64]) {
    assert_eq!(rt; masks.len(), 28);
    for (w, mask) in masks.iter().enumerate() {
        assert_eq!(rt; *mask, if w % 4 == 0 { 1 } else { 0 }, "word {w}");
    }
}

// The first three granules of each page are painted, and no other.
fn shadow_is_right(rt: &impl Abort, shadow: &Shadow) {
    assert_eq!(rt; shadow.granules(), 1792);
    for granule in 0..shadow.granules() {
        assert_eq!(rt;
            shadow.painted(granule),
            granule % 256 < 3,
            "granule {granule}"
        );
    }
}

// A sweep with so many workers gives the masks, or wants memory.
fn sweep_is_right<R: Abort + Threads + Sync>(rt: &R, alloc: Global, workers: u32) {
    let Some(memory) = tagged_memory(alloc) else {
        return;
    };
    let Some(heap) = held_heap(alloc) else {
        return;
    };
    let Ok(shadow) = heap.shadow(alloc) else {
        return;
    };
    match sweep_masks(rt, alloc, &memory, &shadow, &cutting_of(rt, workers), &Open) {
        Ok(masks) => masks_are_right(rt, &masks),
        Err(fault) => assert_eq!(rt; fault, SweepFault::Memory),
    }
}

// And a painting the shadow.
fn painting_is_right<R: Abort + Threads + Sync>(rt: &R, alloc: Global, workers: u32) {
    let Some(heap) = held_heap(alloc) else {
        return;
    };
    match paint_shadow(rt, alloc, &heap, &cutting_of(rt, workers), &Open) {
        Ok(shadow) => shadow_is_right(rt, &shadow),
        Err(fault) => assert_eq!(rt; fault, SweepFault::Memory),
    }
}

#[test]
fn a_refused_allocation_of_a_sweep_is_told(rt: HostRuntime) {
    for workers in [1, 2, 64] {
        sweep_is_right(&rt, rt.alloc(), workers);
    }
}

#[test]
fn refused_allocations_of_a_sweep_are_told(rt: HostRuntime) {
    for workers in [1, 2, 64] {
        sweep_is_right(&rt, rt.alloc(), workers);
    }
}

#[test]
fn a_refused_allocation_and_thread_of_a_sweep_are_told(rt: HostRuntime) {
    for workers in [2, 64] {
        sweep_is_right(&rt, rt.alloc(), workers);
    }
}

#[test]
fn a_refused_allocation_of_a_painting_is_told(rt: HostRuntime) {
    for workers in [1, 2, 64] {
        painting_is_right(&rt, rt.alloc(), workers);
    }
}

#[test]
fn refused_allocations_of_a_painting_are_told(rt: HostRuntime) {
    for workers in [1, 2, 64] {
        painting_is_right(&rt, rt.alloc(), workers);
    }
}

#[test]
fn a_refused_allocation_and_thread_of_a_painting_are_told(rt: HostRuntime) {
    for workers in [2, 64] {
        painting_is_right(&rt, rt.alloc(), workers);
    }
}
