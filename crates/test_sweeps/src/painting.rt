//! Shadows painted by one worker and by several.

use crate::gates::Meeting;
use crate::tasks::BASE;
use heap_core::{Heap, Shadow};
use std::alloc::Global;
use std::process::Abort;
use std::sync::atomic::AtomicU64;
use std::sync::atomic::Ordering::SeqCst;
use std::thread::Threads;
use sweep_pool::{Cutting, Gate, Open, SweepFault, paint_shadow};

// Granules of two pages that lie in held blocks, from the first up to the second: 2, 100, 1 and 70 granules.
const HELD: [(usize, usize); 4] = [(0, 2), (40, 140), (141, 142), (250, 320)];

// A heap of two pages with these held blocks, and live ones between them; none where an allocation was refused.
fn held_heap(alloc: Global) -> Option<Heap> {
    let mut heap = Heap::new(alloc, BASE, 2).ok()?;
    for (size, is_held) in [
        (32, true),
        (608, false),
        (1600, true),
        (16, false),
        (16, true),
        (1728, false),
        (1120, true),
    ] {
        let block = heap.reserve(size).ok()??;
        if is_held {
            let _ = heap.release(block.base, block.top);
        }
    }
    Some(heap)
}

// Whether just the granules of held blocks are painted.
fn held_granules_are_painted(rt: &impl Abort, shadow: &Shadow) {
    assert_eq!(rt; shadow.granules(), 512);
    for granule in 0..512 {
        let held = HELD
            .iter()
            .any(|(first, end)| *first <= granule && granule < *end);
        assert_eq!(rt; shadow.painted(granule), held, "granule {granule}");
    }
}

#[test]
fn a_shadow_is_the_same_for_every_cutting(rt: HostRuntime) {
    let heap = held_heap(rt.alloc()).expect(&rt, "there is memory");
    assert_eq!(rt; heap.held_blocks(), 4);
    for workers in [1, 2, 3, 5, 64] {
        for pages in [1, 3, 256] {
            let cutting = Cutting::new(workers, pages).expect(&rt, "it is a cutting");
            let shadow = paint_shadow(&rt, rt.alloc(), &heap, &cutting, &Open).expect(
                &rt,
                "there is memory",
            );
            held_granules_are_painted(&rt, &shadow);
        }
    }
}

#[test]
fn a_heap_without_held_blocks_has_an_empty_shadow(rt: HostRuntime) {
    let heap = Heap::new(rt.alloc(), BASE, 1).expect(&rt, "there is memory");
    let cutting = Cutting::new(2, 1).expect(&rt, "it is a cutting");
    let gate = Meeting::of(1);
    let shadow = paint_shadow(&rt, rt.alloc(), &heap, &cutting, &gate).expect(
        &rt,
        "there is memory",
    );
    assert_eq!(rt; gate.calls.load(SeqCst), 2);
    for granule in 0..256.min(shadow.granules()) {
        assert!(rt; !shadow.painted(granule), "granule {granule}");
    }
}

#[test]
fn two_workers_that_paint_meet(rt: HostRuntime) {
    let mut heap = Heap::new(rt.alloc(), BASE, 1).expect(&rt, "there is memory");
    for _ in 0..2 {
        let block = heap
            .reserve(64)
            .expect(&rt, "there is memory")
            .expect(&rt, "there is room");
        let _ = heap.release(block.base, block.top);
    }
    let cutting = Cutting::new(2, 1).expect(&rt, "it is a cutting");
    for run in 0..100 {
        let gate = Meeting::of(2);
        let shadow = paint_shadow(&rt, rt.alloc(), &heap, &cutting, &gate).expect(
            &rt,
            "there is memory",
        );
        assert!(rt; gate.met.load(SeqCst), "run {run}");
        assert_eq!(rt; gate.calls.load(SeqCst), 2, "run {run}");
        assert_eq!(rt; shadow.granules(), 256, "run {run}");
    }
}

// The shares that it was told of, a bit each, and those that it was told of once more; and whether any was 64 or more.
#[derive(Drop)]
struct Shares {
    told: AtomicU64,
    again: AtomicU64,
    others: AtomicU64,
}

impl Shares {
    fn new() -> Shares {
        Shares {
            told: AtomicU64::new(0),
            again: AtomicU64::new(0),
            others: AtomicU64::new(0),
        }
    }
}

impl Gate for Shares {
    fn pass(&self, share: u32) {
        if share >= 64 {
            self.others.store(1, SeqCst);
            return;
        }
        let told = self.told.fetch_or(1 << share, SeqCst);
        let _ = self.again.fetch_or(told & 1 << share, SeqCst);
    }
}

// A heap of a page with so many held blocks of 16 bytes, each before a live one.
fn heap_of(rt: &impl Abort, alloc: Global, blocks: u32) -> Heap {
    let mut heap = Heap::new(alloc, BASE, 1).expect(rt, "there is memory");
    for _ in 0..blocks {
        let held = heap.reserve(16).expect(rt, "there is memory");
        let live = heap.reserve(16).expect(rt, "there is memory");
        assert!(rt; live.is_some());
        if let Some(block) = held {
            let _ = heap.release(block.base, block.top);
        }
    }
    heap
}

// With these workers the gate is told of just these shares, each once.
fn each_share_is_told_once<R: Abort + Threads + Sync>(
    rt: &R,
    alloc: Global,
    heap: &Heap,
    (workers, shares): (u32, u64),
) {
    let cutting = Cutting::new(workers, 1).expect(rt, "it is a cutting");
    let gate = Shares::new();
    let shadow = paint_shadow(rt, alloc, heap, &cutting, &gate).expect(rt, "there is memory");
    assert_eq!(rt; shadow.granules(), 256);
    assert_eq!(rt; gate.told.load(SeqCst), shares, "{workers} workers");
    assert_eq!(rt; gate.again.load(SeqCst), 0, "{workers} workers");
    assert_eq!(rt; gate.others.load(SeqCst), 0, "{workers} workers");
}

// With fewer held blocks than workers, as many, and more.
#[test]
fn a_gate_is_told_of_each_share_once(rt: HostRuntime) {
    for blocks in [0, 1, 2, 3, 4, 63, 64, 65, 128] {
        let heap = heap_of(&rt, rt.alloc(), blocks);
        assert_eq!(rt; heap.held_blocks(), blocks as usize);
        for cut in [(1, 0b1), (2, 0b11), (3, 0b111), (64, u64::MAX)] {
            each_share_is_told_once(&rt, rt.alloc(), &heap, cut);
        }
    }
}

// It is run with each of its allocations refused in turn.
#[test]
fn a_refused_allocation_of_a_painting_is_told(rt: HostRuntime) {
    let Some(heap) = held_heap(rt.alloc()) else {
        return;
    };
    for workers in [1, 2] {
        let cutting = Cutting::new(workers, 1).expect(&rt, "it is a cutting");
        match paint_shadow(&rt, rt.alloc(), &heap, &cutting, &Open) {
            Ok(shadow) => held_granules_are_painted(&rt, &shadow),
            Err(fault) => assert_eq!(rt; fault, SweepFault::Memory),
        }
    }
}

// It is run with each of its threads refused in turn.
#[test]
fn a_refused_thread_of_a_painting_changes_nothing(rt: HostRuntime) {
    let heap = held_heap(rt.alloc()).expect(&rt, "there is memory");
    let cutting = Cutting::new(3, 1).expect(&rt, "it is a cutting");
    let shadow = paint_shadow(&rt, rt.alloc(), &heap, &cutting, &Open).expect(
        &rt,
        "there is memory",
    );
    held_granules_are_painted(&rt, &shadow);
}
