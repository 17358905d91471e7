//! Sweeps of dirty pages alone.

use crate::gates::Tally;
use crate::pool::{WANTED, tagged_memory};
use crate::tasks::{BASE, held_shadow, word};
use std::alloc::Global;
use std::process::Abort;
use std::sync::atomic::Ordering::SeqCst;
use sweep_pool::{Cutting, Open, SweepFault, sweep_dirty};
use tag_memory::Memory;

// The seven pages of `tagged_memory`, of which only the fourth and the last are dirty: the fourth has no tag, and the
// last one that the sweep takes.
pub(super) fn dirtied_memory(rt: &impl Abort, alloc: Global) -> Memory {
    let mut memory = tagged_memory(alloc).expect(rt, "there is memory");
    memory.mark_clean();
    for (granule, tag) in [(1023, true), (1023, false), (1791, true), (300, false)] {
        if granule < memory.granules() {
            memory.put(granule, word(16, 32, 0).bits, tag);
        }
    }
    memory
}

#[test]
fn clean_pages_have_no_masks(rt: HostRuntime) {
    let memory = dirtied_memory(&rt, rt.alloc());
    let shadow = held_shadow(rt.alloc()).expect(&rt, "there is memory");
    for (workers, pages) in [(1, 1), (2, 3), (64, 256)] {
        let cutting = Cutting::new(workers, pages).expect(&rt, "it is a cutting");
        let masks = sweep_dirty(&rt, rt.alloc(), &memory, &shadow, &cutting, &Open).expect(
            &rt,
            "there is memory",
        );
        assert_eq!(rt; masks.len(), 28);
        for w in 0..28 {
            let wanted = if w / 4 == 3 || w / 4 == 6 {
                WANTED[w]
            } else {
                0
            };
            assert_eq!(rt; masks[w], wanted, "word {w}, {workers} workers");
        }
    }
}

#[test]
fn a_gate_is_told_of_tasks_with_a_dirty_page(rt: HostRuntime) {
    let memory = dirtied_memory(&rt, rt.alloc());
    let shadow = held_shadow(rt.alloc()).expect(&rt, "there is memory");
    for (workers, pages, told) in [(1, 1, 0x47), (64, 2, 0x24), (2, 4, 0x12), (3, 256, 0x1)] {
        let cutting = Cutting::new(workers, pages).expect(&rt, "it is a cutting");
        let gate = Tally::new();
        let masks = sweep_dirty(&rt, rt.alloc(), &memory, &shadow, &cutting, &gate);
        assert!(rt; masks.is_ok());
        assert_eq!(rt; gate.order.load(SeqCst), told, "{pages} pages a task");
    }
}

#[test]
fn a_gate_is_told_of_no_task_where_all_pages_are_clean(rt: HostRuntime) {
    let memory = Memory::new(rt.alloc(), BASE, 7).expect(&rt, "there is memory");
    let shadow = held_shadow(rt.alloc()).expect(&rt, "there is memory");
    let cutting = Cutting::new(1, 1).expect(&rt, "it is a cutting");
    let gate = Tally::new();
    let masks = sweep_dirty(&rt, rt.alloc(), &memory, &shadow, &cutting, &gate);
    assert!(rt; masks.is_ok());
    assert_eq!(rt; gate.order.load(SeqCst), 0);
}

// Run with each allocation refused in turn, too.
#[test]
fn a_refused_allocation_of_a_dirty_sweep_is_told(rt: HostRuntime) {
    let Ok(memory) = tagged_memory(rt.alloc()) else {
        return;
    };
    let Ok(shadow) = held_shadow(rt.alloc()) else {
        return;
    };
    let cutting = Cutting::new(2, 3).expect(&rt, "it is a cutting");
    match sweep_dirty(&rt, rt.alloc(), &memory, &shadow, &cutting, &Open) {
        Ok(masks) => assert_eq!(rt; masks.as_slice(), WANTED.as_slice()),
        Err(fault) => assert_eq!(rt; fault, SweepFault::Memory),
    }
}
