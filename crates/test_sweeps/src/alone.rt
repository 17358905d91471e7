//! Sweeps by the calling thread alone, which are given no runtime.

use crate::dirty::dirtied_memory;
use crate::gates::Tally;
use crate::pool::{WANTED, tagged_memory};
use crate::tasks::held_shadow;
use std::sync::atomic::Ordering::SeqCst;
use sweep_pool::{Cutting, Open, SweepFault, sweep_dirty_alone, sweep_masks_alone};

#[test]
fn one_answer_without_a_runtime(rt: HostRuntime) {
    let memory = tagged_memory(rt.alloc()).expect(&rt, "there is memory");
    let shadow = held_shadow(rt.alloc()).expect(&rt, "there is memory");
    for (workers, pages) in [(1, 1), (2, 3), (64, 1), (64, 256)] {
        let cutting = Cutting::new(workers, pages).expect(&rt, "it is a cutting");
        let masks = sweep_masks_alone(rt.alloc(), &memory, &shadow, &cutting, &Open).expect(
            &rt,
            "there is memory",
        );
        assert_eq!(rt; masks.as_slice(), WANTED.as_slice(), "{workers}, {pages}");
    }
}

// Whatever the workers of the cutting, one after the other.
#[test]
fn a_gate_is_told_in_the_order_of_the_tasks(rt: HostRuntime) {
    let memory = tagged_memory(rt.alloc()).expect(&rt, "there is memory");
    let shadow = held_shadow(rt.alloc()).expect(&rt, "there is memory");
    for (workers, pages, told) in [(1, 2, 0x1234), (64, 2, 0x1234), (3, 3, 0x123), (64, 256, 1)] {
        let cutting = Cutting::new(workers, pages).expect(&rt, "it is a cutting");
        let gate = Tally::new();
        let masks = sweep_masks_alone(rt.alloc(), &memory, &shadow, &cutting, &gate);
        assert!(rt; masks.is_ok());
        assert_eq!(rt; gate.order.load(SeqCst), told, "{pages} pages a task");
    }
}

// Of seven pages the fourth and the last are dirty.
#[test]
fn clean_pages_have_no_masks_without_a_runtime(rt: HostRuntime) {
    let memory = dirtied_memory(&rt, rt.alloc());
    let shadow = held_shadow(rt.alloc()).expect(&rt, "there is memory");
    for (workers, pages, told) in [(1, 1, 0x47), (64, 2, 0x24), (3, 256, 0x1)] {
        let cutting = Cutting::new(workers, pages).expect(&rt, "it is a cutting");
        let gate = Tally::new();
        let masks = sweep_dirty_alone(rt.alloc(), &memory, &shadow, &cutting, &gate).expect(
            &rt,
            "there is memory",
        );
        assert_eq!(rt; gate.order.load(SeqCst), told, "{pages} pages a task");
        assert_eq!(rt; masks.len(), 28);
        for w in 0..28 {
            let wanted = if w / 4 == 3 || w / 4 == 6 {
                WANTED[w]
            } else {
                0
            };
            assert_eq!(rt; masks[w], wanted, "word {w}, {pages} pages a task");
        }
    }
}

// Run with each allocation refused in turn, too.
#[test]
fn a_refused_allocation_of_a_sweep_alone_is_told(rt: HostRuntime) {
    let Ok(memory) = tagged_memory(rt.alloc()) else {
        return;
    };
    let Ok(shadow) = held_shadow(rt.alloc()) else {
        return;
    };
    let cutting = Cutting::new(2, 3).expect(&rt, "it is a cutting");
    match sweep_masks_alone(rt.alloc(), &memory, &shadow, &cutting, &Open) {
        Ok(masks) => assert_eq!(rt; masks.as_slice(), WANTED.as_slice()),
        Err(fault) => assert_eq!(rt; fault, SweepFault::Memory),
    }
    match sweep_dirty_alone(rt.alloc(), &memory, &shadow, &cutting, &Open) {
        Ok(masks) => assert_eq!(rt; masks.as_slice(), WANTED.as_slice()),
        Err(fault) => assert_eq!(rt; fault, SweepFault::Memory),
    }
}
