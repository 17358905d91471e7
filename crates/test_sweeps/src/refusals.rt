//! Sweeps of which an allocation or a thread is refused. Each `refused_allocation` is run with each of its
//! allocations refused in turn, and so the `refused_thread` with each of its threads.

use crate::pool::{WANTED, tagged_memory};
use crate::tasks::{BASE, held_shadow};
use heap_core::Shadow;
use mark_board::Board;
use std::alloc::Global;
use sweep_pool::{Cutting, Open, SweepFault, Swept, sweep_masks, sweep_next, sweep_task};
use tag_memory::Memory;

// The memory of seven pages and the shadow, unless an allocation was refused.
fn swept_things(alloc: Global) -> Option<(Memory, Shadow)> {
    let memory = tagged_memory(alloc).ok()?;
    let shadow = held_shadow(alloc).ok()?;
    Some((memory, shadow))
}

#[test]
fn a_refused_allocation_of_a_sweep_by_one_is_told(rt: HostRuntime) {
    let cutting = Cutting::new(1, 3).expect(&rt, "it is a cutting");
    let Some((memory, shadow)) = swept_things(rt.alloc()) else {
        return;
    };
    match sweep_masks(&rt, rt.alloc(), &memory, &shadow, &cutting, &Open) {
        Ok(masks) => assert_eq!(rt; masks.as_slice(), WANTED.as_slice()),
        Err(fault) => assert_eq!(rt; fault, SweepFault::Memory),
    }
}

#[test]
fn a_refused_allocation_of_a_sweep_by_two_is_told(rt: HostRuntime) {
    let cutting = Cutting::new(2, 3).expect(&rt, "it is a cutting");
    let Some((memory, shadow)) = swept_things(rt.alloc()) else {
        return;
    };
    match sweep_masks(&rt, rt.alloc(), &memory, &shadow, &cutting, &Open) {
        Ok(masks) => assert_eq!(rt; masks.as_slice(), WANTED.as_slice()),
        Err(fault) => assert_eq!(rt; fault, SweepFault::Memory),
    }
}

#[test]
fn a_refused_allocation_of_a_task_is_told(rt: HostRuntime) {
    let cutting = Cutting::new(2, 3).expect(&rt, "it is a cutting");
    let Some((memory, shadow)) = swept_things(rt.alloc()) else {
        return;
    };
    assert!(rt; cutting.tasks(memory.pages()) > 2);
    match sweep_task(rt.alloc(), &memory, &shadow, &cutting, 2) {
        Ok(swept) => {
            assert_eq!(rt; swept.task, 2);
            assert_eq!(rt; swept.masks.as_slice(), [0, 0, 0, 1 << 63].as_slice());
        }
        Err(fault) => assert_eq!(rt; fault, SweepFault::Memory),
    }
}

// A refused claim leaves task 0 unmarked.
#[test]
fn a_refused_allocation_of_a_claim_leaves_the_task(rt: HostRuntime) {
    let cutting = Cutting::new(1, 1).expect(&rt, "it is a cutting");
    let Ok(memory) = Memory::new(rt.alloc(), BASE, 2) else {
        return;
    };
    let Ok(shadow) = held_shadow(rt.alloc()) else {
        return;
    };
    let tasks = cutting.tasks(memory.pages());
    assert!(rt; tasks == 2);
    let Ok((board, mut seat)) = Board::new(rt.alloc(), 2, 1) else {
        return;
    };
    match sweep_next(rt.alloc(), &board, &mut seat, &memory, &shadow, &cutting, 0) {
        Ok(next) => {
            assert_eq!(rt; next.map(|swept| swept.task), Some(0));
            assert_eq!(rt; board.mark(&mut seat, 0, 1), 0);
        }
        Err(fault) => {
            assert_eq!(rt; fault, SweepFault::Memory);
            assert_eq!(rt; board.mark(&mut seat, 0, 1), 1);
        }
    }
}

#[test]
fn a_refused_thread_of_a_sweep_changes_nothing(rt: HostRuntime) {
    let cutting = Cutting::new(4, 1).expect(&rt, "it is a cutting");
    let memory = tagged_memory(rt.alloc()).expect(&rt, "there is memory");
    let shadow = held_shadow(rt.alloc()).expect(&rt, "there is memory");
    let masks = sweep_masks(&rt, rt.alloc(), &memory, &shadow, &cutting, &Open).expect(
        &rt,
        "there is memory",
    );
    assert_eq!(rt; masks.as_slice(), WANTED.as_slice());
}
