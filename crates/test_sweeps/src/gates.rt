//! What gates are told of, and when.

use crate::tasks::{BASE, held_shadow};
use std::sync::atomic::Ordering::SeqCst;
use std::sync::atomic::{AtomicBool, AtomicU64};
use std::thread::yield_now;
use sweep_pool::{Cutting, Gate, sweep_masks};
use tag_memory::Memory;

// How often it was told of each of the tasks 0 to 6, and of others as if of 7, a byte a task; and the tasks
// in their order, each as its number plus 1, a hexadecimal digit a task.
#[derive(Drop)]
pub(super) struct Tally {
    pub(super) counts: AtomicU64,
    pub(super) order: AtomicU64,
}

impl Tally {
    pub(super) fn new() -> Tally {
        Tally {
            counts: AtomicU64::new(0),
            order: AtomicU64::new(0),
        }
    }
}

impl Gate for Tally {
    fn pass(&self, task: u32) {
        let task = task.min(7);
        let _ = self.counts.fetch_add(1 << (8 * task), SeqCst);
        let order = self.order.load(SeqCst);
        self.order
            .store(order.wrapping_mul(16) | (u64::from(task) + 1), SeqCst);
    }
}

#[test]
fn a_gate_is_told_of_each_task_once(rt: HostRuntime) {
    let memory = Memory::new(rt.alloc(), BASE, 7).expect(&rt, "there is memory");
    let shadow = held_shadow(rt.alloc()).expect(&rt, "there is memory");
    for workers in [1, 3, 64] {
        let cutting = Cutting::new(workers, 2).expect(&rt, "it is a cutting");
        let gate = Tally::new();
        let _ = sweep_masks(&rt, rt.alloc(), &memory, &shadow, &cutting, &gate).expect(
            &rt,
            "there is memory",
        );
        assert_eq!(rt; gate.counts.load(SeqCst), 0x0101_0101, "{workers} workers");
        if workers == 1 {
            assert_eq!(rt; gate.order.load(SeqCst), 0x1234);
        }
    }
}

// Counts the calls that are inside it at once, and keeps the most; each stays for 1,000,000 turns.
#[derive(Drop)]
struct Crowd {
    inside: AtomicU64,
    most: AtomicU64,
}

impl Gate for Crowd {
    fn pass(&self, _task: u32) {
        let inside = self.inside.fetch_add(1, SeqCst).wrapping_add(1);
        let _ = self.most.fetch_max(inside, SeqCst);
        for _ in 0..1_000_000u32 {
            let _ = self.inside.load(SeqCst);
        }
        let _ = self.inside.fetch_sub(1, SeqCst);
    }
}

#[test]
fn no_more_workers_than_the_cutting_has(rt: HostRuntime) {
    let memory = Memory::new(rt.alloc(), BASE, 16).expect(&rt, "there is memory");
    let shadow = held_shadow(rt.alloc()).expect(&rt, "there is memory");
    for workers in [1, 2, 3] {
        let cutting = Cutting::new(workers, 1).expect(&rt, "it is a cutting");
        let gate = Crowd {
            inside: AtomicU64::new(0),
            most: AtomicU64::new(0),
        };
        let _ = sweep_masks(&rt, rt.alloc(), &memory, &shadow, &cutting, &gate).expect(
            &rt,
            "there is memory",
        );
        let most = gate.most.load(SeqCst);
        assert!(rt;
            1 <= most && most <= u64::from(workers),
            "{most} of {workers} workers"
        );
    }
}

// Whether so many calls come within 100,000,000 turns, after every eighth of which others may run.
fn comes(calls: &AtomicU64, wanted: u64) -> bool {
    for turn in 0..100_000_000u32 {
        if calls.load(SeqCst) >= wanted {
            return true;
        }
        if turn % 8 == 0 {
            yield_now();
        }
    }
    false
}

// A gate whose first call waits until so many calls have come. It counts how often it is told of each task.
#[derive(Drop)]
pub(super) struct Meeting {
    pub(super) calls: AtomicU64,
    told: Tally,
    wanted: u64,
    pub(super) met: AtomicBool,
}

impl Meeting {
    pub(super) fn of(wanted: u64) -> Meeting {
        Meeting {
            calls: AtomicU64::new(0),
            told: Tally::new(),
            wanted,
            met: AtomicBool::new(false),
        }
    }
}

impl Gate for Meeting {
    fn pass(&self, task: u32) {
        self.told.pass(task);
        if self.calls.fetch_add(1, SeqCst) == 0 && comes(&self.calls, self.wanted) {
            self.met.store(true, SeqCst);
        }
    }
}

#[test]
fn two_workers_meet(rt: HostRuntime) {
    let memory = Memory::new(rt.alloc(), BASE, 2).expect(&rt, "there is memory");
    let shadow = held_shadow(rt.alloc()).expect(&rt, "there is memory");
    let cutting = Cutting::new(2, 1).expect(&rt, "it is a cutting");
    for run in 0..100 {
        let gate = Meeting::of(2);
        let masks = sweep_masks(&rt, rt.alloc(), &memory, &shadow, &cutting, &gate).expect(
            &rt,
            "there is memory",
        );
        assert!(rt; gate.met.load(SeqCst), "run {run}");
        assert_eq!(rt; gate.calls.load(SeqCst), 2, "run {run}");
        assert_eq!(rt; masks.as_slice(), [0; 8].as_slice());
    }
}

// Keeps the tasks of its first two calls, each as a bit. The first waits for the second.
#[derive(Drop)]
struct Beginnings {
    calls: AtomicU64,
    tasks: AtomicU64,
}

impl Gate for Beginnings {
    fn pass(&self, task: u32) {
        let call = self.calls.fetch_add(1, SeqCst);
        if call >= 2 {
            return;
        }
        let _ = self.tasks.fetch_or(1 << task.min(63), SeqCst);
        if call == 0 {
            let _ = comes(&self.calls, 2);
        }
    }
}

#[test]
fn each_worker_begins_with_a_task_of_its_own(rt: HostRuntime) {
    let memory = Memory::new(rt.alloc(), BASE, 8).expect(&rt, "there is memory");
    let shadow = held_shadow(rt.alloc()).expect(&rt, "there is memory");
    let cutting = Cutting::new(2, 1).expect(&rt, "it is a cutting");
    for run in 0..100 {
        let gate = Beginnings {
            calls: AtomicU64::new(0),
            tasks: AtomicU64::new(0),
        };
        let _ = sweep_masks(&rt, rt.alloc(), &memory, &shadow, &cutting, &gate).expect(
            &rt,
            "there is memory",
        );
        assert_eq!(rt; gate.tasks.load(SeqCst), 0x11, "run {run}");
    }
}

#[test]
fn a_held_worker_leaves_its_tasks_to_others(rt: HostRuntime) {
    let memory = Memory::new(rt.alloc(), BASE, 8).expect(&rt, "there is memory");
    let shadow = held_shadow(rt.alloc()).expect(&rt, "there is memory");
    let cutting = Cutting::new(2, 1).expect(&rt, "it is a cutting");
    for run in 0..100 {
        let gate = Meeting::of(8);
        let masks = sweep_masks(&rt, rt.alloc(), &memory, &shadow, &cutting, &gate).expect(
            &rt,
            "there is memory",
        );
        assert!(rt; gate.met.load(SeqCst), "run {run}");
        assert_eq!(rt; gate.calls.load(SeqCst), 8, "run {run}");
        // Each task by its own number, also where a worker passed over one that was claimed.
        assert_eq!(rt;
            gate.told.counts.load(SeqCst),
            0x0101_0101_0101_0101,
            "run {run}"
        );
        assert_eq!(rt; masks.as_slice(), [0; 32].as_slice());
    }
}
