//! Sweeps by tasks, by one thread and by several.

ghost use Rattle.std.specs.Prelude.{◌≡◌, ◌≤◌};
ghost use Rattle.mark_board.specs.Board.{IsOf};
ghost use Rattle.sweep_masks.specs.Claims.{HasTasks};

use crate::tasks::{BASE, held_shadow, word};
use heap_core::{Heap, Shadow};
use mark_board::{Board, MarkSeat};
use std::alloc::Global;
use std::process::Abort;
use sweep_pool::{Cutting, Open, Swept, sweep_masks, sweep_next, sweep_task};
use tag_memory::{Memory, MemoryFault};

#[test]
fn a_task_of_a_new_memory(rt: HostRuntime) {
    let cutting = Cutting::new(4, 3).expect(&rt, "it is a cutting");
    let memory = Memory::new(rt.alloc(), BASE, 7).expect(&rt, "there is memory");
    let shadow = Heap::new(rt.alloc(), BASE, 7)
        .expect(&rt, "there is memory")
        .shadow(rt.alloc())
        .expect(&rt, "there is memory");
    let tasks = cutting.tasks(memory.pages());
    assert_eq!(rt; tasks, 3);
    assert!(rt; tasks > 2);
    let swept = sweep_task(rt.alloc(), &memory, &shadow, &cutting, 2).expect(
        &rt,
        "there is memory",
    );
    assert_eq!(rt; swept.task, 2);
    assert_eq!(rt; swept.masks.as_slice(), [0, 0, 0, 0].as_slice());
}

// Two pages, whose tasks have one page each.
#[derive(Drop)]
struct Pages {
    memory: Memory,
    shadow: Shadow,
    cutting: Cutting,
}

fn two_pages(rt: &impl Abort, alloc: Global) -> Pages {
    Pages {
        memory: Memory::new(alloc, BASE, 2).expect(rt, "there is memory"),
        shadow: held_shadow(alloc).expect(rt, "there is memory"),
        cutting: Cutting::new(2, 1).expect(rt, "it is a cutting"),
    }
}

// A board for their tasks, and its seat with two parts.
fn board_for(rt: &impl Abort, alloc: Global, pages: &Pages) -> (Board, MarkSeat)
    ensures tasks { HasTasks pages.now.cutting pages.now.memory result.0 }
    ensures seat { IsOf result.0 result.1 }
    ensures parts { result.1.parts ≡ 2 }
{
    let tasks = pages.cutting.tasks(pages.memory.pages());
    Board::new(alloc, tasks, 2).expect(rt, "there is memory")
}

// The task that is claimed from a task on, if any.
fn claimed(
    rt: &impl Abort,
    alloc: Global,
    pages: &Pages,
    board: &Board,
    seat: &mut MarkSeat,
    from: u32,
) -> Option<u32>
    requires board { IsOf board.now seat.old }
    requires tasks { HasTasks pages.now.cutting pages.now.memory board.now }
    requires from { from ≤ board.now.bits }
    ensures board { IsOf board.now seat.new }
{
    let Pages {
        memory,
        shadow,
        cutting,
    } = pages;
    let next = sweep_next(alloc, board, seat, memory, shadow, cutting, from);
    next.expect(rt, "there is memory").map(|swept| swept.task)
}

#[test]
fn two_seats_share_two_tasks(rt: HostRuntime) {
    let pages = two_pages(&rt, rt.alloc());
    let (board, seat) = board_for(&rt, rt.alloc(), &pages);
    let (mut a, mut b) = board.split(seat);
    assert_eq!(rt;
        claimed(&rt, rt.alloc(), &pages, &board, &mut a, 0),
        Some(0)
    );
    assert_eq!(rt;
        claimed(&rt, rt.alloc(), &pages, &board, &mut b, 0),
        Some(1)
    );
    assert_eq!(rt; claimed(&rt, rt.alloc(), &pages, &board, &mut a, 0), None);
}

#[test]
fn a_claim_passes_over_the_tasks_before_from(rt: HostRuntime) {
    let pages = two_pages(&rt, rt.alloc());
    let (board, mut a) = board_for(&rt, rt.alloc(), &pages);
    assert!(rt; 1 <= board.bits());
    assert_eq!(rt;
        claimed(&rt, rt.alloc(), &pages, &board, &mut a, 1),
        Some(1)
    );
    assert_eq!(rt; claimed(&rt, rt.alloc(), &pages, &board, &mut a, 1), None);
    assert_eq!(rt;
        claimed(&rt, rt.alloc(), &pages, &board, &mut a, 0),
        Some(0)
    );
}

// A memory of seven pages. The base of each tagged word lies in the first two granules, which are held,
// but that of granule 1 lies in the third.
pub(super) fn tagged_memory(alloc: Global) -> Result<Memory, MemoryFault> {
    let mut memory = Memory::new(alloc, BASE, 7)?;
    for (granule, from) in [
        (0, 0),
        (1, 32),
        (255, 16),
        (256, 0),
        (770, 0),
        (1000, 16),
        (1535, 0),
        (1791, 16),
    ] {
        if granule < memory.granules() {
            memory.put(granule, word(from, from + 16, 0).bits, true);
        }
    }
    Ok(memory)
}

// The granules of that memory whose bits are 1, and no others: all but granule 1.
const HITS: [usize; 7] = [0, 255, 256, 770, 1000, 1535, 1791];

// The same, as words: granule 770 is bit 2 of word 12, and granule 1000 is bit 40 of word 15.
pub(super) const WANTED: [u64; 28] = [
    1,
    0,
    0,
    1 << 63,
    1,
    0,
    0,
    0,
    0,
    0,
    0,
    0,
    1 << 2,
    0,
    0,
    1 << 40,
    0,
    0,
    0,
    0,
    0,
    0,
    0,
    1 << 63,
    0,
    0,
    0,
    1 << 63,
];

#[test]
fn one_answer_for_every_cutting(rt: HostRuntime) {
    let memory = tagged_memory(rt.alloc()).expect(&rt, "there is memory");
    let shadow = held_shadow(rt.alloc()).expect(&rt, "there is memory");
    for workers in [1, 2, 64] {
        for pages in [1, 3, 256] {
            let cutting = Cutting::new(workers, pages).expect(&rt, "it is a cutting");
            let masks = sweep_masks(&rt, rt.alloc(), &memory, &shadow, &cutting, &Open).expect(
                &rt,
                "there is memory",
            );
            assert_eq!(rt; masks.as_slice(), WANTED.as_slice(), "{workers}, {pages}");
        }
    }
}

#[test]
fn just_the_granules_with_a_held_base_are_hit(rt: HostRuntime) {
    let memory = tagged_memory(rt.alloc()).expect(&rt, "there is memory");
    let shadow = held_shadow(rt.alloc()).expect(&rt, "there is memory");
    let masks = sweep_masks(
        &rt,
        rt.alloc(),
        &memory,
        &shadow,
        &Cutting::new(2, 3).expect(&rt, "it is a cutting"),
        &Open,
    )
    .expect(&rt, "there is memory");
    assert_eq!(rt; masks.len(), 28);
    for (w, mask) in masks.iter().enumerate() {
        for j in 0..64 {
            let is_hit = mask >> j & 1 == 1;
            assert_eq!(rt;
                is_hit,
                HITS.iter().any(|&i| i / 64 == w && i % 64 == j),
                "word {w}, bit {j}"
            );
        }
    }
}

#[test]
fn more_workers_than_pages(rt: HostRuntime) {
    let mut memory = Memory::new(rt.alloc(), BASE, 1).expect(&rt, "there is memory");
    let shadow = held_shadow(rt.alloc()).expect(&rt, "there is memory");
    let cutting = Cutting::new(64, 1).expect(&rt, "it is a cutting");
    memory.put(65, word(0, 16, 0).bits, true);
    memory.put(66, word(32, 48, 0).bits, true);
    memory.put(255, word(16, 32, 0).bits, true);
    let masks = sweep_masks(&rt, rt.alloc(), &memory, &shadow, &cutting, &Open).expect(
        &rt,
        "there is memory",
    );
    assert_eq!(rt; masks.as_slice(), [0, 2, 0, 1 << 63].as_slice());
}

// The masks of task 2, if there is one.
fn third_task(alloc: Global, memory: &Memory, shadow: &Shadow, cutting: &Cutting) -> Option<Swept> {
    if cutting.tasks(memory.pages()) <= 2 {
        return None;
    }
    sweep_task(alloc, memory, shadow, cutting, 2).ok()
}

// With three pages a task, task 2 has the last page alone.
#[test]
fn the_masks_of_a_shorter_task(rt: HostRuntime) {
    let cutting = Cutting::new(2, 3).expect(&rt, "it is a cutting");
    let memory = tagged_memory(rt.alloc()).expect(&rt, "there is memory");
    let shadow = held_shadow(rt.alloc()).expect(&rt, "there is memory");
    let swept = third_task(rt.alloc(), &memory, &shadow, &cutting);
    assert!(rt;
        swept.is_some_and(|swept| swept.task == 2
            && swept.masks.as_slice() == [0, 0, 0, 1 << 63].as_slice())
    );
}

#[test]
fn a_shorter_task_is_claimed_with_its_masks(rt: HostRuntime) {
    let cutting = Cutting::new(2, 3).expect(&rt, "it is a cutting");
    let memory = tagged_memory(rt.alloc()).expect(&rt, "there is memory");
    let shadow = held_shadow(rt.alloc()).expect(&rt, "there is memory");
    let (board, mut a) = Board::new(rt.alloc(), cutting.tasks(memory.pages()), 1).expect(
        &rt,
        "there is memory",
    );
    assert!(rt; 2 <= board.bits());
    let next = sweep_next(rt.alloc(), &board, &mut a, &memory, &shadow, &cutting, 2).expect(
        &rt,
        "there is memory",
    );
    assert!(rt;
        next.is_some_and(|swept| swept.task == 2
            && swept.masks.as_slice() == [0, 0, 0, 1 << 63].as_slice())
    );
}
