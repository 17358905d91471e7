//! Epochs of revocation: what is painted, what waits, and what is free at their end.

use crate::heap::{BASE, blocks_lie, granules_are_painted, held_heap};
use heap_core::{Freed, Heap};
use mark_board::Board;
use std::alloc::Global;
use std::process::Abort;

// A heap in an open epoch: the first 32 bytes are painted, the next are live.
fn heap_in_an_epoch(rt: &impl Abort, alloc: Global) -> Heap {
    let mut heap = Heap::new(alloc, BASE, 1).expect(rt, "a heap");
    let blocks = [
        (32, Some((0x4000_0000, 0x4000_0020))),
        (32, Some((0x4000_0020, 0x4000_0040))),
    ];
    blocks_lie(rt, &mut heap, &blocks);
    assert_eq!(rt; heap.release(0x4000_0000, 0x4000_0020), Ok(Freed::Held));
    assert!(rt; !heap.is_open());
    heap.begin_epoch();
    heap
}

#[test]
fn an_epoch_paints_what_waits(rt: HostRuntime) {
    let heap = heap_in_an_epoch(&rt, rt.alloc());
    assert!(rt; heap.is_open());
    assert_eq!(rt; (heap.held_blocks(), heap.held_bytes()), (1, 32));
    let shadow = heap.shadow(rt.alloc()).expect(&rt, "memory");
    granules_are_painted(&rt, &shadow, 0, 2);
}

#[test]
fn addresses_of_painted_blocks_are_due(rt: HostRuntime) {
    let mut heap = heap_in_an_epoch(&rt, rt.alloc());
    assert_eq!(rt; heap.release(0x4000_0020, 0x4000_0040), Ok(Freed::Held));
    let cases = [
        (0x3fff_ffff, false),
        (0x4000_0000, true),
        (0x4000_001f, true),
        (0x4000_0020, false),
        (0x4000_1000, false),
    ];
    for (address, is_due) in cases {
        assert_eq!(rt; heap.is_due(address), is_due, "at {address:x}");
        let granule = (address.wrapping_sub(0x4000_0000) / 16) as usize;
        assert_eq!(rt; heap.is_granule_due(granule), is_due, "granule {granule}");
    }
    heap.give_back();
    assert!(rt; !heap.is_due(0x4000_0000));
    assert!(rt; heap.is_due(0x4000_0020));
}

#[test]
fn a_block_given_up_in_an_epoch_waits(rt: HostRuntime) {
    let mut heap = heap_in_an_epoch(&rt, rt.alloc());
    assert_eq!(rt; heap.release(0x4000_0020, 0x4000_0040), Ok(Freed::Held));
    assert_eq!(rt; (heap.held_blocks(), heap.held_bytes()), (1, 64));
    let shadow = heap.shadow(rt.alloc()).expect(&rt, "memory");
    granules_are_painted(&rt, &shadow, 0, 2);
    for base in [0x4000_0000, 0x4000_0020] {
        let freed = heap.release(base, u128::from(base) + 32);
        assert_eq!(rt; freed, Ok(Freed::AlreadyHeld), "at {base:x}");
    }
}

#[test]
fn the_end_of_an_epoch_frees_what_was_painted(rt: HostRuntime) {
    let mut heap = heap_in_an_epoch(&rt, rt.alloc());
    assert_eq!(rt; heap.release(0x4000_0020, 0x4000_0040), Ok(Freed::Held));
    blocks_lie(
        &rt,
        &mut heap,
        &[(4032, Some((0x4000_0040, 0x4000_1000))), (16, None)],
    );
    assert_eq!(rt; heap.give_back(), 32);
    assert!(rt; !heap.is_open());
    assert_eq!(rt; heap.held_bytes(), 32);
    let shadow = heap.shadow(rt.alloc()).expect(&rt, "memory");
    granules_are_painted(&rt, &shadow, 2, 4);
    blocks_lie(&rt, &mut heap, &[(32, Some((0x4000_0000, 0x4000_0020)))]);
    assert_eq!(rt; heap.give_back(), 32);
    assert_eq!(rt; heap.held_bytes(), 0);
}

// Releases those of 70 blocks of 16 bytes whose number leaves this rest by 2.
fn every_second_is_released(rt: &impl Abort, heap: &mut Heap, rest: u64) {
    for i in 0..35 {
        let base = BASE + 16 * (2 * i + rest.min(1));
        let freed = heap.release(base, u128::from(base) + 16);
        assert_eq!(rt; freed, Ok(Freed::Held), "at {base:x}");
    }
}

#[test]
fn late_blocks_of_two_words_are_due_at_the_end(rt: HostRuntime) {
    let mut heap = Heap::new(rt.alloc(), BASE, 1).expect(&rt, "a heap");
    for _ in 0..70 {
        heap.reserve(16).expect(&rt, "memory");
    }
    every_second_is_released(&rt, &mut heap, 0);
    assert!(rt; !heap.is_open());
    heap.begin_epoch();
    every_second_is_released(&rt, &mut heap, 1);
    assert_eq!(rt; heap.give_back(), 560);
    assert_eq!(rt; (heap.held_blocks(), heap.held_bytes()), (35, 560));
    let shadow = heap.shadow(rt.alloc()).expect(&rt, "memory");
    for granule in 0..shadow.granules() {
        let is_late = granule < 70 && granule % 2 == 1;
        assert_eq!(rt; shadow.painted(granule), is_late, "granule {granule}");
    }
}

#[test]
fn painted_blocks_alone_are_painted_on_a_board(rt: HostRuntime) {
    let mut heap = held_heap(&rt, rt.alloc());
    assert!(rt; !heap.is_open());
    heap.begin_epoch();
    assert_eq!(rt; heap.release(0x4000_0280, 0x4000_02a0), Ok(Freed::Held));
    assert_eq!(rt; heap.held_blocks(), 3);
    assert_eq!(rt; heap.granules(), 256);
    let (board, mut seat) = Board::new(rt.alloc(), 256, 1).expect(&rt, "a board");
    heap.paint(&board, &mut seat, 0, 3);
    let words = board.finish(rt.alloc(), seat).expect(&rt, "memory");
    assert_eq!(rt;
        words.as_slice(),
        [u64::MAX ^ (3 << 40), (1 << 43) - 1, 0, 0].as_slice()
    );
}
