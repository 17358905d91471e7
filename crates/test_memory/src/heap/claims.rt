//! Blocks whose place a caller names.

use crate::heap::{BASE, LAST_PAGE};
use heap_core::{Block, Freed, Heap, Kind, Obstacle};
use std::alloc::Global;
use std::process::Abort;

// Bounds that are claimed, with what becomes of it.
type Row = (u64, u128, Result<(), Obstacle>);

fn are_claimed(rt: &impl Abort, heap: &mut Heap, rows: &[Row]) {
    for (base, top, claim) in rows {
        assert_eq!(rt; heap.claim(*base, *top), *claim, "from {base:x} to {top:x}");
    }
}

const LIVE: Block = Block {
    base: 0x4000_0100,
    top: 0x4000_0120,
};

const HELD: Block = Block {
    base: 0x4000_0200,
    top: 0x4000_0240,
};

const LATER: Block = Block {
    base: 0x4000_0300,
    top: 0x4000_0320,
};

// A heap of 64 KiB with two live blocks and a held one between them.
fn heap_of_three(rt: &impl Abort, alloc: Global) -> Heap {
    let mut heap = Heap::new(alloc, BASE, 16).expect(rt, "a heap");
    let rows = [
        (LIVE.base, LIVE.top, Ok(())),
        (HELD.base, HELD.top, Ok(())),
        (LATER.base, LATER.top, Ok(())),
    ];
    are_claimed(rt, &mut heap, &rows);
    assert_eq!(rt; heap.release(HELD.base, HELD.top), Ok(Freed::Held));
    heap
}

#[test]
fn bounds_that_no_block_has(rt: HostRuntime) {
    let mut heap = heap_of_three(&rt, rt.alloc());
    let rows = [
        (0x4000_0408, 0x4000_0420, Err(Obstacle::Uneven)),
        (0x4000_0400, 0x4000_0408, Err(Obstacle::Uneven)),
        // Uneven comes before empty, and empty before outside.
        (0x4000_0408, 0x4000_0400, Err(Obstacle::Uneven)),
        (0x4000_0400, 0x4000_0400, Err(Obstacle::Empty)),
        (0x5000_0000, 0x4000_0000, Err(Obstacle::Empty)),
        (0x3fff_fff0, 0x4000_0010, Err(Obstacle::Outside)),
        (0x4000_fff0, 0x4001_0010, Err(Obstacle::Outside)),
        // 16,400 bytes are held in units of 32.
        (0x4000_0410, 0x4000_4420, Err(Obstacle::Inexact)),
        (0x4000_0400, 0x4000_4420, Ok(())),
    ];
    are_claimed(&rt, &mut heap, &rows);
    let sums = (heap.live_bytes(), heap.held_bytes());
    assert_eq!(rt; sums, (64 + 0x4020, 64));
}

#[test]
fn blocks_are_in_the_way(rt: HostRuntime) {
    let mut heap = heap_of_three(&rt, rt.alloc());
    let rows = [
        (0x4000_0110, 0x4000_0130, Err(Obstacle::OverLive(LIVE))),
        (0x4000_00f0, 0x4000_0110, Err(Obstacle::OverLive(LIVE))),
        (0x4000_0100, 0x4000_0120, Err(Obstacle::OverLive(LIVE))),
        (0x4000_0210, 0x4000_0220, Err(Obstacle::OverHeld(HELD))),
        (0x4000_01f0, 0x4000_0300, Err(Obstacle::OverHeld(HELD))),
        // A live block is told before a held one that lies lower, and of two live ones the lower.
        (0x4000_0230, 0x4000_0310, Err(Obstacle::OverLive(LATER))),
        (0x4000_0110, 0x4000_0310, Err(Obstacle::OverLive(LIVE))),
        // What lies between them is free.
        (0x4000_0120, 0x4000_0200, Ok(())),
        (0x4000_0240, 0x4000_0300, Ok(())),
        (0x4000_0000, 0x4000_0100, Ok(())),
    ];
    are_claimed(&rt, &mut heap, &rows);
}

#[test]
fn late_blocks_are_in_the_way(rt: HostRuntime) {
    let mut heap = heap_of_three(&rt, rt.alloc());
    assert!(rt; !heap.is_open());
    heap.begin_epoch();
    assert_eq!(rt; heap.release(LATER.base, LATER.top), Ok(Freed::Held));
    let rows = [
        (0x4000_0310, 0x4000_0330, Err(Obstacle::OverHeld(LATER))),
        (0x4000_0230, 0x4000_0310, Err(Obstacle::OverHeld(HELD))),
    ];
    are_claimed(&rt, &mut heap, &rows);
    assert_eq!(rt; heap.due_bytes(), 64);
    let fates = [
        heap.freed_of(LIVE.base, LIVE.top),
        heap.freed_of(HELD.base, HELD.top),
        heap.freed_of(LATER.base, LATER.top),
        heap.freed_of(LIVE.base, LIVE.top + 16),
    ];
    assert_eq!(rt;
        fates,
        [
            Freed::Held,
            Freed::AlreadyHeld,
            Freed::AlreadyHeld,
            Freed::NotBlock
        ]
    );
}

#[test]
fn blocks_are_claimed_once_those_that_wait_are_free(rt: HostRuntime) {
    let mut heap = heap_of_three(&rt, rt.alloc());
    assert!(rt; !heap.is_open());
    let refused = heap.give_back_and_claim(0x4000_0230, 0x4000_0310);
    assert_eq!(rt;
        (refused, heap.held_bytes()),
        (Err(Obstacle::OverLive(LATER)), 64)
    );
    assert!(rt; !heap.is_open());
    let uneven = heap.give_back_and_claim(0x4000_0230, 0x4000_0248);
    assert_eq!(rt; (uneven, heap.held_bytes()), (Err(Obstacle::Uneven), 64));
    assert!(rt; !heap.is_open());
    let claimed = heap.give_back_and_claim(0x4000_0230, 0x4000_0250);
    assert_eq!(rt;
        (claimed, heap.held_bytes(), heap.live_bytes()),
        (Ok(()), 0, 96)
    );
}

#[test]
fn the_last_page_is_claimed_whole(rt: HostRuntime) {
    let mut heap = Heap::new(rt.alloc(), LAST_PAGE, 1).expect(&rt, "a heap");
    let rows = [(LAST_PAGE, 1 << 64, Ok(()))];
    are_claimed(&rt, &mut heap, &rows);
    assert_eq!(rt; heap.free_bytes(), 0);
}

// An address, and the block in which it lies.
type Place = (u64, Option<(Block, Kind)>);

fn lie_there(rt: &impl Abort, heap: &Heap, places: &[Place]) {
    for (address, found) in places {
        assert_eq!(rt; heap.block_of(*address), *found, "at {address:x}");
    }
}

#[test]
fn blocks_have_their_addresses(rt: HostRuntime) {
    let mut heap = heap_of_three(&rt, rt.alloc());
    assert_eq!(rt; heap.base(), BASE);
    let places = [
        (0x3fff_ffff, None),
        (0x4000_0000, None),
        (0x4000_00ff, None),
        (0x4000_0100, Some((LIVE, Kind::Live))),
        (0x4000_011f, Some((LIVE, Kind::Live))),
        (0x4000_0120, None),
        (0x4000_0200, Some((HELD, Kind::Waiting))),
        (0x4000_023f, Some((HELD, Kind::Waiting))),
        (0x4000_0240, None),
        (0x4001_0000, None),
        (u64::MAX, None),
    ];
    lie_there(&rt, &heap, &places);
    assert!(rt; !heap.is_open());
    heap.begin_epoch();
    assert_eq!(rt; heap.release(LATER.base, LATER.top), Ok(Freed::Held));
    let places = [
        (0x4000_0110, Some((LIVE, Kind::Live))),
        (0x4000_0210, Some((HELD, Kind::Painted))),
        (0x4000_0310, Some((LATER, Kind::Waiting))),
    ];
    lie_there(&rt, &heap, &places);
}

// A granule, and the block that starts there.
type Start = (usize, Option<(Block, Kind)>);

fn start_there(rt: &impl Abort, heap: &Heap, starts: &[Start]) {
    for (granule, found) in starts {
        assert!(rt; *granule < heap.granules());
        assert_eq!(rt;
            heap.block_starting_at(*granule),
            *found,
            "at granule {granule}"
        );
    }
}

#[test]
fn blocks_start_at_their_granules(rt: HostRuntime) {
    let mut heap = heap_of_three(&rt, rt.alloc());
    let lone = Block {
        base: BASE,
        top: 0x4000_0010,
    };
    assert_eq!(rt; heap.claim(lone.base, lone.top), Ok(()));
    let starts = [
        (0, Some((lone, Kind::Live))),
        (1, None),
        (15, None),
        (16, Some((LIVE, Kind::Live))),
        (17, None),
        (18, None),
        (32, Some((HELD, Kind::Waiting))),
        (35, None),
        (4095, None),
    ];
    start_there(&rt, &heap, &starts);
    assert!(rt; !heap.is_open());
    heap.begin_epoch();
    assert_eq!(rt; heap.release(LATER.base, LATER.top), Ok(Freed::Held));
    let starts = [
        (16, Some((LIVE, Kind::Live))),
        (32, Some((HELD, Kind::Painted))),
        (48, Some((LATER, Kind::Waiting))),
        (49, None),
    ];
    start_there(&rt, &heap, &starts);
    heap.give_back();
    let starts = [(32, None), (48, Some((LATER, Kind::Waiting)))];
    start_there(&rt, &heap, &starts);
}

// Whole words of a row lie between those of the block's first and last granule, 63 and 262.
#[test]
fn a_long_block_has_the_addresses_of_its_end(rt: HostRuntime) {
    let mut heap = Heap::new(rt.alloc(), BASE, 16).expect(&rt, "a heap");
    let long = Block {
        base: 0x4000_03f0,
        top: 0x4000_1070,
    };
    assert_eq!(rt; heap.claim(BASE, 0x4000_0010), Ok(()));
    assert_eq!(rt; heap.claim(long.base, long.top), Ok(()));
    let places = [
        (0x4000_03ef, None),
        (0x4000_03f0, Some((long, Kind::Live))),
        (0x4000_0400, Some((long, Kind::Live))),
        (0x4000_106f, Some((long, Kind::Live))),
        (0x4000_1070, None),
    ];
    lie_there(&rt, &heap, &places);
}
