//! Heaps that are refused, and blocks that lie where they should.

mod claims;
mod epochs;

use heap_core::{Block, Freed, Heap, HeapFault, Shadow};
use mark_board::Board;
use std::alloc::Global;
use std::process::Abort;

const BASE: u64 = 0x4000_0000;

// The last page of the address space.
const LAST_PAGE: u64 = 0xffff_ffff_ffff_f000;

// Each base and number of pages with the fault that it gives, if any.
const HEAPS: [(u64, u32, Option<HeapFault>); 6] = [
    (0x1000, 1024, None),
    (LAST_PAGE, 1, None),
    (8, 1, Some(HeapFault::BadBase)),
    (LAST_PAGE, 2, Some(HeapFault::BadBase)),
    (8, 0, Some(HeapFault::BadSize)),
    (0x1000, 1025, Some(HeapFault::BadSize)),
];

#[test]
fn faults_are_told(rt: HostRuntime) {
    for (base, pages, fault) in HEAPS {
        let made = Heap::new(rt.alloc(), base, pages);
        assert_eq!(rt; made.err(), fault, "at {base:x}, {pages} pages");
    }
}

#[test]
fn faults_by_their_names(rt: HostRuntime) {
    let cases = [
        (HeapFault::Memory, "Memory"),
        (HeapFault::BadBase, "BadBase"),
        (HeapFault::BadSize, "BadSize"),
    ];
    for (fault, name) in cases {
        let message = format!(in rt.alloc(); "{fault}").expect(&rt, "there is memory");
        assert_eq!(rt; message.as_str(), name);
    }
}

// A size that is asked for, with the base and top of the block that it gets, if any.
type Request = (u64, Option<(u64, u128)>);

// Reserves one size after the other.
fn blocks_lie(rt: &impl Abort, heap: &mut Heap, requests: &[Request]) {
    for (size, place) in requests {
        let reserved = heap.reserve(*size).expect(rt, "memory");
        let block = place.map(|(base, top)| Block { base, top });
        assert_eq!(rt; reserved, block, "at size {size}");
    }
}

#[test]
fn one_page_is_filled(rt: HostRuntime) {
    let mut heap = Heap::new(rt.alloc(), BASE, 1).expect(&rt, "a heap");
    let requests = [
        (4080, Some((0x4000_0000, 0x4000_0ff0))),
        (32, None),
        (16, Some((0x4000_0ff0, 0x4000_1000))),
        (1, None),
    ];
    blocks_lie(&rt, &mut heap, &requests);
    let sums = (heap.live_bytes(), heap.held_bytes(), heap.free_bytes());
    assert_eq!(rt; sums, (4096, 0, 0));
}

#[test]
fn a_gap_before_an_aligned_block_is_filled(rt: HostRuntime) {
    let mut heap = Heap::new(rt.alloc(), BASE, 16).expect(&rt, "a heap");
    let requests = [
        (16, Some((0x4000_0000, 0x4000_0010))),
        (16_384, Some((0x4000_0020, 0x4000_4020))),
        (16, Some((0x4000_0010, 0x4000_0020))),
    ];
    blocks_lie(&rt, &mut heap, &requests);
    let sums = (heap.live_bytes(), heap.held_bytes(), heap.free_bytes());
    assert_eq!(rt; sums, (16_416, 0, 49_120));
}

// From the first multiple of the unit, 0x2000, on the block would end past the heap.
#[test]
fn alignment_finds_no_place(rt: HostRuntime) {
    let mut heap = Heap::new(rt.alloc(), 0x1000, 1024).expect(&rt, "a heap");
    blocks_lie(&rt, &mut heap, &[(4_194_304, None)]);
    let sums = (heap.live_bytes(), heap.held_bytes(), heap.free_bytes());
    assert_eq!(rt; sums, (0, 0, 4_194_304));
}

#[test]
fn lengths_are_rounded(rt: HostRuntime) {
    let mut heap = Heap::new(rt.alloc(), BASE, 64).expect(&rt, "a heap");
    let requests = [
        (131_056, Some((0x4000_0000, 0x4002_0000))),
        (100_000, Some((0x4002_0000, 0x4003_8700))),
    ];
    blocks_lie(&rt, &mut heap, &requests);
    let sums = (heap.live_bytes(), heap.held_bytes(), heap.free_bytes());
    assert_eq!(rt; sums, (231_168, 0, 30_976));
}

#[test]
fn the_last_page_is_filled(rt: HostRuntime) {
    let mut heap = Heap::new(rt.alloc(), LAST_PAGE, 1).expect(&rt, "a heap");
    let requests = [
        (u64::MAX, None),
        (4097, None),
        (4096, Some((LAST_PAGE, 1 << 64))),
    ];
    blocks_lie(&rt, &mut heap, &requests);
}

#[test]
fn a_size_of_0_counts_as_1(rt: HostRuntime) {
    let mut heap = Heap::new(rt.alloc(), BASE, 1).expect(&rt, "a heap");
    let block = heap.reserve(0).expect(&rt, "memory").expect(&rt, "a place");
    assert_eq!(rt; (block.base, block.top), (BASE, u128::from(BASE) + 16));
    let sums = (heap.live_bytes(), heap.held_bytes(), heap.free_bytes());
    assert_eq!(rt; sums, (16, 0, 4080));
}

// It is run with each allocation refused in turn.
#[test]
fn a_refused_allocation_is_told(rt: HostRuntime) {
    match Heap::new(rt.alloc(), BASE, 1) {
        Ok(heap) => assert_eq!(rt; heap.free_bytes(), 4096),
        Err(fault) => assert_eq!(rt; fault, HeapFault::Memory),
    }
}

#[test]
fn a_block_goes_through_quarantine(rt: HostRuntime) {
    let mut heap = Heap::new(rt.alloc(), BASE, 1).expect(&rt, "a heap");
    blocks_lie(&rt, &mut heap, &[(32, Some((0x4000_0000, 0x4000_0020)))]);
    let releases = [
        (0x4000_0010, Freed::NotBlock),
        (0x4000_0020, Freed::Held),
        (0x4000_0020, Freed::AlreadyHeld),
    ];
    for (top, freed) in releases {
        let released = heap.release(BASE, top).expect(&rt, "memory");
        assert_eq!(rt; released, freed, "up to {top:x}");
    }
    let shadow = heap.shadow(rt.alloc()).expect(&rt, "memory");
    granules_are_painted(&rt, &shadow, 0, 2);
    heap.prepare().expect(&rt, "memory");
    assert!(rt; heap.is_prepared());
    assert_eq!(rt; heap.give_back(), 32);
    assert_eq!(rt; heap.free_bytes(), 4096);
}

// Just the granules `first` to `end - 1` are painted.
fn granules_are_painted(rt: &impl Abort, shadow: &Shadow, first: usize, end: usize) {
    for granule in 0..shadow.granules() {
        let is_held = (first..end).contains(&granule);
        assert_eq!(rt; shadow.painted(granule), is_held, "granule {granule}");
    }
}

// The held block covers parts of three words of the shadow.
#[test]
fn a_long_block_is_painted(rt: HostRuntime) {
    let mut heap = Heap::new(rt.alloc(), BASE, 1).expect(&rt, "a heap");
    let requests = [
        (0x3e0, Some((0x4000_0000, 0x4000_03e0))),
        (0x440, Some((0x4000_03e0, 0x4000_0820))),
        (16, Some((0x4000_0820, 0x4000_0830))),
    ];
    blocks_lie(&rt, &mut heap, &requests);
    let freed = heap.release(0x4000_03e0, 0x4000_0820);
    assert_eq!(rt; freed, Ok(Freed::Held));
    let shadow = heap.shadow(rt.alloc()).expect(&rt, "memory");
    granules_are_painted(&rt, &shadow, 62, 130);
}

#[test]
fn a_held_block_is_not_used_again(rt: HostRuntime) {
    let mut heap = Heap::new(rt.alloc(), BASE, 1).expect(&rt, "a heap");
    let first = [
        (2048, Some((0x4000_0000, 0x4000_0800))),
        (2032, Some((0x4000_0800, 0x4000_0ff0))),
    ];
    blocks_lie(&rt, &mut heap, &first);
    let freed = heap.release(0x4000_0000, 0x4000_0800);
    assert_eq!(rt; freed, Ok(Freed::Held));
    let held = [(32, None), (16, Some((0x4000_0ff0, 0x4000_1000)))];
    blocks_lie(&rt, &mut heap, &held);
    let sums = (heap.live_bytes(), heap.held_bytes(), heap.free_bytes());
    assert_eq!(rt; sums, (2048, 2048, 0));
    assert_eq!(rt; heap.give_back(), 2048);
    blocks_lie(&rt, &mut heap, &[(32, Some((0x4000_0000, 0x4000_0020)))]);
    let sums = (heap.live_bytes(), heap.held_bytes(), heap.free_bytes());
    assert_eq!(rt; sums, (2080, 0, 2016));
}

// The first page and the third, of which a row of pages has bits in one word.
#[test]
fn pages_are_given_back_together(rt: HostRuntime) {
    let mut heap = Heap::new(rt.alloc(), BASE, 3).expect(&rt, "a heap");
    let pages = [
        (4096, Some((0x4000_0000, 0x4000_1000))),
        (4096, Some((0x4000_1000, 0x4000_2000))),
        (4096, Some((0x4000_2000, 0x4000_3000))),
    ];
    blocks_lie(&rt, &mut heap, &pages);
    for base in [0x4000_0000, 0x4000_2000] {
        let freed = heap.release(base, u128::from(base) + 4096);
        assert_eq!(rt; freed, Ok(Freed::Held), "at {base:x}");
    }
    assert_eq!(rt; heap.give_back(), 8192);
    blocks_lie(&rt, &mut heap, &[pages[0], pages[2], (16, None)]);
}

// Free extents on both sides of a block that is given back become one with it.
#[test]
fn extents_are_joined(rt: HostRuntime) {
    let mut heap = Heap::new(rt.alloc(), BASE, 1).expect(&rt, "a heap");
    let blocks = [
        (1024, Some((0x4000_0000, 0x4000_0400))),
        (1024, Some((0x4000_0400, 0x4000_0800))),
        (1024, Some((0x4000_0800, 0x4000_0c00))),
    ];
    blocks_lie(&rt, &mut heap, &blocks);
    for base in [0x4000_0000, 0x4000_0800, 0x4000_0400] {
        let freed = heap.release(base, u128::from(base) + 1024);
        assert_eq!(rt; freed, Ok(Freed::Held), "at {base:x}");
        let bytes = heap.give_back();
        assert_eq!(rt; bytes, 1024, "at {base:x}");
    }
    blocks_lie(&rt, &mut heap, &[(4080, Some((0x4000_0000, 0x4000_0ff0)))]);
}

// The page is full, and its second half is held.
#[test]
fn a_block_gets_the_bytes_given_back(rt: HostRuntime) {
    let halves = [
        (2048, Some((0x4000_0000, 0x4000_0800))),
        (2048, Some((0x4000_0800, 0x4000_1000))),
    ];
    for (size, place) in [
        (16, Some((0x4000_0800, 0x4000_0810))),
        (2048, Some((0x4000_0800, 0x4000_1000))),
        (2049, None),
        (u64::MAX, None),
    ] {
        let mut heap = Heap::new(rt.alloc(), BASE, 1).expect(&rt, "a heap");
        blocks_lie(&rt, &mut heap, &halves);
        assert_eq!(rt; heap.release(0x4000_0800, 0x4000_1000), Ok(Freed::Held));
        assert!(rt; !heap.is_open());
        let block = place.map(|(base, top)| Block { base, top });
        assert_eq!(rt;
            heap.give_back_and_reserve(size),
            Ok((block, 2048)),
            "at size {size}"
        );
        assert_eq!(rt; heap.held_bytes(), 0);
    }
}

// A heap whose blocks are held but the second; that of granules 42 to 105 is the second of those held.
fn held_heap(rt: &impl Abort, alloc: Global) -> Heap {
    let mut heap = Heap::new(alloc, BASE, 1).expect(rt, "a heap");
    let blocks = [
        (640, Some((0x4000_0000, 0x4000_0280))),
        (32, Some((0x4000_0280, 0x4000_02a0))),
        (1024, Some((0x4000_02a0, 0x4000_06a0))),
        (16, Some((0x4000_06a0, 0x4000_06b0))),
    ];
    blocks_lie(rt, &mut heap, &blocks);
    for (base, top) in [
        (0x4000_06a0, 0x4000_06b0),
        (0x4000_0000, 0x4000_0280),
        (0x4000_02a0, 0x4000_06a0),
    ] {
        assert_eq!(rt; heap.release(base, top), Ok(Freed::Held), "at {base:x}");
    }
    heap
}

#[test]
fn held_blocks_are_painted_by_their_numbers(rt: HostRuntime) {
    let heap = held_heap(&rt, rt.alloc());
    assert_eq!(rt; heap.held_blocks(), 3);
    assert_eq!(rt; heap.granules(), 256);
    let (board, mut seat) = Board::new(rt.alloc(), 256, 1).expect(&rt, "a board");
    heap.paint(&board, &mut seat, 1, 2);
    heap.paint(&board, &mut seat, 3, 3);
    let words = board.finish(rt.alloc(), seat).expect(&rt, "memory");
    assert_eq!(rt;
        words.as_slice(),
        [u64::MAX << 42, (1 << 42) - 1, 0, 0].as_slice()
    );
}

#[test]
fn a_shadow_is_painted_as_its_words_are(rt: HostRuntime) {
    let mut words = vec![in rt.alloc(); 0; 2].expect(&rt, "memory");
    words.copy_from_slice(&[u64::MAX << 42, (1 << 42) - 1]);
    let shadow = Shadow::from_words(words, 128);
    assert_eq!(rt; shadow.granules(), 128);
    granules_are_painted(&rt, &shadow, 42, 106);
}

// It is run with each allocation refused in turn.
#[test]
fn a_refused_allocation_of_a_shadow_is_told(rt: HostRuntime) {
    let Ok(mut heap) = Heap::new(rt.alloc(), BASE, 1) else {
        return;
    };
    blocks_lie(&rt, &mut heap, &[(32, Some((0x4000_0000, 0x4000_0020)))]);
    assert_eq!(rt; heap.release(0x4000_0000, 0x4000_0020), Ok(Freed::Held));
    match heap.shadow(rt.alloc()) {
        Ok(shadow) => granules_are_painted(&rt, &shadow, 0, 2),
        Err(fault) => assert_eq!(rt; fault, HeapFault::Memory),
    }
    let sums = (heap.live_bytes(), heap.held_bytes(), heap.free_bytes());
    assert_eq!(rt; sums, (0, 32, 4064));
    assert_eq!(rt; heap.prepare(), Ok(()));
    assert_eq!(rt; heap.give_back(), 32);
}
