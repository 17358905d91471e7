//! A heap of 1,024 pages is filled with blocks of 16 bytes, all of them are released, painted and given
//! back, and then it is filled once more.

use crate::fastest::{Fastest, ROUNDS};
use heap_core::{Heap, HeapFault, Shadow};
use std::alloc::Global;
use std::io;
use std::time::CpuClock;

/// The first address of each heap.
pub const BASE: u64 = 0x4000_0000;

// Pages of each heap.
const PAGES: u32 = 1024;

/// How many blocks of 16 bytes fill it.
pub const BLOCKS: u64 = 262_144;

// An odd number: the multiples of it reach each block once, in an order that jumps about.
const STEP: u64 = 77_773;

// What there was on the way, in bytes and in granules.
#[derive(Clone, Copy, Default)]
struct Sums {
    live: u64,
    held: u64,
    painted: usize,
    freed: u64,
    again: u64,
}

pub(crate) fn report_whole(rt: &HostRuntime) -> io::Result<()> {
    let mut fastest = Fastest::NONE;
    let mut last = Sums::default();
    for _ in 0..ROUNDS {
        let start = rt.thread_cpu_time()?;
        let Ok(sums) = work(rt.alloc()) else {
            return println!(rt; "want of memory");
        };
        fastest.take_round(rt, start)?;
        last = sums;
    }
    println!(rt;
        "live {}, held {}, painted {}, given back {}, live again {}",
        last.live, last.held, last.painted, last.freed, last.again
    )?;
    eprintln!(rt;
        "filled, released, given back, filled: {} microseconds",
        fastest.microseconds()
    )
}

fn work(alloc: Global) -> Result<Sums, HeapFault> {
    let mut heap = full_heap(alloc)?;
    let live = heap.live_bytes();
    release_all(&mut heap)?;
    let held = heap.held_bytes();
    let painted = painted_granules(&heap.shadow(alloc)?);
    heap.prepare()?;
    let freed = heap.give_back();
    fill(&mut heap)?;
    let again = heap.live_bytes();
    Ok(Sums {
        live,
        held,
        painted,
        freed,
        again,
    })
}

/// A heap full of live blocks of 16 bytes.
pub(crate) fn full_heap(alloc: Global) -> Result<Heap, HeapFault> {
    let mut heap = Heap::new(alloc, BASE, PAGES)?;
    fill(&mut heap)?;
    Ok(heap)
}

// Reserves as many blocks as there can be.
fn fill(heap: &mut Heap) -> Result<(), HeapFault> {
    for _ in 0..BLOCKS {
        let _ = heap.reserve(16)?;
    }
    Ok(())
}

// Releases each block once.
fn release_all(heap: &mut Heap) -> Result<(), HeapFault> {
    for k in 0..BLOCKS {
        release_block(heap, k)?;
    }
    Ok(())
}

/// Releases one block of 16 bytes, by a number of which each block has one.
pub(crate) fn release_block(heap: &mut Heap, k: u64) -> Result<(), HeapFault> {
    let base = BASE + 16 * (k.wrapping_mul(STEP) % BLOCKS);
    let _ = heap.release(base, u128::from(base) + 16)?;
    Ok(())
}

fn painted_granules(shadow: &Shadow) -> usize {
    (0..shadow.granules())
        .filter(|granule| shadow.painted(*granule))
        .count()
}
