//! A heap of 1,024 pages in blocks of 16 bytes, of which one or every second one is given back.

use crate::fastest::{Fastest, ROUNDS};
use crate::heap::whole::{BASE, BLOCKS, full_heap, release_block};
use heap_core::{Heap, HeapFault};
use std::alloc::Global;
use std::io;
use std::time::CpuClock;

// How many blocks of the full heap are replaced in a round.
const REPLACED: u64 = 1000;

/// The heap full of live blocks, of which one after the other is replaced.
pub(crate) fn report_full(rt: &HostRuntime) -> io::Result<()> {
    let Ok(mut heap) = full_heap(rt.alloc()) else {
        return println!(rt; "want of memory");
    };
    let mut fastest = Fastest::NONE;
    let mut freed = 0u64;
    for _ in 0..ROUNDS {
        let start = rt.thread_cpu_time()?;
        let Ok(bytes) = replace_blocks(&mut heap) else {
            return println!(rt; "want of memory");
        };
        fastest.take_round(rt, start)?;
        freed = freed.wrapping_add(bytes);
    }
    println!(rt;
        "full but for one block: given back {freed}, live {}",
        heap.live_bytes()
    )?;
    eprintln!(rt;
        "full but for one block: {} ns for release, give_back and reserve",
        fastest.nanoseconds_a_step(REPLACED)
    )
}

// Releases some blocks, gives each one back by itself, and reserves it again. The answer is how many bytes
// were given back.
fn replace_blocks(heap: &mut Heap) -> Result<u64, HeapFault> {
    let mut bytes = 0u64;
    for k in 0..REPLACED {
        release_block(heap, k)?;
        heap.prepare()?;
        bytes = bytes.wrapping_add(heap.give_back());
        let _ = heap.reserve(16)?;
    }
    Ok(bytes)
}

/// The heap with every second block live, and the others reserved, released and given back.
pub(crate) fn report_halves(rt: &HostRuntime) -> io::Result<()> {
    let Ok(mut heap) = half_full_heap(rt.alloc()) else {
        return println!(rt; "want of memory");
    };
    let mut pairs = Fastest::NONE;
    let mut given_back = Fastest::NONE;
    let mut freed = 0u64;
    for _ in 0..ROUNDS {
        let start = rt.thread_cpu_time()?;
        if hold_gaps(&mut heap).is_err() {
            return println!(rt; "want of memory");
        }
        pairs.take_round(rt, start)?;
        let start = rt.thread_cpu_time()?;
        let bytes = heap.give_back();
        given_back.take_round(rt, start)?;
        freed = freed.wrapping_add(bytes);
    }
    println!(rt; "half full: given back {freed}, live {}", heap.live_bytes())?;
    eprintln!(rt;
        "half full: {} ns for reserve and release",
        pairs.nanoseconds_a_step(BLOCKS / 2)
    )?;
    eprintln!(rt;
        "half held: {} microseconds for give_back",
        given_back.microseconds()
    )
}

// A heap full of blocks, of which every second one was given back.
fn half_full_heap(alloc: Global) -> Result<Heap, HeapFault> {
    let mut heap = full_heap(alloc)?;
    for k in 0..BLOCKS / 2 {
        let base = BASE + 32 * k;
        let _ = heap.release(base, u128::from(base) + 16)?;
    }
    heap.prepare()?;
    let _ = heap.give_back();
    Ok(heap)
}

// Reserves each gap, and releases it at once.
fn hold_gaps(heap: &mut Heap) -> Result<(), HeapFault> {
    for _ in 0..BLOCKS / 2 {
        if let Some(block) = heap.reserve(16)? {
            let _ = heap.release(block.base, block.top)?;
        }
    }
    heap.prepare()
}
