//! A memory of 1,024 pages whose granules are all tagged, swept by the shadow of a heap of which every second block is
//! held, by one worker and by four. Then a memory of as many pages without a tag, swept by one worker, with 16 pages a task
//! and with one.

use crate::draws::next;
use cap_codec::{Word, with_bounds};
use heap_core::{Heap, HeapFault, Shadow};
use std::alloc::Global;
use std::io;
use std::thread::Threads;
use std::time::{Clock, Duration, Instant};
use sweep_pool::{Cutting, Open, sweep_masks};
use tag_memory::{Memory, MemoryFault};

const BASE: u64 = 0x4000_0000;

const PAGES: u32 = 1024;

// Bytes of the memory, and of the heap.
const BYTES: u64 = 4_194_304;

const BLOCK_BYTES: u64 = 256;

// How often a memory is swept, by so many workers with so many pages a task.
#[derive(Clone, Copy)]
struct Plan {
    sweeps: u32,
    workers: u32,
    pages: u32,
}

// The time of the fastest sweep, and how many tags the masks of all sweeps take.
#[derive(Clone, Copy)]
struct Sweeps {
    least: Duration,
    taken: u32,
}

pub(crate) fn time_sweeps<T: Threads + Sync + Clock>(
    rt: &HostRuntime,
    threads: &T,
) -> io::Result<()> {
    let Ok(shadow) = half_held_shadow(rt.alloc()) else {
        return println!(rt; "want of memory");
    };
    let Ok(full) = full_memory(rt.alloc()) else {
        return println!(rt; "want of memory");
    };
    for workers in [1, 4] {
        let plan = Plan {
            sweeps: 10,
            workers,
            pages: 16,
        };
        let Some(swept) = timed(threads, rt.alloc(), &full, &shadow, plan) else {
            return println!(rt; "no sweep");
        };
        println!(rt; "all tagged: {} tags taken", swept.taken)?;
        eprintln!(rt;
            "all tagged, {workers} workers: {} ns a sweep",
            swept.least.as_nanos()
        )?;
    }
    let Ok(untagged) = Memory::new(rt.alloc(), BASE, PAGES) else {
        return println!(rt; "want of memory");
    };
    for pages in [16, 1] {
        let plan = Plan {
            sweeps: 1000,
            workers: 1,
            pages,
        };
        let Some(swept) = timed(threads, rt.alloc(), &untagged, &shadow, plan) else {
            return println!(rt; "no sweep");
        };
        println!(rt; "untagged: {} tags taken", swept.taken)?;
        eprintln!(rt;
            "untagged, {pages} pages a task: {} ns a sweep",
            swept.least.as_nanos()
        )?;
    }
    Ok(())
}

// Sweeps a memory by this plan; `None` where that can't be done or timed.
fn timed<R: Threads + Sync + Clock>(
    rt: &R,
    alloc: Global,
    memory: &Memory,
    shadow: &Shadow,
    plan: Plan,
) -> Option<Sweeps> {
    let Ok(cutting) = Cutting::new(plan.workers, plan.pages) else {
        return None;
    };
    let mut least = Duration::MAX;
    let mut taken = 0u32;
    for _ in 0..plan.sweeps {
        let Ok(start) = Instant::now(rt) else {
            return None;
        };
        let Ok(masks) = sweep_masks(rt, alloc, memory, shadow, &cutting, &Open) else {
            return None;
        };
        let Ok(time) = start.elapsed(rt) else {
            return None;
        };
        least = least.min(time);
        taken = taken.wrapping_add(ones(&masks));
    }
    Some(Sweeps { least, taken })
}

// A memory with a capability in each granule.
fn full_memory(alloc: Global) -> Result<Memory, MemoryFault> {
    let mut memory = Memory::new(alloc, BASE, PAGES)?;
    let mut seed = 1;
    for granule in 0..memory.granules() {
        seed = next(seed);
        memory.put(granule, capability(seed >> 32).bits, true);
    }
    Ok(memory)
}

// A capability whose base lies in the heap, and whose length is 16 bytes to 4 megabytes.
fn capability(number: u64) -> Word {
    let base = BASE + number % BYTES;
    let length = (16 << (number >> 22) % 19).min(BYTES);
    let (word, _) = with_bounds(Word::NULL, base, u128::from(base + length));
    word
}

// The shadow of a heap that was filled with blocks, of which every second one is held.
fn half_held_shadow(alloc: Global) -> Result<Shadow, HeapFault> {
    let mut heap = Heap::new(alloc, BASE, PAGES)?;
    for k in 0..BYTES / BLOCK_BYTES {
        if let Some(block) = heap.reserve(BLOCK_BYTES)?
            && k % 2 == 0
        {
            let _ = heap.release(block.base, block.top)?;
        }
    }
    heap.shadow(alloc)
}

// How many bits are 1.
fn ones(masks: &[u64]) -> u32 {
    masks
        .iter()
        .fold(0u32, |sum, mask| sum.wrapping_add(mask.count_ones()))
}
