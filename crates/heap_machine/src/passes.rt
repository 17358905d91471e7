//! Passes over a machine's memory: by threads, or by the calling thread alone.

ghost use Rattle.std.specs.Prelude.{◌≡◌, ◌≤◌, IfSome};
ghost use Rattle.heap_model.specs.Heap.{due};
ghost use Rattle.heap_model.specs.Quarantine.{IsShadow};
ghost use Rattle.sweep_masks.specs.Masks.{TakeTags};
ghost use Rattle.machine_storage.specs.Storage.{IsStorage};
ghost use Rattle.machine_storage.specs.Passes.{IsFound};

use heap_core::Shadow;
use host_memory::Global;
use machine_storage::{Found, Storage};
use std::thread::Threads;
use sweep_pool::{
    Cutting, Gate, Open, paint_shadow, sweep_dirty, sweep_dirty_alone, sweep_masks,
    sweep_masks_alone,
};

// Where each worker looks at so many tagged granules, one worker more saves what it costs: the start of its thread,
// and its tries of the tasks that others have claimed.
const GRANULES_A_WORKER: usize = 43_000;

// How a pass over so many tagged granules is cut: a worker is started only where its work is worth it.
fn cutting_for(cutting: Cutting, tagged: usize) -> Cutting
    ensures pages { result.pages_per_task ≡ cutting.pages_per_task }
    ensures workers { result.workers ≤ cutting.workers }
{
    let worthwhile = (tagged / GRANULES_A_WORKER).max(1);
    let workers = worthwhile.min(cutting.workers() as usize) as u32;
    Cutting::new(workers, cutting.pages_per_task()).unwrap()
}

// How many tagged granules a pass may have to look at one by one. Where little of the heap is due, workers aren't worth their
// start: of most words of tags it is seen at once that none is taken.
fn tagged_for(storage: &Storage, shadow: &Shadow) -> usize {
    match shadow.painted_part() {
        Some(_) => 0,
        None => storage.memory.tagged(),
    }
}

/// What a pass finds now, by threads; `None` where memory runs out. In an open epoch it looks at dirty pages alone.
/// One worker paints the shadow: it copies the row of the due granules, which takes less than the start of a thread.
pub(crate) fn found_by_workers<R: Threads + Sync, G: Gate + Sync>(
    storage: &Storage,
    rt: &R,
    alloc: Global,
    cutting: Cutting,
    gate: &G,
) -> Option<Found>
    ensures { IsStorage storage.now → IfSome result (IsFound storage.now) }
{
    let painters = cutting_for(cutting, 0);
    let Ok(shadow) = paint_shadow(rt, alloc, &storage.heap, &painters, &Open) else {
        return None;
    };
    let masks = masks_by_workers(storage, rt, alloc, cutting, &shadow, gate)?;
    Some(Found { masks })
}

// The masks of that pass.
fn masks_by_workers<R: Threads + Sync, G: Gate + Sync>(
    storage: &Storage,
    rt: &R,
    alloc: Global,
    cutting: Cutting,
    shadow: &Shadow,
    gate: &G,
) -> Option<Vec<u64, Global>>
    requires { IsShadow storage.now.heap shadow.now }
    ensures { IsStorage storage.now → IfSome result (λ masks. TakeTags storage.now.memory (due storage.now.heap) masks.items) }
{
    if storage.heap.is_open() {
        return sweep_dirty(rt, alloc, &storage.memory, shadow, &cutting, gate).ok();
    }
    let cutting = cutting_for(cutting, tagged_for(storage, shadow));
    sweep_masks(rt, alloc, &storage.memory, shadow, &cutting, gate).ok()
}

/// The same by the calling thread alone, with the tasks of the same cutting.
pub(crate) fn found_alone<G: Gate>(
    storage: &Storage,
    alloc: Global,
    cutting: Cutting,
    gate: &G,
) -> Option<Found>
    ensures { IsStorage storage.now → IfSome result (IsFound storage.now) }
{
    let Ok(shadow) = storage.heap.shadow(alloc) else {
        return None;
    };
    let masks = masks_alone(storage, alloc, cutting, &shadow, gate)?;
    Some(Found { masks })
}

// The masks of that pass.
fn masks_alone<G: Gate>(
    storage: &Storage,
    alloc: Global,
    cutting: Cutting,
    shadow: &Shadow,
    gate: &G,
) -> Option<Vec<u64, Global>>
    requires { IsShadow storage.now.heap shadow.now }
    ensures { IsStorage storage.now → IfSome result (λ masks. TakeTags storage.now.memory (due storage.now.heap) masks.items) }
{
    if storage.heap.is_open() {
        return sweep_dirty_alone(alloc, &storage.memory, shadow, &cutting, gate).ok();
    }
    sweep_masks_alone(alloc, &storage.memory, shadow, &cutting, gate).ok()
}
