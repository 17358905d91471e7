//! A sweep of the dirty pages of a memory, by the calling thread.

ghost use Rattle.heap_model.specs.Heap.{HeapState, due};
ghost use Rattle.heap_model.specs.Sweep.{AreInDirtyPages};
ghost use Rattle.std.specs.Prelude.{◌≡◌, IfErr, IfOk};
ghost use Rattle.sweep_masks.specs.Masks.{AreDirtyMasks, IsShadowOf, TakeTags};

use crate::alone::sweep_pages;
use crate::cutting::Cutting;
use crate::gate::Gate;
use crate::sweep::SweepFault;
use heap_model::Shadow;
use host_memory::Global;
use std::thread::Threads;
use tag_memory::Memory;

/// The masks of the last pass of an epoch, four words a page: for a dirty page those of `sweep_masks`, and 0 for any
/// other, which is not looked at. So they are those of the whole memory where each word whose tag the pass takes
/// stands in a dirty page. `gate` is told of each task that has a dirty page, once, and of no other. The pass is
/// made by the calling thread, whatever the workers (Filardo et al. 2020, Cornucopia: the last pass visits dirtied
/// pages alone).
pub fn sweep_dirty<R: Threads + Sync, G: Gate + Sync>(
    _rt: &R,
    alloc: Global,
    memory: &Memory,
    shadow: &Shadow,
    cutting: &Cutting,
    gate: &G,
) -> Result<Vec<u64, Global>, SweepFault>
    ensures ok { IfOk result (λ masks. AreDirtyMasks memory.now shadow.now masks.items) }
    ensures due { (heap : HeapState) → IsShadowOf heap memory.now.base shadow.now
        → AreInDirtyPages memory.now.granules memory.now.dirty (due heap)
        → IfOk result (λ masks. TakeTags memory.now (due heap) masks.items) }
    ensures err { IfErr result (λ fault. fault ≡ SweepFault.Memory) }
{
    sweep_dirty_alone(alloc, memory, shadow, cutting, gate)
}

/// The same pass without a runtime: it needs none.
pub fn sweep_dirty_alone<G: Gate>(
    alloc: Global,
    memory: &Memory,
    shadow: &Shadow,
    cutting: &Cutting,
    gate: &G,
) -> Result<Vec<u64, Global>, SweepFault>
    ensures ok { IfOk result (λ masks. AreDirtyMasks memory.now shadow.now masks.items) }
    ensures due { (heap : HeapState) → IsShadowOf heap memory.now.base shadow.now
        → AreInDirtyPages memory.now.granules memory.now.dirty (due heap)
        → IfOk result (λ masks. TakeTags memory.now (due heap) masks.items) }
    ensures err { IfErr result (λ fault. fault ≡ SweepFault.Memory) }
{
    sweep_pages(alloc, memory, shadow, cutting, gate, true)
}
