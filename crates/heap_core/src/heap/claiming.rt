//! Blocks whose place a caller names.

ghost use Rattle.std.specs.Prelude.{◌≡◌, ◌<◌, ◌≤◌, ◌+◌, ◌*◌, ◌++◌, IfErr, IfOk};
ghost use Rattle.heap_model.specs.Claim.{AreFitting, FindsOver, IsClaim, IsClaimable, IsReason};
ghost use Rattle.heap_model.specs.Heap.{HeapState, IsSound};

use crate::heap::Heap;
use cap_codec::{Word, with_bounds};
use heap_model::{Block, Obstacle};
use tag_memory::GRANULE;

// A granule's bytes, to be counted in addresses up to 2^64.
const WIDE_GRANULE: u128 = GRANULE as u128;

impl Heap {
    /// Makes the bytes from `base` on, before `top`, a live block where they may be one. Else nothing changes,
    /// and the first obstacle is answered.
    ///
    /// ```rust
    /// use heap_core::{Block, Heap, Obstacle};
    ///
    /// let mut heap = Heap::new(alloc, 0x4000_0000, 1)?;
    /// assert_eq!(rt; heap.claim(0x4000_0040, 0x4000_0060), Ok(()));
    /// let there = Block { base: 0x4000_0040, top: 0x4000_0060 };
    /// assert_eq!(rt; heap.claim(0x4000_0050, 0x4000_0070), Err(Obstacle::OverLive(there)));
    /// ```
    pub fn claim(&mut self, base: u64, top: u128) -> Result<(), Obstacle>
        ensures claim { IsClaim self.old self.old base top result self.new }
        ensures sound { IsSound self.new }
    {
        self.invariant();
        let (first, granules) = self.granules_of(base, top)?;
        if !self.table.put_at(first, granules) {
            return Err(self.in_the_way(base, top, first, granules));
        }
        self.live_granules += granules as u32;
        Ok(())
    }

    // The granules of these bounds, the first and how many, where they could be those of a block in an empty heap.
    pub(super) fn granules_of(&self, base: u64, top: u128) -> Result<(usize, usize), Obstacle>
        ensures fit { IfOk result (λ place. AreFitting self.now base top place.0 place.1) }
        // The reason lies in the bounds and in where the heap lies, not in its blocks.
        ensures reason { IfErr result (λ why. (s : HeapState) → s.base ≡ self.now.base → s.size ≡ self.now.size → IsReason s base top why) }
    {
        if !base.is_multiple_of(GRANULE) || !top.is_multiple_of(WIDE_GRANULE) {
            return Err(Obstacle::Uneven);
        }
        let from = u128::from(base);
        if top <= from {
            return Err(Obstacle::Empty);
        }
        let end = u128::from(self.base) + WIDE_GRANULE * self.table.granules() as u128;
        if base < self.base || top > end {
            return Err(Obstacle::Outside);
        }
        let (_, exact) = with_bounds(Word::NULL, base, top);
        if !exact {
            return Err(Obstacle::Inexact);
        }
        let first = ((base - self.base) / GRANULE) as usize;
        let granules = ((top - from) / WIDE_GRANULE) as usize;
        Ok((first, granules))
    }

    // What is in the way of a block with these bounds, whose granules these are.
    fn in_the_way(&self, base: u64, top: u128, first: usize, granules: usize) -> Obstacle
        requires fit { AreFitting self.now base top first granules }
        requires taken { ¬ IsClaimable self.now base top }
        ensures { IsReason self.now base top result }
    {
        if let Some(block) = self.live_over(first, granules) {
            return Obstacle::OverLive(block);
        }
        Obstacle::OverHeld(self.held_over(first, granules).unwrap())
    }

    // The first live block that has some of these granules.
    pub(super) fn live_over(&self, first: usize, granules: usize) -> Option<Block>
        requires some { 0 < granules }
        requires inside { 16 * (first + granules) ≤ self.now.size }
        ensures { FindsOver self.now.live (self.now.base + 16 * first) (self.now.base + 16 * (first + granules)) result }
    {
        let start = self
            .table
            .first_past(&self.late, false, first, first + granules)?;
        Some(self.table.block_from(self.base, start))
    }

    // The first held block that has some of these granules.
    fn held_over(&self, first: usize, granules: usize) -> Option<Block>
        requires some { 0 < granules }
        requires inside { 16 * (first + granules) ≤ self.now.size }
        ensures { FindsOver (self.now.waiting ++ self.now.painted) (self.now.base + 16 * first) (self.now.base + 16 * (first + granules)) result }
    {
        let start = self
            .table
            .first_past(&self.late, true, first, first + granules)?;
        Some(self.table.block_from(self.base, start))
    }
}
