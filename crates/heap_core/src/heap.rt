//! One heap, and where its blocks lie.

ghost use Rattle.std.specs.Prelude.{◌≡◌, ◌↔◌, ◌+◌, ℕ, IfOk, IfSome, IsOk, IsOkUnless, None, false, true};
ghost use Rattle.cap_codec.specs.Rounding.{IsExact};
ghost use Rattle.heap_model.specs.Blocks.{bytes_in};
ghost use Rattle.heap_model.specs.Heap.{IsSound, empty_heap};
ghost use Rattle.heap_model.specs.Heap as heap;
ghost use Rattle.heap_model.specs.Place.{IfOkSome, IsFree, IsPlace, block_length, with_live};
ghost use Rattle.tag_memory.specs.Extent as span;

mod claiming;
mod finding;
mod painting;
mod quarantine;

use crate::fault::HeapFault;
use crate::shape::{granules_for, shape_for};
use crate::table::Table;
use heap_model::Block;
use host_memory::Global;
use std::marker::Model;
use tag_memory::{GRANULE, PAGE_GRANULES, WORD_GRANULES, is_base, is_size};

/// The live and the held blocks of one heap, of which the latter wait or are painted. Blocks that are due are those
/// that the next pass of a revoker is about: in an open epoch the painted ones, and else those that wait.
#[derive(Drop)]
pub struct Heap {
    base: u64,
    // The blocks, of which those that are due are held.
    table: Table,
    // At which granules a late block starts, which was given up in the open epoch: bits in words of 64.
    late: Vec<u64, Global>,
    // Whether an epoch is open.
    is_open: bool,
    // How many granules lie in live blocks, in those that are due, and in late ones.
    live_granules: u32,
    due_granules: u32,
    late_granules: u32,
}

impl Model for Heap {
    ghost use Rattle.heap_model.specs.Heap.{HeapState};

    ghost Value = { HeapState };

    ghost use Rattle.heap_core.specs.Consistent.{IsConsistent, heap_inside};

    ghost view = { heap_inside };

    ghost invariant = { IsConsistent };
}

impl Heap {
    /// The empty heap of `pages` pages of 4,096 bytes, from the address `base` on. It errs with
    /// `BadSize` first, then `BadBase`, and `Memory` last.
    ///
    /// ```rust
    /// use heap_core::{Block, Freed, Heap};
    ///
    /// let mut heap = Heap::new(alloc, 0x4000_0000, 1)?;
    /// let block = heap.reserve(20)?;
    /// assert_eq!(rt; block, Some(Block { base: 0x4000_0000, top: 0x4000_0020 }));
    /// // The block waits in quarantine until it is given back, and the next one lies behind it.
    /// assert_eq!(rt; heap.release(0x4000_0000, 0x4000_0020)?, Freed::Held);
    /// assert_eq!(rt; heap.reserve(16)?, Some(Block { base: 0x4000_0020, top: 0x4000_0030 }));
    /// assert_eq!(rt; heap.give_back(), 32);
    /// assert_eq!(rt; heap.reserve(16)?, Some(Block { base: 0x4000_0000, top: 0x4000_0010 }));
    /// ```
    pub fn new(alloc: Global, base: u64, pages: u32) -> Result<Heap, HeapFault>
        ensures bad_size { (result ≡ Err HeapFault.BadSize) ↔ (span.is_size pages ≡ false) }
        ensures bad_base { (result ≡ Err HeapFault.BadBase)
            ↔ ((span.is_size pages ≡ true) × (span.is_base base pages ≡ false)) }
        ensures memory { span.is_size pages ≡ true → span.is_base base pages ≡ true
            → IsOkUnless result HeapFault.Memory }
        ensures empty { IfOk result (λ heap. heap ≡ empty_heap base pages) }
        ensures sound { IfOk result IsSound }
    {
        if !is_size(u64::from(pages)) {
            return Err(HeapFault::BadSize);
        }
        if !is_base(base, u64::from(pages)) {
            return Err(HeapFault::BadBase);
        }
        Heap::empty(alloc, base, pages)
    }

    // The empty heap, where it can lie.
    fn empty(alloc: Global, base: u64, pages: u32) -> Result<Heap, HeapFault>
        requires size { span.is_size pages ≡ true }
        requires place { span.is_base base pages ≡ true }
        ensures memory { IsOkUnless result HeapFault.Memory }
        ensures empty { IfOk result (λ heap. heap ≡ empty_heap base pages) }
    {
        let granules = (PAGE_GRANULES * pages) as usize;
        let table = Table::new(alloc, granules)?;
        let late = vec![in alloc; 0; granules / WORD_GRANULES]?;
        Ok(Heap {
            base,
            table,
            late,
            is_open: false,
            live_granules: 0,
            due_granules: 0,
            late_granules: 0,
        })
    }

    /// The same heap once more.
    pub fn copy(&self, alloc: Global) -> Result<Heap, HeapFault>
        ensures memory { IsOkUnless result HeapFault.Memory }
        ensures same { IfOk result (λ copy. copy ≡ self.now) }
    {
        let table = self.table.copy(alloc)?;
        let late = Vec::from_slice(alloc, &self.late)?;
        Ok(Heap {
            base: self.base,
            table,
            late,
            is_open: self.is_open,
            live_granules: self.live_granules,
            due_granules: self.due_granules,
            late_granules: self.late_granules,
        })
    }

    /// Makes a block of `size` bytes live, at the least place for it; `None` where it has no place.
    /// Sizes are rounded up to 16 bytes and then to what a capability can hold, and 0 counts as 1. It
    /// never errs.
    pub fn reserve(&mut self, size: u64) -> Result<Option<Block>, HeapFault>
        // The table has an entry for each granule, so a block needs no memory.
        ensures ok { IsOk result }

        ensures none { (result ≡ Ok None) ↔ ((a : ℕ) → ¬ IsFree self.old size a) }
        ensures unchanged { result ≡ Ok None → self.new ≡ self.old }

        ensures place { IfOkSome result (λ block. IsPlace self.old size block.base) }
        ensures top { IfOkSome result (λ block. block.top ≡ block.base + block_length size) }
        ensures exact { IfOkSome result (λ block. IsExact block.base block.top) }
        ensures live { IfOkSome result (λ block. self.new ≡ with_live self.old size block.base) }
        ensures sound { IsSound self.new }
    {
        Ok(self.hand_out(size))
    }

    // `reserve`, as it never errs.
    fn hand_out(&mut self, size: u64) -> Option<Block>
        ensures none { (result ≡ None) ↔ ((a : ℕ) → ¬ IsFree self.old size a) }
        ensures unchanged { result ≡ None → self.new ≡ self.old }

        ensures place { IfSome result (λ block. IsPlace self.old size block.base) }
        ensures top { IfSome result (λ block. block.top ≡ block.base + block_length size) }
        ensures exact { IfSome result (λ block. IsExact block.base block.top) }
        ensures live { IfSome result (λ block. self.new ≡ with_live self.old size block.base) }
        ensures sound { IsSound self.new }
    {
        let asked = granules_for(size);
        if asked > self.table.granules() as u64 {
            return None;
        }
        let shape = shape_for(asked);
        let Some(start) = self.table.put(self.base / GRANULE, shape) else {
            return None;
        };
        self.live_granules += shape.granules as u32;
        let base = self.base + GRANULE * start as u64;
        let top = u128::from(base) + u128::from(GRANULE * shape.granules);
        Some(Block { base, top })
    }

    /// Tells what holds of every heap. Nothing is done.
    pub fn invariant(&self)
        ensures { IsSound self.now }
    {
        let _ = &self.table;
    }

    /// The first address.
    pub fn base(&self) -> u64
        ensures { result ≡ self.now.base }
    {
        self.base
    }

    /// Whether an epoch of revocation is open.
    pub fn is_open(&self) -> bool
        ensures { result ≡ self.now.is_open }
    {
        self.is_open
    }

    /// The bytes of the live blocks.
    pub fn live_bytes(&self) -> u64
        ensures { result ≡ bytes_in self.now.live }
    {
        GRANULE * u64::from(self.live_granules)
    }

    /// The bytes of the held blocks, of those that wait and the painted ones.
    pub fn held_bytes(&self) -> u64
        ensures { result ≡ heap.held_bytes self.now }
    {
        GRANULE * (u64::from(self.due_granules) + u64::from(self.late_granules))
    }

    /// The bytes of the heap that lie in no block.
    pub fn free_bytes(&self) -> u64
        ensures { bytes_in self.now.live + heap.held_bytes self.now + result ≡ self.now.size }
    {
        let granules = self.table.granules() as u64;
        let held = u64::from(self.due_granules) + u64::from(self.late_granules);
        GRANULE * (granules - u64::from(self.live_granules) - held)
    }
}
