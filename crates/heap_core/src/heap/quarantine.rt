//! Blocks that are given up, and wait until their bytes may be used again.

ghost use Rattle.std.specs.Prelude.{◌≡◌, ◌<◌, ◌≤◌, ◌↔◌, ◌+◌, ◌-◌, ◌*◌, ◌/◌, ◌^◌, ℕ, IfErr, IfOk, IfSome, IsOk, None, false, length, slice_set, true};
ghost use Rattle.cap_codec.specs.Rounding.{IsExact};
ghost use Rattle.heap_model.specs.Blocks.{bytes_in, lies_in};
ghost use Rattle.heap_model.specs.Claim.{IsClaim};
ghost use Rattle.heap_model.specs.Heap.{IsSound, due};
ghost use Rattle.heap_model.specs.Place.{IsFree, IsPlace, block_length, with_live};
ghost use Rattle.heap_model.specs.Shadow.{bits_of};
ghost use Rattle.heap_model.specs.Quarantine.{IsShadow, freed_of, with_epoch, with_waiting, without_due, without_epoch, without_waiting};

use crate::fault::HeapFault;
use crate::heap::Heap;
use granule_rows::set_run;
use heap_model::{Block, Freed, Obstacle, Shadow};
use host_memory::Global;
use tag_memory::GRANULE;

impl Heap {
    /// Gives up the live block with exactly these bounds: it waits from then on, and its bytes stay in use
    /// until they are given back. It never errs.
    pub fn release(&mut self, base: u64, top: u128) -> Result<Freed, HeapFault>
        // Bits are turned, which needs no memory.
        ensures answer { result ≡ Ok (freed_of self.old base top) }
        ensures held { result ≡ Ok Freed.Held → self.new ≡ with_waiting self.old base top }
        ensures unchanged { ¬ (result ≡ Ok Freed.Held) → self.new ≡ self.old }
        ensures sound { IsSound self.new }
    {
        Ok(self.give_up(base, top))
    }

    // `release`, as it never errs.
    fn give_up(&mut self, base: u64, top: u128) -> Freed
        ensures answer { result ≡ freed_of self.old base top }
        ensures held { result ≡ Freed.Held → self.new ≡ with_waiting self.old base top }
        ensures unchanged { ¬ (result ≡ Freed.Held) → self.new ≡ self.old }
        ensures sound { IsSound self.new }
    {
        let start = match self.table.live_at(&self.late, self.base, base, top) {
            Ok(start) => start,
            Err(freed) => return freed,
        };
        let granules = self.table.length_at(start);
        self.live_granules -= granules;
        if self.is_open {
            mark_late(&mut self.late, start);
            self.late_granules += granules;
        } else {
            self.table.make_due(start);
            self.due_granules += granules;
        }
        Freed::Held
    }

    /// What would become of these bounds if they were given up.
    pub fn freed_of(&self, base: u64, top: u128) -> Freed
        ensures { result ≡ freed_of self.now base top }
    {
        match self.table.live_at(&self.late, self.base, base, top) {
            Ok(_) => Freed::Held,
            Err(freed) => freed,
        }
    }

    /// Begins an epoch (Filardo et al. 2020, Cornucopia): all blocks that wait are painted, and blocks that are given
    /// up from then on wait for the next one.
    pub fn begin_epoch(&mut self)
        requires { self.old.is_open ≡ false }
        ensures begun { self.new ≡ with_epoch self.old }
        ensures sound { IsSound self.new }
    {
        self.is_open = true;
    }

    /// Whether an address lies in a block that is due now.
    pub fn is_due(&self, address: u64) -> bool
        ensures { result ≡ lies_in (due self.now) address }
    {
        if address < self.base {
            return false;
        }
        let granule = ((address - self.base) / GRANULE) as usize;
        if granule >= self.table.granules() {
            return false;
        }
        self.table.is_in_due_block(granule)
    }

    /// Whether a granule, counted from the heap's base, lies in a block that is due now. None past the last does.
    pub fn is_granule_due(&self, granule: usize) -> bool
        ensures { (address : ℕ) → self.now.base ≤ address → (address - self.now.base) / 16 ≡ granule → result ≡ lies_in (due self.now) address }
    {
        granule < self.table.granules() && self.table.is_in_due_block(granule)
    }

    /// The bytes of the blocks that are due now.
    pub fn due_bytes(&self) -> u64
        ensures { result ≡ bytes_in (due self.now) }
    {
        GRANULE * u64::from(self.due_granules)
    }

    /// Which granules lie in blocks that are due now.
    pub fn shadow(&self, alloc: Global) -> Result<Shadow, HeapFault>
        ensures memory { IfErr result (λ fault. fault ≡ HeapFault.Memory) }
        ensures shadow { IfOk result (λ shadow. IsShadow self.now shadow) }
    {
        let Ok(shadow) = self.table.shadow(alloc) else {
            return Err(HeapFault::Memory);
        };
        Ok(shadow)
    }

    /// Makes room for giving back. A heap needs none, so this never errs.
    pub fn prepare(&mut self) -> Result<(), HeapFault>
        ensures ok { IsOk result }
        ensures unchanged { self.new ≡ self.old }
    {
        Ok(())
    }

    /// Whether there is room to give back all held blocks. There always is.
    pub fn is_prepared(&self) -> bool
        ensures { result ≡ true }
    {
        true
    }

    /// Makes the blocks that are due free, and answers their bytes. An open epoch has ended then.
    pub fn give_back(&mut self) -> u64
        ensures bytes { result ≡ bytes_in (due self.old) }
        ensures free { self.new ≡ without_due self.old }
        ensures sound { IsSound self.new }
    {
        let bytes = GRANULE * u64::from(self.due_granules);
        if self.late_granules == 0 {
            self.drop_due();
        } else {
            self.end_epoch();
        }
        bytes
    }

    // Makes the blocks that are due free, where no other block is held. No epoch is open then.
    fn drop_due(&mut self)
        requires { self.old.is_open ≡ true → bytes_in self.old.waiting ≡ 0 }
        ensures { self.new ≡ without_due self.old }
    {
        self.table.free_due();
        self.due_granules = 0;
        self.is_open = false;
    }

    // Makes the painted blocks free and ends the epoch: the late blocks are due then.
    fn end_epoch(&mut self)
        requires { self.old.is_open ≡ true }
        ensures { self.new ≡ without_epoch self.old }
    {
        self.table.free_due();
        self.table.make_starts_due(&self.late);
        self.late.fill(0);
        self.due_granules = self.late_granules;
        self.late_granules = 0;
        self.is_open = false;
    }

    /// Makes the blocks that wait free, and then a block of `size` bytes live, at the least place for it. It
    /// answers the block, or `None` where it has no place, and the bytes given back. It never errs.
    pub fn give_back_and_reserve(&mut self, size: u64) -> Result<(Option<Block>, u64), HeapFault>
        requires { self.old.is_open ≡ false }
        // As `reserve`, it needs no memory.
        ensures ok { IsOk result }
        ensures bytes { IfOk result (λ done. done.1 ≡ bytes_in self.old.waiting) }

        ensures none { IfOk result (λ done. (done.0 ≡ None) ↔ ((a : ℕ) → ¬ IsFree (without_waiting self.old) size a)) }
        ensures free { IfOk result (λ done. done.0 ≡ None → self.new ≡ without_waiting self.old) }

        ensures place { IfOk result (λ done. IfSome done.0 (λ block. IsPlace (without_waiting self.old) size block.base)) }
        ensures top { IfOk result (λ done. IfSome done.0 (λ block. block.top ≡ block.base + block_length size)) }
        ensures exact { IfOk result (λ done. IfSome done.0 (λ block. IsExact block.base block.top)) }
        ensures live { IfOk result (λ done. IfSome done.0 (λ block. self.new ≡ with_live (without_waiting self.old) size block.base)) }
        ensures sound { IsSound self.new }
    {
        let waiting = self.give_back();
        Ok((self.hand_out(size), waiting))
    }

    /// Makes the blocks that wait free, and then the bytes from `base` on, before `top`, a live block, where they may
    /// be one then. Else nothing changes, and the first obstacle is answered.
    pub fn give_back_and_claim(&mut self, base: u64, top: u128) -> Result<(), Obstacle>
        requires { self.old.is_open ≡ false }
        ensures claim { IsClaim self.old (without_waiting self.old) base top result self.new }
        ensures sound { IsSound self.new }
    {
        self.invariant();
        let (first, granules) = self.granules_of(base, top)?;
        if let Some(block) = self.live_over(first, granules) {
            return Err(Obstacle::OverLive(block));
        }
        self.drop_due();
        self.claim(base, top)
    }
}

// Marks the first granule of a late block.
fn mark_late(late: &mut Vec<u64, Global>, start: usize)
    requires limit { length late.old.items ≤ 2 ^ 24 }
    requires within { start < 64 * length late.old.items }
    ensures { bits_of late.new.items ≡ slice_set (bits_of late.old.items) start true }
{
    set_run(late, start, start + 1);
}
