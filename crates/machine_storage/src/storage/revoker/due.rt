//! Which tags a revoker takes: those of words whose base lies in a painted block.

ghost use Rattle.std.specs.Prelude.{◌≡◌, ◌≢◌, ◌<◌, ◌≤◌, ◌+◌, ◌-◌, ◌*◌, ◌/◌, ℕ, IfSome, None, false, length, slice_index_or, true};
ghost use Rattle.cap_codec.specs.Words.{base_of};
ghost use Rattle.heap_model.specs.Blocks.{lies_in};
ghost use Rattle.heap_model.specs.Heap.{due};
ghost use Rattle.heap_model.specs.Sweep.{takes_tag};
ghost use Rattle.sweep_masks.specs.Masks.{AreBits, takes_tag_at};
ghost use Rattle.tag_memory.specs.Cells.{cell_of};
ghost use Rattle.tag_memory.specs.Extent.{page_granules};
ghost use Rattle.tag_memory.specs.Tags.{is_set};
ghost use Rattle.revoker_steps.specs.Revoker.{IsNothingLeft};
ghost use Rattle.machine_storage.specs.RevokerDecision.{HasDue, HasNoDue};
ghost use Rattle.machine_storage.specs.Storage.{IsStorage, state_of};

use crate::storage::Storage;
use cap_codec::{Word, bounds};
use heap_core::due_registers;
use tag_memory::{FAR, GRANULE, PAGE_WORDS, WORD_GRANULES, lowest_bit, without_lowest};

impl Storage {
    // The index of the granule that an address lies in; `None` where the heap has no such address.
    pub(super) fn granule_at(&self, address: u64) -> Option<usize>
        requires { IsStorage self.now }
        ensures none { result ≡ None → (self.now.heap.base ≤ address → self.now.heap.base + self.now.heap.size ≤ address) }
        ensures from { IfSome result (λ i. self.now.heap.base ≤ address) }
        ensures before { IfSome result (λ i. address < self.now.heap.base + self.now.heap.size) }
        ensures index { IfSome result (λ i. i ≡ (address - self.now.heap.base) / 16) }
        ensures there { IfSome result (λ i. i < length self.now.memory.granules) }
    {
        let base = self.memory.base();
        if address < base {
            return None;
        }
        let i = ((address - base) / GRANULE) as usize;
        if i >= self.memory.granules() {
            return None;
        }
        Some(i)
    }

    // Whether the base of a granule's word lies in a block that is due. The memory keeps where it lies, so that it is decoded
    // only where that is far away.
    fn is_base_due(&self, i: usize) -> bool
        requires base { self.now.memory.base ≡ self.now.heap.base }
        requires granule { i < length self.now.memory.granules }
        ensures { result ≡ lies_in (due self.now.heap) (base_of (cell_of (slice_index_or self.now.memory.granules i (0, false))).0) }
    {
        let granule = self.memory.base_granule(i);
        if granule < FAR {
            return self.heap.is_granule_due(granule as usize);
        }
        let (bits, _) = self.memory.cell(i);
        self.heap.is_due(bounds(Word { bits }).base)
    }

    // Whether a revoker takes the tag of a granule.
    pub(super) fn is_granule_due(&self, i: usize) -> bool
        requires base { self.now.memory.base ≡ self.now.heap.base }
        requires granule { i < length self.now.memory.granules }
        ensures { result ≡ takes_tag_at self.now.memory (due self.now.heap) i }
    {
        let (_, tag) = self.memory.cell(i);
        tag && self.is_base_due(i)
    }

    // Whether it takes that of a register's word.
    pub(super) fn is_word_due(&self, word: Word, tag: bool) -> bool
        ensures { result ≡ takes_tag (due self.now.heap) (word, tag) }
    {
        tag && self.heap.is_due(bounds(word).base)
    }

    // The mask of word `w` of the tags: those of words whose base lies in a block that is due. Tagged granules alone are
    // looked at.
    fn due_mask(&self, w: usize) -> u64
        requires base { self.now.memory.base ≡ self.now.heap.base }
        requires within { 64 * w + 64 ≤ length self.now.memory.granules }
        ensures { (j : ℕ) → j < 64 → is_set result j ≡ takes_tag_at self.now.memory (due self.now.heap) (64 * w + j) }
    {
        // Called for what it ensures alone: the granules are fewer than 2^64.
        let _granules = self.memory.granules();
        let mut rest = self.memory.tag_word(w);
        let mut mask = 0;
        while rest != 0 {
            let j = lowest_bit(rest);
            let is_due = self.is_base_due(WORD_GRANULES * w + j);
            mask |= u64::from(is_due) << j;
            rest = without_lowest(rest);
        }
        mask
    }

    // The masks of a page.
    pub(super) fn page_masks(&self, page: u32) -> [u64; PAGE_WORDS]
        requires base { self.now.memory.base ≡ self.now.heap.base }
        requires page { page_granules * page + page_granules ≤ length self.now.memory.granules }
        ensures { AreBits (λ j. takes_tag_at self.now.memory (due self.now.heap) (page_granules * page + j)) page_granules result }
    {
        let mut masks = [0; PAGE_WORDS];
        for w in 0..PAGE_WORDS {
            masks[w] = self.due_mask(PAGE_WORDS * page as usize + w);
        }
        masks
    }

    // Whether a tagged granule of a page has its base in a block that is due.
    fn is_page_due(&self, page: u32) -> bool
        requires base { self.now.memory.base ≡ self.now.heap.base }
        requires page { page_granules * page + page_granules ≤ length self.now.memory.granules }
        ensures none { result ≡ false → HasNoDue self.now page }
        ensures some { result ≡ true → HasDue self.now }
    {
        for w in PAGE_WORDS * page as usize..PAGE_WORDS * (page as usize + 1) {
            if self.due_mask(w) != 0 {
                return true;
            }
        }
        false
    }

    // Whether one of memory has. Only dirty pages are looked at: no other has one.
    fn has_due_page(&self) -> bool
        requires storage { IsStorage self.now }
        requires opened { self.now.heap.is_open ≡ true }
        ensures none { result ≡ false → (page : ℕ) → HasNoDue self.now page }
        ensures some { result ≡ true → HasDue self.now }
    {
        for page in 0..self.memory.pages() {
            if self.memory.dirty(page) && self.is_page_due(page) {
                return true;
            }
        }
        false
    }

    // Whether a tagged word is left, in memory or in a register, whose base lies in a painted block.
    pub(super) fn has_left(&self) -> bool
        requires storage { IsStorage self.now }
        requires opened { self.now.heap.is_open ≡ true }
        ensures none { result ≡ false → IsNothingLeft (state_of self.now) self.now.heap.painted }
        ensures some { result ≡ true → ¬ IsNothingLeft (state_of self.now) self.now.heap.painted }
    {
        due_registers(&self.registers, &self.heap) != 0 || self.has_due_page()
    }
}
