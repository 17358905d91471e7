//! Tagged memory.

ghost use Rattle.std.specs.Prelude.{◌≡◌, ◌≢◌, ◌↔◌, ◌<◌, ◌≤◌, ◌+◌, ◌-◌, ◌*◌, ◌/◌, ℕ, IfOk, MatchOption, Some, count_by, false, length, slice_get, slice_index_or, slice_set, true};
ghost use Rattle.cap_codec.specs.Words.{base_of};
ghost use Rattle.tag_memory.specs.Bases as bases;
ghost use Rattle.tag_memory.specs.Cells.{IsMemory, all_clean, all_dirty, cell_of, is_dirty_at, marks_after, may_hold_at, new_memory};
ghost use Rattle.tag_memory.specs.Extent.{page_words};
ghost use Rattle.tag_memory.specs.Extent as extent;
ghost use Rattle.tag_memory.specs.Tags.{HasTag, is_set, is_tagged, without_page_tag, without_tags};
ghost use Rattle.tag_memory.specs.Tags as tags;

use crate::bases::base_granule;
use crate::bits::{WORD_GRANULES, bit, with_bit};
use crate::extent::{GRANULE, PAGE_GRANULES, is_base, is_size};
use crate::page_masks::take_page_tags;
use crate::pages::take_tags;
use host_memory::Global;
use std::alloc::AllocError;
use std::marker::Model;
use thiserror::Error;

/// Why there is no such memory.
#[derive(Debug, PartialEq, Drop, Error)]
pub enum MemoryFault {
    /// Memory of the simulator itself ran out.
    #[error("Memory")]
    Memory,
    /// The base is no multiple of 4,096, or the end is past `2^64`.
    #[error("BadBase")]
    BadBase,
    /// There are no pages, or more than 1,024.
    #[error("BadSize")]
    BadSize,
}

/// Words of tags a page.
pub const PAGE_WORDS: usize = PAGE_GRANULES as usize / WORD_GRANULES;

/// The granules of some pages, each 16 bytes with one tag. Bit `j` of word `w` of the tags is that of
/// granule `64 * w + j`. A page that may hold no tags has none.
#[derive(Drop)]
pub struct Memory {
    base: u64,
    pages: u32,
    bits: Vec<u128, Global>,
    // In which granule the base of each granule's word lies, so that a sweep decodes far bases alone.
    granules_of_bases: Vec<u32, Global>,
    tags: Vec<u64, Global>,
    may_hold: Vec<bool, Global>,
    // Into which pages a tagged word was written since all were made clean.
    dirty: Vec<bool, Global>,
}

impl Model for Memory {
    ghost use Rattle.tag_memory.specs.Cells.{MemoryState};

    ghost Value = { MemoryState };

    ghost use Rattle.tag_memory.specs.Packed.{ArePacked, memory_inside};

    ghost view = { memory_inside };

    ghost invariant = { ArePacked };
}

impl Memory {
    /// A memory of so many pages from `base` on, all zero and untagged. The size is judged before the
    /// base.
    ///
    /// ```rust
    /// use tag_memory::Memory;
    ///
    /// let mut memory = Memory::new(alloc, 0x4000_0000, 1)?;
    /// assert_eq!(rt; memory.granules(), 256);
    /// memory.put(3, 7, true);
    /// assert_eq!(rt; memory.cell(3), (7, true));
    /// assert!(rt; memory.dirty(0));
    /// ```
    pub fn new(alloc: Global, base: u64, pages: u32) -> Result<Memory, MemoryFault>
        ensures bad_size { (result ≡ Err MemoryFault.BadSize) ↔ (extent.is_size pages ≡ false) }
        ensures bad_base { (result ≡ Err MemoryFault.BadBase)
            ↔ ((extent.is_size pages ≡ true) × (extent.is_base base pages ≡ false)) }
        ensures made { IfOk result (λ memory. memory ≡ new_memory base pages) }
    {
        if !is_size(u64::from(pages)) {
            return Err(MemoryFault::BadSize);
        }
        if !is_base(base, u64::from(pages)) {
            return Err(MemoryFault::BadBase);
        }
        let Ok(bits) = vec![in alloc; 0; PAGE_GRANULES as usize * pages as usize] else {
            return Err(MemoryFault::Memory);
        };
        let Ok(granules_of_bases) = vec![in alloc; base_granule(base, 0); PAGE_GRANULES as usize
            * pages as usize] else {
            return Err(MemoryFault::Memory);
        };
        let Ok(tags) = vec![in alloc; 0; PAGE_WORDS * pages as usize] else {
            return Err(MemoryFault::Memory);
        };
        let Ok(may_hold) = vec![in alloc; false; pages as usize] else {
            return Err(MemoryFault::Memory);
        };
        let Ok(dirty) = vec![in alloc; false; pages as usize] else {
            return Err(MemoryFault::Memory);
        };
        Ok(Memory {
            base,
            pages,
            bits,
            granules_of_bases,
            tags,
            may_hold,
            dirty,
        })
    }

    /// The same memory once more.
    pub fn copy(&self, alloc: Global) -> Result<Memory, AllocError>
        ensures { IfOk result (λ copy. copy ≡ self.now) }
    {
        Ok(Memory {
            base: self.base,
            pages: self.pages,
            bits: Vec::from_slice(alloc, &self.bits)?,
            granules_of_bases: Vec::from_slice(alloc, &self.granules_of_bases)?,
            tags: Vec::from_slice(alloc, &self.tags)?,
            may_hold: Vec::from_slice(alloc, &self.may_hold)?,
            dirty: Vec::from_slice(alloc, &self.dirty)?,
        })
    }

    /// The first address.
    pub fn base(&self) -> u64
        ensures value { result ≡ self.now.base }
    {
        self.base
    }

    /// Tells what holds of every memory. Nothing is done.
    pub fn invariant(&self)
        ensures { IsMemory self.now }
    {
        let _ = &self.bits;
    }

    /// How many pages of 4,096 bytes there are.
    pub fn pages(&self) -> u32
        ensures { 256 * result ≡ length self.now.granules }
    {
        self.pages
    }

    /// How many granules of 16 bytes there are.
    pub fn granules(&self) -> usize
        ensures { result ≡ length self.now.granules }
    {
        self.bits.len()
    }

    /// Which granule begins at this address.
    pub fn granule_at(&self, address: u64) -> Option<usize>
        ensures { MatchOption result
            ((i : ℕ) → address ≡ self.now.base + 16 * i → i < length self.now.granules → ⊥)
            (λ i. (address ≡ self.now.base + 16 * i) × (i < length self.now.granules)) }
    {
        if address < self.base {
            return None;
        }
        let offset = address - self.base;
        if offset % GRANULE != 0 {
            return None;
        }
        let i = (offset / GRANULE) as usize;
        if i >= self.granules() {
            return None;
        }
        Some(i)
    }

    /// The number that a granule's bytes hold, and its tag. Granules are counted from the base.
    pub fn cell(&self, i: usize) -> (u128, bool)
        requires { i < length self.now.granules }
        ensures { slice_get self.now.granules i ≡ Some result }
    {
        (
            self.bits[i],
            bit(self.tags[i / WORD_GRANULES], i % WORD_GRANULES),
        )
    }

    /// The granule in which the base of a granule's word lies, tagged or not, counted from the base of the memory; `FAR`
    /// where that is none of the first `2^32 - 1`.
    pub fn base_granule(&self, i: usize) -> u32
        requires { i < length self.now.granules }
        ensures value { result ≡ bases.base_granule self.now.base (cell_of (slice_index_or self.now.granules i (0, false))).0 }
        ensures near { result < bases.far → self.now.base ≤ base_of (cell_of (slice_index_or self.now.granules i (0, false))).0 }
        ensures place { result < bases.far → (base_of (cell_of (slice_index_or self.now.granules i (0, false))).0 - self.now.base) / 16 ≡ result }
    {
        let granules = &self.granules_of_bases;
        granules[i]
    }

    /// Writes a granule's bytes and its tag. With one, its page may hold tags from then on, and is dirty.
    pub fn put(&mut self, i: usize, bits: u128, tag: bool)
        requires { i < length self.old.granules }
        ensures { self.new ≡ record self.old { granules = slice_set self.old.granules i (bits, tag); may_hold = marks_after self.old.may_hold i tag; dirty = marks_after self.old.dirty i tag } }
    {
        self.bits[i] = bits;
        self.granules_of_bases[i] = base_granule(self.base, bits);
        let word = &mut self.tags[i / WORD_GRANULES];
        *word = with_bit(*word, i % WORD_GRANULES, tag);
        if tag {
            let page = i / PAGE_GRANULES as usize;
            self.may_hold[page] = true;
            self.dirty[page] = true;
        }
    }

    /// Whether granules of this page may be tagged: since the last `clear_tags` after which none was, one
    /// was written with a tag. Pages are counted from the base.
    pub fn may_hold_tags(&self, page: u32) -> bool
        requires { 256 * page < length self.now.granules }
        ensures value { result ≡ may_hold_at self.now.may_hold page }
        ensures untagged { result ≡ false → (i : ℕ) → i / 256 ≡ page → is_tagged self.now.granules i ≡ false }
    {
        self.may_hold[page as usize]
    }

    /// Makes every page clean. Nothing else changes.
    pub fn mark_clean(&mut self)
        ensures { self.new ≡ record self.old { dirty = all_clean self.old.dirty } }
    {
        self.dirty.fill(false);
    }

    /// Makes every page dirty. Nothing else changes.
    pub fn mark_dirty(&mut self)
        ensures { self.new ≡ record self.old { dirty = all_dirty self.old.dirty } }
    {
        self.dirty.fill(true);
    }

    /// Makes this page clean. Nothing else changes. Pages are counted from the base.
    pub fn mark_page_clean(&mut self, page: u32)
        requires { 256 * page < length self.old.granules }
        ensures { self.new ≡ record self.old { dirty = slice_set self.old.dirty page false } }
    {
        let page = page as usize;
        self.dirty[page] = false;
    }

    /// Whether a tagged word was written into this page since it was made clean, or since the memory was
    /// made (Filardo et al. 2020, Cornucopia: capability dirty pages). Pages are counted from the base.
    pub fn dirty(&self, page: u32) -> bool
        requires { 256 * page < length self.now.granules }
        ensures { result ≡ is_dirty_at self.now.dirty page }
    {
        self.dirty[page as usize]
    }

    /// Whether some page is dirty.
    pub fn has_dirty(&self) -> bool
        ensures { (result ≡ false) ↔ ((page : ℕ) → is_dirty_at self.now.dirty page ≡ false) }
    {
        self.dirty.contains(&true)
    }

    /// The tags of granules `64 * w` to `64 * w + 63`, the first in bit 0.
    pub fn tag_word(&self, w: usize) -> u64
        requires { 64 * w < length self.now.granules }
        ensures value { result ≡ tags.tag_word self.now.granules w }
        ensures bits { (j : ℕ) → j < 64 → is_set result j ≡ is_tagged self.now.granules (64 * w + j) }
    {
        self.tags[w]
    }

    /// Takes each tag whose bit is 1 in the masks, which lie as the words of tags do. Then just the pages
    /// with a tagged granule may hold tags.
    pub fn clear_tags(&mut self, masks: &[u64])
        requires { 64 * length masks.now ≡ length self.old.granules }
        ensures base { self.new.base ≡ self.old.base }
        ensures granules { self.new.granules ≡ without_tags masks.now self.old.granules }
        ensures count { length self.new.granules ≡ length self.old.granules }
        ensures dirty { self.new.dirty ≡ self.old.dirty }
        ensures marks { (page : ℕ) → (may_hold_at self.new.may_hold page ≡ true) ↔ HasTag self.new.granules page }
    {
        for page in 0..self.may_hold.len() {
            let may_hold = self.may_hold[page];
            self.may_hold[page] = take_tags(&mut self.tags, masks, page, may_hold);
        }
    }

    /// Takes each tag of a page whose bit is 1 in its four masks, which lie as its words of tags do. Then it may hold
    /// tags just where it has a tagged granule; of other pages nothing changes.
    pub fn clear_page_tags(&mut self, page: u32, masks: &[u64])
        requires page { 256 * page < length self.old.granules }
        requires masks { length masks.now ≡ page_words }
        ensures base { self.new.base ≡ self.old.base }
        ensures granules { (i : ℕ) → slice_index_or self.new.granules i (0, false) ≡ without_page_tag page masks.now i (slice_index_or self.old.granules i (0, false)) }
        ensures count { length self.new.granules ≡ length self.old.granules }
        ensures dirty { self.new.dirty ≡ self.old.dirty }
        ensures mark { (may_hold_at self.new.may_hold page ≡ true) ↔ HasTag self.new.granules page }
        ensures marks { (other : ℕ) → other ≢ page → may_hold_at self.new.may_hold other ≡ may_hold_at self.old.may_hold other }
    {
        let at = page as usize;
        let may_hold = self.may_hold[at];
        self.may_hold[at] = take_page_tags(&mut self.tags, masks, at, may_hold);
    }

    /// How many granules are tagged.
    pub fn tagged(&self) -> usize
        ensures { result ≡ count_by (λ cell. cell.1) self.now.granules }
    {
        let mut count = 0;
        for word in &self.tags {
            count += word.count_ones() as usize;
        }
        count
    }
}
