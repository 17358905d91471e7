//! Which tags a sweep takes.

ghost use Rattle.cap_codec.specs.Words.{base_of};
ghost use Rattle.heap_model.specs.Heap.{HeapState, due};
ghost use Rattle.std.specs.Prelude.{◌≡◌, ◌<◌, ◌≤◌, ◌*◌, ◌+◌, ◌^◌, ℕ, false, length, slice_index_or, true};
ghost use Rattle.heap_model.specs.Sweep.{takes_tag};
ghost use Rattle.sweep_masks.specs.Masks.{IsShadowOf, is_hit, is_hit_at};
ghost use Rattle.sweep_masks.specs.Masks as masks;
ghost use Rattle.sweep_masks.specs.Outside.{HasBaseOutside};
ghost use Rattle.sweep_masks.specs.declared.sweep.SweepFault.TheVariants.{Memory};
ghost use Rattle.tag_memory.specs.Bases as bases;
ghost use Rattle.tag_memory.specs.Cells.{cell_of, register_at, register_count};
ghost use Rattle.tag_memory.specs.Tags.{is_set, is_tagged};

use cap_codec::{Word, bounds};
use heap_model::Shadow;
use std::alloc::AllocError;
use tag_memory::{
    FAR, GRANULE, Memory, REGISTERS, Registers, WORD_GRANULES, lowest_bit, without_lowest,
};
use thiserror::Error;

// A word with so many tags or fewer is looked at tag by tag.
const FEW_TAGS: u32 = 4;

/// Why a sweep wasn't made.
#[derive(Debug, PartialEq, Drop, Error)]
pub enum SweepFault {
    /// An allocation was refused.
    #[error("Memory")]
    Memory,
}

impl From<AllocError> for SweepFault {
    ghost from_gives = { λ _ e. e ≡ Memory };

    fn from(_: AllocError) -> SweepFault {
        SweepFault::Memory
    }
}

// Whether an address lies in a painted granule of the heap that starts at `base`.
fn is_painted(shadow: &Shadow, base: u64, address: u64) -> bool
    ensures { result ≡ masks.is_painted shadow.now base address }
{
    if address < base {
        return false;
    }
    let granule = ((address - base) / GRANULE) as usize;
    if granule >= shadow.granules() {
        return false;
    }
    shadow.painted(granule)
}

// How many of a shadow's granules, counted from the first, a memory may name as a base's.
fn near_granules(shadow: &Shadow) -> usize
    ensures inside { result ≤ length shadow.now }
    ensures near { result ≤ bases.far }
{
    let granules = shadow.granules();
    if granules < FAR as usize {
        return granules;
    }
    FAR as usize
}

// Whether the base of granule `i`'s word lies in a painted granule. The memory keeps where it lies, so that it is decoded
// only where that is far away; the first `near` granules, where most lie, are asked for by one comparison.
fn is_base_painted(memory: &Memory, shadow: &Shadow, near: usize, i: usize) -> bool
    requires granule { i < length memory.now.granules }
    requires inside { near ≤ length shadow.now }
    requires near { near ≤ bases.far }
    ensures { result ≡ masks.is_painted shadow.now memory.now.base (base_of (cell_of (slice_index_or memory.now.granules i (0, false))).0) }
{
    let granule = memory.base_granule(i);
    if (granule as usize) < near {
        return shadow.painted(granule as usize);
    }
    if granule == FAR {
        let (bits, _) = memory.cell(i);
        return is_painted(shadow, memory.base(), bounds(Word { bits }).base);
    }
    is_granule_painted(shadow, granule as usize)
}

// Whether a granule is painted: none past the last is.
fn is_granule_painted(shadow: &Shadow, granule: usize) -> bool
    ensures { result ≡ slice_index_or shadow.now granule false }
{
    granule < shadow.granules() && shadow.painted(granule)
}

// Whether a word of tags has so many that to look at the bases of all its 64 granules at once costs less than to look at
// those of the tagged ones.
fn is_dense(tags: u64) -> bool {
    let mut rest = tags;
    for _ in 0..FEW_TAGS {
        rest &= rest.wrapping_sub(1);
    }
    rest != 0
}

// Whether the base of a granule's word lies between these granules.
#[inline(always)]
fn is_base_between(memory: &Memory, i: usize, first: u32, end: u32) -> bool
    requires { i < length memory.now.granules }
    ensures { result ≡ false → HasBaseOutside memory.now first end i }
{
    let granule = memory.base_granule(i);
    (first <= granule) & (granule < end)
}

// Whether one of the granules of word `w` has its base between these granules. All are looked at, in a row of comparisons,
// whether tagged or not.
#[inline(never)]
fn has_base_between(memory: &Memory, w: usize, first: u32, end: u32) -> bool
    requires { 64 * w + 64 ≤ length memory.now.granules }
    ensures { result ≡ false → (j : ℕ) → j < 64 → HasBaseOutside memory.now first end (64 * w + j) }
{
    // Called for what it ensures alone: the granules are fewer than 2^64.
    let _granules = memory.granules();
    let mut is_between = false;
    for j in 0..WORD_GRANULES {
        is_between |= is_base_between(memory, WORD_GRANULES * w + j, first, end);
    }
    is_between
}

// Whether a word of tags has none that the pass takes, for a reason that takes no look at its tags one by one: where the
// painted granules lie in a small part of the heap, none of its bases may.
fn is_passed_over(memory: &Memory, shadow: &Shadow, w: usize) -> bool
    requires { 64 * w + 64 ≤ length memory.now.granules }
    ensures { result ≡ true → (j : ℕ) → j < 64 → is_hit_at memory.now shadow.now (64 * w + j) ≡ false }
{
    let Some((first, end)) = shadow.painted_part() else {
        return false;
    };
    is_dense(memory.tag_word(w)) && !has_base_between(memory, w, first, end)
}

/// The mask of word `w` of the tags. The word isn't looked at where its page may hold no tags, and none of
/// its 64 granules where it is 0.
#[inline]
pub(crate) fn word_mask(memory: &Memory, shadow: &Shadow, w: usize, may_hold: bool) -> u64
    requires within { 64 * w + 64 ≤ length memory.now.granules }
    requires untagged { may_hold ≡ false → (j : ℕ) → j < 64 → is_tagged memory.now.granules (64 * w + j) ≡ false }
    ensures { (j : ℕ) → j < 64 → is_set result j ≡ is_hit_at memory.now shadow.now (64 * w + j) }
{
    if !may_hold || memory.tag_word(w) == 0 || is_passed_over(memory, shadow, w) {
        return 0;
    }
    tagged_mask(memory, shadow, w)
}

// The same, tag by tag.
#[inline(never)]
fn tagged_mask(memory: &Memory, shadow: &Shadow, w: usize) -> u64
    requires { 64 * w + 64 ≤ length memory.now.granules }
    ensures { (j : ℕ) → j < 64 → is_set result j ≡ is_hit_at memory.now shadow.now (64 * w + j) }
{
    // Called for what it ensures alone: the granules are fewer than 2^64.
    let _granules = memory.granules();
    let mut rest = memory.tag_word(w);
    let mut mask = 0;
    let near = near_granules(shadow);
    while rest != 0 {
        let j = lowest_bit(rest);
        let is_hit = is_base_painted(memory, shadow, near, WORD_GRANULES * w + j);
        mask |= u64::from(is_hit) << j;
        rest = without_lowest(rest);
    }
    mask
}

// Whether a register is tagged, and the base of its word lies in a painted granule.
fn is_register_hit(registers: &Registers, shadow: &Shadow, base: u64, r: u8) -> bool
    requires { r < register_count }
    ensures { result ≡ is_hit shadow.now base (register_at registers.now r) }
{
    let (word, tag) = registers.get(r);
    if !tag {
        return false;
    }
    is_painted(shadow, base, bounds(word).base)
}

/// Bit `r` is 1 exactly where register `r` is tagged and the base of its word lies in a painted granule
/// of the heap that starts at `base`, which for that heap's shadow is in a block that is due.
pub fn swept_registers(registers: &Registers, shadow: &Shadow, base: u64) -> u32
    ensures due { (heap : HeapState) → IsShadowOf heap base shadow.now
        → (r : ℕ) → r < register_count → is_set result r ≡ takes_tag (due heap) (register_at registers.now r) }
    ensures painted { (r : ℕ) → r < register_count → is_set result r ≡ is_hit shadow.now base (register_at registers.now r) }
{
    let mut mask = 0;
    for r in 0..REGISTERS {
        if is_register_hit(registers, shadow, base, r) {
            mask |= 1 << r;
        }
    }
    mask
}
