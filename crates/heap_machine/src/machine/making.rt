//! A machine of a heap, a memory and registers that are given.

ghost use Rattle.std.specs.Prelude.{◌≡◌, ◌<◌, ◌≤◌, ◌+◌, ◌*◌, ◌/◌, ◌%◌, ℕ, All, IfErr, IfOk, MatchOption, false, length, true};
ghost use Rattle.cap_codec.specs.Words.{base_of};
ghost use Rattle.heap_model.specs.Blocks.{lies_in};
ghost use Rattle.heap_model.specs.Sweep.{AreInDirtyPages};
ghost use Rattle.tag_memory.specs.Cells.{register_count};
ghost use Rattle.tag_memory.specs.Extent.{page_granules};
ghost use Rattle.tag_memory.specs.Tags.{is_set, is_tagged};
ghost use Rattle.heap_machine.specs.Making.{FirstLacks, HasGuarded, HasGuardedAt, IsFlaw, IsMakeable, LieTogether, StandsDirty, machine_of_fields};
ghost use Rattle.machine_steps.specs.Safety.{HoldsGuarded, IsGuarded};

use crate::machine::Machine;
use cap_codec::{Word, bounds};
use heap_core::Heap;
use machine_storage::Storage;
use sweep_pool::Cutting;
use tag_memory::{Memory, PAGE_GRANULES, REGISTERS, Registers, WORD_GRANULES, lowest_bit};

/// Why they are no machine: the first of these that is true, of registers and granules the first by its number.
#[derive(Debug, Clone, Copy, PartialEq, Eq)]
pub enum Flaw {
    /// The memory doesn't lie where the heap does.
    Elsewhere,
    /// This register is tagged, and no block has all of its bounds.
    Register(u8),
    /// This granule, counted from the base, is tagged, and no block has all bounds of its word.
    Granule(usize),
    /// This granule is tagged, the base of its word lies in a painted block, and its page is clean.
    Clean(usize),
}

impl Machine {
    /// The machine of these, where its state is safe, and what the painted blocks have in memory stands in dirty
    /// pages; else the first flaw.
    pub fn of(
        store: Heap,
        memory: Memory,
        registers: Registers,
        cutting: Cutting,
    ) -> Result<Machine, Flaw>
        ensures made { IfOk result (λ machine. machine ≡ machine_of_fields store memory registers cutting) }
        ensures may { IfOk result (λ machine. IsMakeable store memory registers cutting) }
        ensures flaw { IfErr result (IsFlaw store memory registers) }
    {
        store.invariant();
        memory.invariant();
        registers.invariant();
        if !lie_together(&store, &memory) {
            return Err(Flaw::Elsewhere);
        }
        if let Some(register) = first_unguarded_register(&store, &registers) {
            return Err(Flaw::Register(register));
        }
        if let Some(granule) = first_unguarded_granule(&store, &memory) {
            return Err(Flaw::Granule(granule));
        }
        if let Some(granule) = first_in_clean_page(&store, &memory) {
            return Err(Flaw::Clean(granule));
        }
        let storage = Storage {
            heap: store,
            memory,
            registers,
        };
        Ok(Machine { storage, cutting })
    }
}

// Whether a memory lies where a heap does.
fn lie_together(heap: &Heap, memory: &Memory) -> bool
    ensures yes { result ≡ true → LieTogether heap.now memory.now }
    ensures no { result ≡ false → ¬ LieTogether heap.now memory.now }
{
    memory.base() == heap.base() && memory.granules() == heap.granules()
}

/// Whether a word with this tag is guarded: it is untagged, or a block of the heap, live or held, has all of its bounds.
pub fn is_guarded(heap: &Heap, word: Word, tag: bool) -> bool
    ensures yes { result ≡ true → IsGuarded heap.now (word, tag) }
    ensures no { result ≡ false → ¬ IsGuarded heap.now (word, tag) }
{
    if !tag {
        return true;
    }
    let range = bounds(word);
    let Some((block, _)) = heap.block_of(range.base) else {
        return false;
    };
    u128::from(range.base) < range.top && range.top <= block.top
}

// The first register that isn't guarded.
fn first_unguarded_register(heap: &Heap, registers: &Registers) -> Option<u8>
    ensures { MatchOption result (All (IsGuarded heap.now) registers.now) (λ r. (r < register_count) × FirstLacks (HasGuarded heap.now registers.now) r) }
{
    registers.invariant();
    for r in 0..REGISTERS {
        let (word, tag) = registers.get(r);
        if !is_guarded(heap, word, tag) {
            return Some(r);
        }
    }
    None
}

// The lowest bit of a word that is 1, of those from bit `first` on.
fn lowest_from(word: u64, first: usize) -> Option<usize>
    requires { first < 64 }
    ensures { MatchOption result ((j : ℕ) → first ≤ j → is_set word j ≡ false) (λ j. (first ≤ j) × (j < 64) × (is_set word j ≡ true) × ((k : ℕ) → first ≤ k → k < j → is_set word k ≡ false)) }
{
    let rest = word >> first;
    if rest == 0 {
        return None;
    }
    Some(first + lowest_bit(rest))
}

// The first of the granules `from` to `end - 1` that is tagged. They are passed over by whole words of tags where these are 0.
fn first_tagged(memory: &Memory, from: usize, end: usize) -> Option<usize>
    requires within { end ≤ length memory.now.granules }
    requires words { end % 64 ≡ 0 }
    ensures { MatchOption result ((k : ℕ) → from ≤ k → k < end → is_tagged memory.now.granules k ≡ false) (λ i. (from ≤ i) × (i < end) × (is_tagged memory.now.granules i ≡ true) × ((k : ℕ) → from ≤ k → k < i → is_tagged memory.now.granules k ≡ false)) }
{
    if end <= from {
        return None;
    }
    let first = from / WORD_GRANULES;
    if let Some(j) = lowest_from(memory.tag_word(first), from % WORD_GRANULES) {
        return Some(WORD_GRANULES * first + j);
    }
    for w in first + 1..end / WORD_GRANULES {
        if let Some(j) = lowest_from(memory.tag_word(w), 0) {
            return Some(WORD_GRANULES * w + j);
        }
    }
    None
}

// The first granule that isn't guarded. One without a tag always is.
fn first_unguarded_granule(heap: &Heap, memory: &Memory) -> Option<usize>
    ensures { MatchOption result (All (HoldsGuarded heap.now) memory.now.granules) (λ i. (i < length memory.now.granules) × FirstLacks (HasGuardedAt heap.now memory.now) i) }
{
    memory.invariant();
    let end = memory.granules();
    let mut from = 0;
    while let Some(i) = first_tagged(memory, from, end) {
        let (bits, tag) = memory.cell(i);
        if !is_guarded(heap, Word { bits }, tag) {
            return Some(i);
        }
        from = i + 1;
    }
    None
}

// Whether the base of a word lies in a painted block.
fn is_painted(heap: &Heap, word: Word) -> bool
    ensures { result ≡ lies_in heap.now.painted (base_of word) }
{
    heap.invariant();
    heap.is_open() && heap.is_due(bounds(word).base)
}

// The first granule of a page that is tagged, with a base in a painted block: none, where the page is dirty.
fn first_in_page(heap: &Heap, memory: &Memory, page: u32) -> Option<usize>
    requires { page_granules * page + page_granules ≤ length memory.now.granules }
    ensures { MatchOption result ((k : ℕ) → k / page_granules ≡ page → StandsDirty heap.now memory.now k) (λ i. (i / page_granules ≡ page) × (¬ StandsDirty heap.now memory.now i) × ((k : ℕ) → k < i → k / page_granules ≡ page → StandsDirty heap.now memory.now k)) }
{
    if memory.dirty(page) {
        return None;
    }
    let start = PAGE_GRANULES as usize * page as usize;
    let end = start + PAGE_GRANULES as usize;
    let mut next = start;
    while let Some(i) = first_tagged(memory, next, end) {
        let (bits, _) = memory.cell(i);
        if is_painted(heap, Word { bits }) {
            return Some(i);
        }
        next = i + 1;
    }
    None
}

// The first granule that is tagged, with a base in a painted block, in a clean page.
fn first_in_clean_page(heap: &Heap, memory: &Memory) -> Option<usize>
    ensures { MatchOption result (AreInDirtyPages memory.now.granules memory.now.dirty heap.now.painted) (λ i. (i < length memory.now.granules) × FirstLacks (StandsDirty heap.now memory.now) i) }
{
    for page in 0..memory.pages() {
        if let Some(i) = first_in_page(heap, memory, page) {
            return Some(i);
        }
    }
    None
}
