//! The blocks of a heap, by the granules at which they start.

ghost use Rattle.std.specs.Prelude.{◌≡◌, ◌≢◌, ◌<◌, ◌≤◌, ◌+◌, ◌*◌, ◌/◌, ◌%◌, ◌^◌, ◌&&◌, if◌then◌else◌, ℕ, IfErr, IfOk, IfSome, MatchOption, false, length, replicate, slice_index, slice_index_or, slice_set, true};
ghost use Rattle.granule_rows.specs.Runs.{is_within};
ghost use Rattle.heap_core.specs.Painting.{IsPainted};
ghost use Rattle.heap_core.specs.Consistent.{either_mark};
ghost use Rattle.heap_model.specs.Shadow.{bits_of};
ghost use Rattle.heap_core.specs.Table.{AreBlocks, IsBlockAt, IsFirstGap, IsFirstPast, IsGap, IsDueStart, IsLiveAt, IsNoLive, NonePast, ReachesPast, has_mark, marked_count, is_marked, is_unmarked, is_occupied, kept_lengths};
ghost use Rattle.mark_board.specs.Board.{IsOf};
ghost use Rattle.tag_memory.specs.Tags.{is_set, is_set_for};

use crate::painting::paint_row;
use crate::rows::Rows;
use crate::shape::Shape;
use granule_rows::{count_both, last_set, place_of_both, row_bit};
use heap_model::{Block, Freed, Kind, Shadow};
use host_memory::Global;
use mark_board::{Board, MarkSeat};
use std::alloc::AllocError;
use std::marker::Model;
use tag_memory::{GRANULE, WORD_GRANULES, lowest_bit, without_lowest};

/// The blocks over the granules of one heap, and which of them are due.
#[derive(Drop)]
pub struct Table {
    // The length in granules of the block that starts at a granule, where one does. Where none does
    // an entry may be left over from an earlier block.
    lengths: Vec<u32, Global>,
    rows: Rows,
}

impl Model for Table {
    ghost use Rattle.heap_core.specs.Table.{TableState};

    ghost Value = { TableState };

    ghost use Rattle.heap_core.specs.Stored.{AreStored, view_of};

    ghost view = { view_of };

    ghost invariant = { AreStored };
}

impl Table {
    /// The table of so many granules, without blocks.
    pub fn new(alloc: Global, granules: usize) -> Result<Table, AllocError>
        requires some { 0 < granules }
        requires limit { granules ≤ 2 ^ 18 }
        requires whole { granules % 256 ≡ 0 }
        ensures lengths { IfOk result (λ table. table.lengths ≡ replicate granules 0) }
        ensures marks { IfOk result (λ table. table.marks ≡ replicate granules false) }
    {
        let lengths = vec![in alloc; 0; granules]?;
        let rows = Rows::new(alloc, granules)?;
        Ok(Table { lengths, rows })
    }

    /// The same table once more.
    pub fn copy(&self, alloc: Global) -> Result<Table, AllocError>
        ensures { IfOk result (λ copy. copy ≡ self.now) }
    {
        let lengths = Vec::from_slice(alloc, &self.lengths)?;
        let rows = self.rows.copy(alloc)?;
        Ok(Table { lengths, rows })
    }

    /// How many granules there are.
    pub fn granules(&self) -> usize
        ensures { result ≡ length self.now.lengths }
    {
        self.lengths.len()
    }

    /// Puts a block of this shape at the first granule where it fits, and answers that granule.
    /// Multiples of its unit are counted from address 0, of which the first granule is granule `origin`.
    pub fn put(&mut self, origin: u64, shape: Shape) -> Option<usize>
        requires origin { origin ≤ 2 ^ 60 }
        requires some { 0 < shape.granules }
        requires unit { 0 < shape.unit }
        requires unit_limit { shape.unit ≤ 2 ^ 60 }
        ensures none { result ≡ None → (p : ℕ) → IsGap self.old.lengths p shape.granules → ¬ ((origin + p) % shape.unit ≡ 0) }
        ensures unchanged { result ≡ None → self.new ≡ self.old }
        ensures first { IfSome result (λ p. IsFirstGap origin shape.unit self.old.lengths p shape.granules) }
        ensures lengths { IfSome result (λ p. self.new.lengths ≡ slice_set self.old.lengths p shape.granules) }
        ensures marks { IfSome result (λ p. self.new.marks ≡ slice_set self.old.marks p false) }
    {
        let granules = shape.granules as usize;
        let start = self.rows.free.first_multiple(granules, origin, shape.unit)?;
        self.put_in_gap(start, granules);
        Some(start)
    }

    /// Puts a block of so many granules at this one, and answers whether it did: where they lie in no block.
    pub fn put_at(&mut self, start: usize, granules: usize) -> bool
        requires some { 0 < granules }
        ensures taken { result ≡ false → ¬ IsGap self.old.lengths start granules }
        ensures unchanged { result ≡ false → self.new ≡ self.old }
        ensures gap { result ≡ true → IsGap self.old.lengths start granules }
        ensures lengths { result ≡ true → self.new.lengths ≡ slice_set self.old.lengths start granules }
        ensures marks { result ≡ true → self.new.marks ≡ slice_set self.old.marks start false }
    {
        let Some(first) = self.rows.free.next_run(granules, start) else {
            return false;
        };
        if first != start {
            return false;
        }
        self.put_in_gap(start, granules);
        true
    }

    /// The granule at which the first block starts that reaches past granule `first` and starts before `end`, of those
    /// that are held, or of those that are not. Late blocks are held too: these are their starts.
    pub fn first_past(
        &self,
        late: &[u64],
        wants_held: bool,
        first: usize,
        end: usize,
    ) -> Option<usize>
        requires order { first < end }
        requires end { end ≤ length self.now.lengths }
        requires limit { length self.now.lengths ≤ 2 ^ 18 }
        requires bits { 64 * length late.now ≡ length self.now.lengths }
        requires same { length self.now.marks ≡ length self.now.lengths }
        requires apart { (j k : ℕ) → j < k → 0 < slice_index self.now.lengths k → j + slice_index self.now.lengths j ≤ k }
        ensures { MatchOption result
            (NonePast (has_mark wants_held) self.now.lengths (either_mark self.now.marks (bits_of late.now)) first end)
            (λ p. (p < end) × IsFirstPast (has_mark wants_held) self.now.lengths (either_mark self.now.marks (bits_of late.now)) first p) }
    {
        for start in self.reaching_start(first)..end {
            if self.is_past(late, wants_held, first, start) {
                return Some(start);
            }
        }
        None
    }

    // Whether a block that is held, or one that isn't, starts at a granule and reaches past granule `first`.
    fn is_past(&self, late: &[u64], wants_held: bool, first: usize, start: usize) -> bool
        requires inside { start < length self.now.lengths }
        requires limit { length self.now.lengths ≤ 2 ^ 18 }
        requires bits { 64 * length late.now ≡ length self.now.lengths }
        requires same { length self.now.marks ≡ length self.now.lengths }
        ensures yes { result ≡ true → ReachesPast (has_mark wants_held) self.now.lengths (either_mark self.now.marks (bits_of late.now)) first start }
        ensures no { result ≡ false → ¬ ReachesPast (has_mark wants_held) self.now.lengths (either_mark self.now.marks (bits_of late.now)) first start }
    {
        let granules = self.length_at(start) as usize;
        if granules == 0 || start + granules <= first {
            return false;
        }
        self.is_held(late, start) == wants_held
    }

    // Whether a block starts at a granule that is held: due, or late.
    fn is_held(&self, late: &[u64], granule: usize) -> bool
        requires inside { granule < length self.now.lengths }
        requires bits { 64 * length late.now ≡ length self.now.lengths }
        requires same { length self.now.marks ≡ length self.now.lengths }
        ensures { result ≡ slice_index_or (either_mark self.now.marks (bits_of late.now)) granule false }
    {
        self.is_due_at(granule) || row_bit(late, granule)
    }

    /// What is so of the block that starts at a granule, where an epoch is open or where none is. Late blocks wait: these
    /// are their starts.
    pub fn kind_at(&self, late: &[u64], is_open: bool, granule: usize) -> Kind
        requires inside { granule < length self.now.lengths }
        requires bits { 64 * length late.now ≡ length self.now.lengths }
        ensures due { slice_index_or self.now.marks granule false ≡ true → result ≡ (if is_open then Kind.Painted else Kind.Waiting) }
        ensures late { slice_index_or self.now.marks granule false ≡ false → slice_index_or (bits_of late.now) granule false ≡ true → result ≡ Kind.Waiting }
        ensures live { slice_index_or self.now.marks granule false ≡ false → slice_index_or (bits_of late.now) granule false ≡ false → result ≡ Kind.Live }
    {
        if self.is_due_at(granule) {
            if is_open {
                return Kind::Painted;
            }
            return Kind::Waiting;
        }
        if row_bit(late, granule) {
            return Kind::Waiting;
        }
        Kind::Live
    }

    /// The granule at which the block starts that has this one, or this one where none has: no block that starts before
    /// reaches past it.
    pub fn reaching_start(&self, granule: usize) -> usize
        requires inside { granule < length self.now.lengths }
        requires apart { (j k : ℕ) → j < k → 0 < slice_index self.now.lengths k → j + slice_index self.now.lengths j ≤ k }
        ensures within { result ≤ granule }
        ensures before { (k : ℕ) → k < result → k + slice_index self.now.lengths k ≤ granule }
        ensures last { (k : ℕ) → result < k → k ≤ granule → slice_index self.now.lengths k ≡ 0 }
    {
        // No block reaches past a free granule, and any other one lies in the last block that starts up to it.
        if self.rows.free.is_free(granule) {
            return granule;
        }
        last_set(&self.rows.starts, granule).unwrap_or(granule)
    }

    /// The block that starts at a granule, in the table of a heap at `base`.
    pub fn block_from(&self, base: u64, granule: usize) -> Block
        requires inside { granule < length self.now.lengths }
        requires end { base + 16 * granule + 16 * slice_index self.now.lengths granule ≤ 2 ^ 64 }
        requires some { 0 < slice_index self.now.lengths granule }
        ensures base { result.base ≡ base + 16 * granule }
        ensures top { result.top ≡ base + 16 * granule + 16 * slice_index self.now.lengths granule }
    {
        let start = base + GRANULE * granule as u64;
        let bytes = GRANULE * u64::from(self.length_at(granule));
        Block {
            base: start,
            top: u128::from(start) + u128::from(bytes),
        }
    }

    // Puts a block of so many granules at this one, where they lie in no block.
    fn put_in_gap(&mut self, start: usize, granules: usize)
        requires gap { IsGap self.old.lengths start granules }
        ensures lengths { self.new.lengths ≡ slice_set self.old.lengths start granules }
        ensures marks { self.new.marks ≡ slice_set self.old.marks start false }
    {
        let _lengths = &self.lengths;
        self.lengths[start] = granules as u32;
        self.rows.put(start, granules);
    }

    /// The granule at which the block from `start` to `top` starts, if it is one, in the table of a heap
    /// at `base`.
    pub fn block_at(&self, base: u64, start: u64, top: u128) -> Option<usize>
        ensures some { (k : ℕ) → result ≡ Some k → IsBlockAt base self.now.lengths start top k }
        ensures none { result ≡ None → (k : ℕ) → ¬ IsBlockAt base self.now.lengths start top k }
    {
        if start < base {
            return None;
        }
        let offset = start - base;
        if !offset.is_multiple_of(GRANULE) {
            return None;
        }
        let index = (offset / GRANULE) as usize;
        if index >= self.granules() {
            return None;
        }
        let bytes = GRANULE * u64::from(self.length_at(index));
        if bytes == 0 || top != u128::from(start) + u128::from(bytes) {
            return None;
        }
        Some(index)
    }

    /// The granule at which the live block from `start` to `top` starts, in the table of a heap at `base`; else what
    /// becomes of these bounds where they are given up. Late blocks are held: these are their starts.
    pub fn live_at(&self, late: &[u64], base: u64, start: u64, top: u128) -> Result<usize, Freed>
        requires bits { 64 * length late.now ≡ length self.now.lengths }
        requires same { length self.now.marks ≡ length self.now.lengths }
        ensures live { IfOk result (λ k. IsLiveAt base self.now.lengths (either_mark self.now.marks (bits_of late.now)) start top k) }
        ensures other { IfErr result (λ freed. IsNoLive base self.now.lengths (either_mark self.now.marks (bits_of late.now)) start top freed) }
    {
        let Some(granule) = self.block_at(base, start, top) else {
            return Err(Freed::NotBlock);
        };
        if self.is_held(late, granule) {
            return Err(Freed::AlreadyHeld);
        }
        Ok(granule)
    }

    /// How many granules the block has that starts at a granule, or 0 where none starts.
    pub fn length_at(&self, granule: usize) -> u32
        requires { granule < length self.now.lengths }
        ensures { result ≡ slice_index self.now.lengths granule }
    {
        if row_bit(&self.rows.starts, granule) {
            self.lengths[granule]
        } else {
            0
        }
    }

    /// Whether a due block starts at a granule.
    pub fn is_due_at(&self, granule: usize) -> bool
        requires { granule < length self.now.lengths }
        ensures { result ≡ slice_index_or self.now.marks granule false }
    {
        row_bit(&self.rows.starts, granule) && row_bit(&self.rows.due, granule)
    }

    /// Whether a granule lies in a due block.
    pub fn is_in_due_block(&self, granule: usize) -> bool
        requires { granule < length self.now.lengths }
        ensures { result ≡ is_occupied granule (kept_lengths is_marked self.now.lengths self.now.marks) }
    {
        row_bit(&self.rows.due, granule)
    }

    /// Makes the live block that starts at a granule due.
    pub fn make_due(&mut self, granule: usize)
        requires inside { granule < length self.old.lengths }
        requires block { 0 < slice_index self.old.lengths granule }
        requires live { slice_index_or self.old.marks granule false ≡ false }
        requires end { (j : ℕ) → j < length self.old.lengths → j + slice_index self.old.lengths j ≤ length self.old.lengths }
        requires apart { (j k : ℕ) → j < k → 0 < slice_index self.old.lengths k → j + slice_index self.old.lengths j ≤ k }
        ensures lengths { self.new.lengths ≡ self.old.lengths }
        ensures marks { self.new.marks ≡ slice_set self.old.marks granule true }
    {
        let granules = self.length_at(granule);
        self.rows.make_due(granule, granules as usize);
    }

    /// Makes those live blocks due at whose first granules these bits are 1. No block is due before.
    pub fn make_starts_due(&mut self, starts: &[u64])
        requires bits { 64 * length starts.now ≡ length self.old.lengths }
        requires limit { length self.old.lengths ≤ 2 ^ 18 }
        requires same { length self.old.marks ≡ length self.old.lengths }
        requires none { (k : ℕ) → slice_index_or self.old.marks k false ≡ false }
        requires blocks { (k : ℕ) → is_set_for starts.now k ≡ true → 0 < slice_index self.old.lengths k }
        requires end { (j : ℕ) → j < length self.old.lengths → j + slice_index self.old.lengths j ≤ length self.old.lengths }
        requires apart { (j k : ℕ) → j < k → 0 < slice_index self.old.lengths k → j + slice_index self.old.lengths j ≤ k }
        ensures lengths { self.new.lengths ≡ self.old.lengths }
        ensures count { length self.new.marks ≡ length self.old.marks }
        ensures marks { (k : ℕ) → slice_index_or self.new.marks k false ≡ is_set_for starts.now k }
    {
        for w in 0..starts.len() {
            self.make_word_due(w, starts[w]);
        }
    }

    // Makes those due at whose first granules the bits of one word are 1.
    fn make_word_due(&mut self, w: usize, word: u64)
        requires word { 64 * w + 64 ≤ length self.old.lengths }
        requires limit { length self.old.lengths ≤ 2 ^ 18 }
        requires same { length self.old.marks ≡ length self.old.lengths }
        requires none { (j : ℕ) → j < 64 → slice_index_or self.old.marks (64 * w + j) false ≡ false }
        requires blocks { (j : ℕ) → j < 64 → is_set word j ≡ true → 0 < slice_index self.old.lengths (64 * w + j) }
        requires end { (j : ℕ) → j < length self.old.lengths → j + slice_index self.old.lengths j ≤ length self.old.lengths }
        requires apart { (j k : ℕ) → j < k → 0 < slice_index self.old.lengths k → j + slice_index self.old.lengths j ≤ k }
        ensures lengths { self.new.lengths ≡ self.old.lengths }
        ensures count { length self.new.marks ≡ length self.old.marks }
        ensures here { (j : ℕ) → j < 64 → slice_index_or self.new.marks (64 * w + j) false ≡ is_set word j }
        ensures rest { (k : ℕ) → k / 64 ≢ w → slice_index_or self.new.marks k false ≡ slice_index_or self.old.marks k false }
    {
        let mut rest = word;
        while rest != 0 {
            self.make_due(WORD_GRANULES * w + lowest_bit(rest));
            rest = without_lowest(rest);
        }
    }

    /// Takes the due blocks away.
    pub fn free_due(&mut self)
        requires apart { (j k : ℕ) → j < k → 0 < slice_index self.old.lengths k → j + slice_index self.old.lengths j ≤ k }
        ensures lengths { self.new.lengths ≡ kept_lengths is_unmarked self.old.lengths self.old.marks }
        ensures marks { self.new.marks ≡ replicate (length self.old.lengths) false }
    {
        self.rows.give_back();
    }

    /// Which granules lie in due blocks.
    pub fn shadow(&self, alloc: Global) -> Result<Shadow, AllocError>
        ensures granules { IfOk result (λ shadow. length shadow ≡ length self.now.lengths) }
        ensures painted { IfOk result (λ shadow. (k : ℕ) → k < length self.now.lengths
            → slice_index_or shadow k false ≡ is_occupied k (kept_lengths is_marked self.now.lengths self.now.marks)) }
    {
        let (first, end) = self.rows.due_part();
        Shadow::of_row(alloc, &self.rows.due, first, end)
    }

    /// How many due blocks there are.
    pub fn due_count(&self) -> usize
        ensures count { result ≡ marked_count self.now.marks }
        ensures some { AreBlocks self.now.lengths self.now.marks }
    {
        count_both(&self.rows.starts, &self.rows.due)
    }

    /// The granule at which the due block starts that has `n` before it, or the end of the table where the last
    /// one has fewer.
    pub fn due_start(&self, n: usize) -> usize
        ensures start { n ≤ marked_count self.now.marks → IsDueStart self.now.lengths self.now.marks n result }
        ensures past { marked_count self.now.marks ≤ n → result ≡ length self.now.lengths }
        ensures some { AreBlocks self.now.lengths self.now.marks }
    {
        place_of_both(&self.rows.starts, &self.rows.due, n)
    }

    /// Paints the granules of due blocks from `from` on and before `to`.
    pub fn paint_due(&self, board: &Board, seat: &mut MarkSeat, from: usize, to: usize)
        requires board { IsOf board.now seat.old }
        requires bits { board.now.bits ≡ length self.now.lengths }
        requires within { to ≤ length self.now.lengths }
        ensures { IsPainted (λ k. is_within from to k && is_occupied k (kept_lengths is_marked self.now.lengths self.now.marks)) board.now seat.old seat.new }
    {
        paint_row(&self.rows.due, board, seat, from, to);
    }
}
