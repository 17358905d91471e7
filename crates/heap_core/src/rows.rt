//! The granules of a heap, in rows of bits.

ghost use Rattle.std.specs.Prelude.{◌≡◌, ◌<◌, ◌≤◌, ◌+◌, ◌*◌, ◌%◌, ◌^◌, ◌&&◌, ◌||◌, ◌/◌, not, ℕ, IfOk, false, length, slice_index, true};
ghost use Rattle.granule_rows.specs.Runs.{is_within};
ghost use Rattle.heap_model.specs.Near.{LieBetween};
ghost use Rattle.heap_core.specs.Rows.{AreGiven, AreRows, row_granules};
ghost use Rattle.tag_memory.specs.Tags.{is_set_for};

use granule_rows::{FreeRow, clear_run, clear_words, last_set, set_run};
use host_memory::Global;
use std::alloc::AllocError;
use tag_memory::{WORD_GRANULES, lowest_bit, without_lowest};

// Bits and words of a row that the granules of one page have.
const PAGE_BITS: usize = 256;

const PAGE_ROW_WORDS: usize = PAGE_BITS / WORD_GRANULES;

/// Rows with one bit for each granule of a heap, and one with a bit for each page.
#[derive(Drop)]
pub struct Rows {
    /// Granules that lie in no block.
    pub free: FreeRow,
    /// Granules at which a block starts.
    pub starts: Vec<u64, Global>,
    /// Granules that lie in due blocks: the shadow, kept up as blocks are released.
    pub due: Vec<u64, Global>,
    /// Pages that have such a granule, and maybe some that have none.
    pub due_pages: Vec<u64, Global>,
}

impl Rows {
    /// The rows of a heap without blocks.
    pub fn new(alloc: Global, granules: usize) -> Result<Rows, AllocError>
        requires some { 0 < granules }
        requires limit { granules ≤ 2 ^ 18 }
        requires whole { granules % 256 ≡ 0 }
        ensures rows { IfOk result AreRows }
        ensures count { IfOk result (λ rows. row_granules rows ≡ granules) }
        ensures free { IfOk result (λ rows. (k : ℕ) → is_set_for rows.free k ≡ is_within 0 granules k) }
        ensures starts { IfOk result (λ rows. (k : ℕ) → is_set_for rows.starts.items k ≡ false) }
        ensures due { IfOk result (λ rows. (k : ℕ) → is_set_for rows.due.items k ≡ false) }
    {
        let words = granules / WORD_GRANULES;
        let mut free = FreeRow::new(alloc, words)?;
        free.vacate(0, granules);
        let starts = vec![in alloc; 0; words]?;
        let due = vec![in alloc; 0; words]?;
        let pages = granules / PAGE_BITS;
        let due_pages = vec![in alloc; 0; pages.div_ceil(WORD_GRANULES)]?;
        Ok(Rows {
            free,
            starts,
            due,
            due_pages,
        })
    }

    /// The same rows once more.
    pub fn copy(&self, alloc: Global) -> Result<Rows, AllocError>
        ensures free { IfOk result (λ rows. rows.free ≡ self.now.free) }
        ensures starts { IfOk result (λ rows. rows.starts.items ≡ self.now.starts.items) }
        ensures due { IfOk result (λ rows. rows.due.items ≡ self.now.due.items) }
        ensures due_pages { IfOk result (λ rows. rows.due_pages.items ≡ self.now.due_pages.items) }
    {
        Ok(Rows {
            free: self.free.copy(alloc)?,
            starts: Vec::from_slice(alloc, &self.starts)?,
            due: Vec::from_slice(alloc, &self.due)?,
            due_pages: Vec::from_slice(alloc, &self.due_pages)?,
        })
    }

    /// Puts a block of `n` granules, at least one, at granule `start`.
    pub fn put(&mut self, start: usize, n: usize)
        requires rows { AreRows self.old }
        requires some { 0 < n }
        requires end { start + n ≤ row_granules self.old }
        ensures rows { AreRows self.new }
        ensures count { row_granules self.new ≡ row_granules self.old }
        ensures free { (k : ℕ) → is_set_for self.new.free k ≡ (is_set_for self.old.free k && not (is_within start (start + n) k)) }
        ensures starts { (k : ℕ) → is_set_for self.new.starts.items k ≡ (is_within start (start + 1) k || is_set_for self.old.starts.items k) }
        ensures due { self.new.due.items ≡ self.old.due.items }
    {
        self.free.occupy(start, n);
        set_run(&mut self.starts, start, start + 1);
    }

    /// Makes the block of `n` granules at granule `start` due.
    pub fn make_due(&mut self, start: usize, n: usize)
        requires rows { AreRows self.old }
        requires end { start + n ≤ row_granules self.old }
        ensures rows { AreRows self.new }
        ensures count { row_granules self.new ≡ row_granules self.old }
        ensures free { self.new.free ≡ self.old.free }
        ensures starts { self.new.starts.items ≡ self.old.starts.items }
        ensures due { (k : ℕ) → is_set_for self.new.due.items k ≡ (is_within start (start + n) k || is_set_for self.old.due.items k) }
    {
        let end = start + n;
        set_run(&mut self.due, start, end);
        set_run(
            &mut self.due_pages,
            start / PAGE_BITS,
            end.div_ceil(PAGE_BITS),
        );
    }

    /// Where due granules lie: from the first of these on, before the second. Their pages are looked for first.
    pub fn due_part(&self) -> (usize, usize)
        requires { AreRows self.now }
        ensures { LieBetween (is_set_for self.now.due.items) result.0 result.1 }
    {
        let first_page = first_set(&self.due_pages, 0);
        let end_page = end_of_set(&self.due_pages, WORD_GRANULES * self.due_pages.len());
        let first = first_set(&self.due, PAGE_ROW_WORDS * first_page);
        let end = end_of_set(&self.due, PAGE_BITS * end_page);
        (first, end)
    }

    /// Makes the due granules free, and takes the blocks away that they lie in.
    pub fn give_back(&mut self)
        requires rows { AreRows self.old }
        ensures rows { AreRows self.new }
        ensures count { row_granules self.new ≡ row_granules self.old }
        ensures free { (k : ℕ) → is_set_for self.new.free k ≡ (is_set_for self.old.free k || is_set_for self.old.due.items k) }
        ensures starts { (k : ℕ) → is_set_for self.new.starts.items k ≡ (is_set_for self.old.starts.items k && not (is_set_for self.old.due.items k)) }
        ensures due { (k : ℕ) → is_set_for self.new.due.items k ≡ false }
    {
        for w in 0..self.due_pages.len() {
            self.give_pages(w);
        }
    }

    // Gives back the granules of the pages that have their bits in word `w` of `due_pages`.
    fn give_pages(&mut self, w: usize)
        requires rows { AreRows self.old }
        requires inside { w < length self.old.due_pages.items }
        ensures rows { AreRows self.new }
        ensures given { AreGiven self.old self.new }
        ensures gone { (page : ℕ) → page / 64 ≡ w → is_set_for self.new.due_pages.items page ≡ false }
    {
        while self.due_pages[w] != 0 {
            self.give_lowest(w);
        }
    }

    // Gives back the granules of the first page that is marked in word `w`, and takes the mark away.
    fn give_lowest(&mut self, w: usize)
        requires rows { AreRows self.old }
        requires inside { w < length self.old.due_pages.items }
        requires some { 0 < slice_index self.old.due_pages.items w }
        ensures rows { AreRows self.new }
        ensures given { AreGiven self.old self.new }
        ensures less { slice_index self.new.due_pages.items w < slice_index self.old.due_pages.items w }
    {
        let word = self.due_pages[w];
        self.give_page(WORD_GRANULES * w + lowest_bit(word));
        self.due_pages[w] = without_lowest(word);
    }

    // Gives back the granules of one page.
    fn give_page(&mut self, page: usize)
        requires rows { AreRows self.old }
        requires inside { 256 * page + 256 ≤ row_granules self.old }
        ensures rows { AreRows self.new }
        ensures given { AreGiven self.old self.new }
        ensures gone { (k : ℕ) → k / 256 ≡ page → is_set_for self.new.due.items k ≡ false }
        ensures pages { self.new.due_pages.items ≡ self.old.due_pages.items }
    {
        let first = PAGE_ROW_WORDS * page;
        let end = first + PAGE_ROW_WORDS;
        self.free.vacate_words(&self.due, first, end);
        clear_words(&mut self.starts, &self.due, first, end);
        clear_run(&mut self.due, WORD_GRANULES * first, WORD_GRANULES * end);
    }
}

// From word `from` on no bit before this place is set.
fn first_set(row: &[u64], from: usize) -> usize
    requires { 64 * length row.now < 2 ^ 64 }
    ensures before { (k : ℕ) → 64 * from ≤ k → is_set_for row.now k ≡ true → result ≤ k }
    ensures inside { result ≤ 64 * length row.now }
{
    for w in from..row.len() {
        if row[w] != 0 {
            return WORD_GRANULES * w + lowest_bit(row[w]);
        }
    }
    WORD_GRANULES * row.len()
}

// From this place on no bit before `end` is set.
fn end_of_set(row: &[u64], end: usize) -> usize
    requires { end ≤ 64 * length row.now }
    ensures past { (k : ℕ) → k < end → is_set_for row.now k ≡ true → k < result }
    ensures inside { result ≤ end }
    ensures one { (k : ℕ) → result ≡ k + 1 → is_set_for row.now k ≡ true }
{
    if end == 0 {
        return 0;
    }
    match last_set(row, end - 1) {
        Some(last) => last + 1,
        None => 0,
    }
}
