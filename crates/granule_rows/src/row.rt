//! The free granules of a heap, one bit each.

ghost use Rattle.std.specs.Prelude.{◌≡◌, ◌<◌, ◌≤◌, ◌+◌, ◌*◌, ◌%◌, ◌^◌, ◌&&◌, ◌||◌, not, ℕ, false, length, IfOk, MatchOption};
ghost use Rattle.granule_rows.specs.Runs.{IsFirstMultiple, IsFirstRun, IsRun, aligned_from, is_within};
ghost use Rattle.tag_memory.specs.Tags.{is_set_for};

use crate::find::{first_from, first_in};
use crate::ranges::{add_words, clear_run, set_run};
use crate::summary::Summary;
use crate::tree::renew;
use host_memory::Global;
use std::alloc::AllocError;
use std::marker::Model;
use tag_memory::{WORD_GRANULES, row_bit};

/// A row of bits that are 1 where a granule is free.
#[derive(Drop)]
pub struct FreeRow {
    // Bit `j` of word `w` is that of granule `64 * w + j`.
    words: Vec<u64, Global>,
    // The tree of their summaries.
    nodes: Vec<Summary, Global>,
}

impl Model for FreeRow {
    ghost use Rattle.std.specs.Prelude.{ℕ, List};

    ghost Value = { List ℕ };

    ghost view = { λ row. row.words.items };

    ghost use Rattle.granule_rows.specs.Tree.{IsTree};

    ghost invariant = { λ row. IsTree row.words.items row.nodes.items };
}

// The first granule from `k` on that is a multiple of the unit, counted from granule `origin` below 0.
fn aligned(k: usize, origin: u64, unit: u64) -> usize
    requires limit { k ≤ 2 ^ 30 }
    requires origin { origin ≤ 2 ^ 60 }
    requires some { 0 < unit }
    requires unit { unit ≤ 2 ^ 60 }
    ensures { result ≡ aligned_from origin unit k }
{
    let place = origin + k as u64;
    let missing = rest(unit - rest(place, unit), unit);
    (place + missing - origin) as usize
}

// What is left of a number where units are taken away. The units of blocks are powers of two, for which
// no division is needed.
fn rest(number: u64, unit: u64) -> u64
    requires { 0 < unit }
    ensures { result ≡ number % unit }
{
    if 1 << unit.trailing_zeros() == unit {
        number & (unit - 1)
    } else {
        number % unit
    }
}

impl FreeRow {
    /// A row of at least so many words, in which nothing is free.
    pub fn new(alloc: Global, count: usize) -> Result<FreeRow, AllocError>
        requires some { 0 < count }
        requires limit { count ≤ 2 ^ 24 }
        ensures count { IfOk result (λ row. count ≤ length row) }
        ensures clear { IfOk result (λ row. (k : ℕ) → is_set_for row k ≡ false) }
    {
        let leaves = count.next_power_of_two();
        let none = Summary {
            length: 0,
            prefix: 0,
            longest: 0,
            suffix: 0,
        };
        let words = vec![in alloc; 0; leaves]?;
        let mut nodes = vec![in alloc; none; 2 * leaves]?;
        renew(&mut nodes, &words, 0, leaves);
        Ok(FreeRow { words, nodes })
    }

    /// The same row once more.
    pub fn copy(&self, alloc: Global) -> Result<FreeRow, AllocError>
        ensures { IfOk result (λ copy. copy ≡ self.now) }
    {
        Ok(FreeRow {
            words: Vec::from_slice(alloc, &self.words)?,
            nodes: Vec::from_slice(alloc, &self.nodes)?,
        })
    }

    /// Makes `n` granules from `p` on free.
    pub fn vacate(&mut self, p: usize, n: usize)
        requires { p + n ≤ 64 * length self.old }
        ensures count { length self.new ≡ length self.old }
        ensures bits { (k : ℕ) → is_set_for self.new k ≡ (is_within p (p + n) k || is_set_for self.old k) }
    {
        let _words = &self.words;
        let end = p + n;
        set_run(&mut self.words, p, end);
        renew(
            &mut self.nodes,
            &self.words,
            p / WORD_GRANULES,
            end.div_ceil(WORD_GRANULES),
        );
    }

    /// Takes `n` granules from `p` on.
    pub fn occupy(&mut self, p: usize, n: usize)
        requires { p + n ≤ 64 * length self.old }
        ensures count { length self.new ≡ length self.old }
        ensures bits { (k : ℕ) → is_set_for self.new k ≡ (is_set_for self.old k && not (is_within p (p + n) k)) }
    {
        let _words = &self.words;
        let end = p + n;
        clear_run(&mut self.words, p, end);
        renew(
            &mut self.nodes,
            &self.words,
            p / WORD_GRANULES,
            end.div_ceil(WORD_GRANULES),
        );
    }

    /// The first place where `n` granules are free.
    pub fn first_run(&self, n: usize) -> Option<usize>
        requires { 0 < n }
        ensures { MatchOption result ((p : ℕ) → ¬ IsRun self.now p n) (IsFirstRun self.now 0 n) }
    {
        if (self.nodes[1].longest as usize) < n {
            return None;
        }
        Some(first_in(&self.nodes, &self.words, 1, 0, n as u32))
    }

    /// The first place from `from` on where `n` granules are free.
    pub fn next_run(&self, n: usize, from: usize) -> Option<usize>
        requires { 0 < n }
        ensures { MatchOption result ((p : ℕ) → from ≤ p → ¬ IsRun self.now p n) (IsFirstRun self.now from n) }
    {
        if (self.nodes[1].longest as usize) < n {
            return None;
        }
        if from >= self.granules() {
            return None;
        }
        first_from(&self.nodes, &self.words, n as u32, from)
    }

    /// The first place where `n` granules are free that is a multiple of the unit. Multiples are counted
    /// from address 0, of which the row's first granule is granule `origin`.
    pub fn first_multiple(&self, n: usize, origin: u64, unit: u64) -> Option<usize>
        requires n { 0 < n }
        requires origin { origin ≤ 2 ^ 60 }
        requires some { 0 < unit }
        requires unit { unit ≤ 2 ^ 60 }
        ensures { MatchOption result ((p : ℕ) → (origin + p) % unit ≡ 0 → ¬ IsRun self.now p n)
            (IsFirstMultiple self.now origin unit n) }
    {
        if unit == 1 {
            return self.first_run(n);
        }
        let end = self.granules();
        let mut from = aligned(0, origin, unit);
        while from < end {
            let Some(place) = self.next_run(n, from) else {
                return None;
            };
            if place == from {
                return Some(place);
            }
            from = aligned(place, origin, unit);
        }
        None
    }

    /// Makes those granules of words `first` to `end - 1` free whose bits are 1 in another row.
    pub fn vacate_words(&mut self, other: &[u64], first: usize, end: usize)
        requires order { first ≤ end }
        requires within { end ≤ length self.old }
        requires there { end ≤ length other.now }
        ensures count { length self.new ≡ length self.old }
        ensures bits { (k : ℕ) → is_set_for self.new k
            ≡ ((is_within (64 * first) (64 * end) k && is_set_for other.now k) || is_set_for self.old k) }
    {
        let _words = &self.words;
        add_words(&mut self.words, other, first, end);
        renew(&mut self.nodes, &self.words, first, end);
    }

    /// Whether a granule is free.
    pub fn is_free(&self, k: usize) -> bool
        requires { k < 64 * length self.now }
        ensures { result ≡ is_set_for self.now k }
    {
        row_bit(&self.words, k)
    }

    /// How many granules the row has a bit for.
    pub fn granules(&self) -> usize
        ensures count { result ≡ 64 * length self.now }
        ensures limit { result ≤ 2 ^ 30 }
    {
        WORD_GRANULES * self.words.len()
    }
}
