//! Rows of bits, one a granule, set and cleared a word at a time.

ghost use Rattle.std.specs.Prelude.{◌≡◌, ◌<◌, ◌≤◌, ◌+◌, ◌*◌, ◌/◌, ◌^◌, ◌&&◌, ◌||◌, not, nat_le, nat_lt, ℕ, length, slice_index};
ghost use Rattle.granule_rows.specs.Runs.{is_within};
ghost use Rattle.tag_memory.specs.Tags.{is_set, is_set_for};

use tag_memory::WORD_GRANULES;

// The word whose bits `low` to `high - 1` are 1.
pub fn run_word(low: usize, high: usize) -> u64
    requires low { low < 64 }
    requires some { 0 < high }
    requires high { high ≤ 64 }
    ensures { (j : ℕ) → j < 64 → is_set result j ≡ (nat_le low j && nat_lt j high) }
{
    (u64::MAX >> (64 - high)) & (u64::MAX << low)
}

/// Those bits of word `w` that are among the bits `first` to `end - 1` of the row, at least one.
pub fn range_word(w: usize, first: usize, end: usize) -> u64
    requires limit { 64 * w < 2 ^ 40 }
    requires first { first < 64 * w + 64 }
    requires end { 64 * w < end }
    ensures { (j : ℕ) → j < 64 → is_set result j ≡ (nat_le first (64 * w + j) && nat_lt (64 * w + j) end) }
{
    let start = WORD_GRANULES * w;
    let low = first.saturating_sub(start);
    let high = (end - start).min(WORD_GRANULES);
    run_word(low, high)
}

/// Sets bits `first` to `end - 1`.
pub fn set_run(words: &mut [u64], first: usize, end: usize)
    requires limit { length words.old ≤ 2 ^ 24 }
    requires order { first ≤ end }
    requires within { end ≤ 64 * length words.old }
    ensures bits { (k : ℕ) → is_set_for words.new k ≡ (is_within first end k || is_set_for words.old k) }
    ensures rest { (w : ℕ) → (first / 64 ≤ w → (end + 63) / 64 ≤ w) → slice_index words.new w ≡ slice_index words.old w }
{
    for w in first / WORD_GRANULES..end.div_ceil(WORD_GRANULES) {
        words[w] |= range_word(w, first, end);
    }
}

/// Clears bits `first` to `end - 1`.
pub fn clear_run(words: &mut [u64], first: usize, end: usize)
    requires limit { length words.old ≤ 2 ^ 24 }
    requires order { first ≤ end }
    requires within { end ≤ 64 * length words.old }
    ensures bits { (k : ℕ) → is_set_for words.new k ≡ (is_set_for words.old k && not (is_within first end k)) }
    ensures rest { (w : ℕ) → (first / 64 ≤ w → (end + 63) / 64 ≤ w) → slice_index words.new w ≡ slice_index words.old w }
{
    for w in first / WORD_GRANULES..end.div_ceil(WORD_GRANULES) {
        words[w] &= !range_word(w, first, end);
    }
}

// Sets those bits of words `first` to `end - 1` that are 1 in another row.
pub fn add_words(words: &mut [u64], other: &[u64], first: usize, end: usize)
    requires order { first ≤ end }
    requires within { end ≤ length words.old }
    requires there { end ≤ length other.now }
    ensures bits { (k : ℕ) → is_set_for words.new k
        ≡ ((is_within (64 * first) (64 * end) k && is_set_for other.now k) || is_set_for words.old k) }
    ensures rest { (w : ℕ) → (first ≤ w → end ≤ w) → slice_index words.new w ≡ slice_index words.old w }
{
    for w in first..end {
        words[w] |= other[w];
    }
}

/// Clears those bits of words `first` to `end - 1` that are 1 in another row.
pub fn clear_words(words: &mut [u64], other: &[u64], first: usize, end: usize)
    requires order { first ≤ end }
    requires within { end ≤ length words.old }
    requires there { end ≤ length other.now }
    ensures { (k : ℕ) → is_set_for words.new k
        ≡ (is_set_for words.old k && not (is_within (64 * first) (64 * end) k && is_set_for other.now k)) }
{
    for w in first..end {
        words[w] &= !other[w];
    }
}
