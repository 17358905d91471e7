//! Bits that are 1 in both of two rows, counted and found by their number.

ghost use Rattle.std.specs.Prelude.{◌≡◌, ◌<◌, ◌≤◌, ◌*◌, ◌^◌, count_ones, length, true};
ghost use Rattle.granule_rows.specs.Counts.{count_below, is_both};
ghost use Rattle.tag_memory.specs.Tags.{is_set};

use tag_memory::{WORD_GRANULES, bit};

/// How many there are.
pub fn count_both(row: &[u64], other: &[u64]) -> usize
    requires same { length other.now ≡ length row.now }
    requires limit { length row.now ≤ 2 ^ 24 }
    ensures { result ≡ count_below (is_both row.now other.now) (64 * length row.now) }
{
    let mut count = 0;
    for w in 0..row.len() {
        count += (row[w] & other[w]).count_ones() as usize;
    }
    count
}

/// The place of the one that has `n` before it, or the end of the rows where the last one has fewer.
pub fn place_of_both(row: &[u64], other: &[u64], n: usize) -> usize
    requires same { length other.now ≡ length row.now }
    requires limit { length row.now ≤ 2 ^ 24 }
    ensures before { n ≤ count_below (is_both row.now other.now) (64 * length row.now)
        → count_below (is_both row.now other.now) result ≡ n }
    ensures past { count_below (is_both row.now other.now) (64 * length row.now) ≤ n → result ≡ 64 * length row.now }
    ensures within { result ≤ 64 * length row.now }
    ensures one { result < 64 * length row.now → is_both row.now other.now result ≡ true }
{
    let mut left = n;
    for w in 0..row.len() {
        let word = row[w] & other[w];
        let ones = word.count_ones() as usize;
        if left < ones {
            return WORD_GRANULES * w + place_of_one(word, left);
        }
        left -= ones;
    }
    WORD_GRANULES * row.len()
}

// The place of the bit of a word that is 1 and has `n` such before it.
fn place_of_one(word: u64, n: usize) -> usize
    requires { n < count_ones word }
    ensures before { count_below (is_set word) result ≡ n }
    ensures within { result < 64 }
    ensures one { is_set word result ≡ true }
{
    let mut left = n;
    for j in 0..WORD_GRANULES {
        if bit(word, j) {
            if left == 0 {
                return j;
            }
            left -= 1;
        }
    }
    // There were more than `n`.
    WORD_GRANULES
}
