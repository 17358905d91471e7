//! The last bit of a row that is 1, looked for downwards from a place.

ghost use Rattle.std.specs.Prelude.{◌≡◌, ◌<◌, ◌≤◌, ◌*◌, ℕ, false, true, length, MatchOption};
ghost use Rattle.tag_memory.specs.Tags.{is_set, is_set_for};

use crate::ranges::run_word;
use tag_memory::WORD_GRANULES;

/// The last bit of a row that is 1, of bits 0 to `at`.
pub fn last_set(row: &[u64], at: usize) -> Option<usize>
    requires inside { at < 64 * length row.now }
    ensures { MatchOption result ((k : ℕ) → k ≤ at → is_set_for row.now k ≡ false)
        (λ p. (p ≤ at) × (is_set_for row.now p ≡ true) × ((k : ℕ) → p < k → k ≤ at → is_set_for row.now k ≡ false)) }
{
    let mut w = at / WORD_GRANULES;
    let mut word = row[w] & run_word(0, at % WORD_GRANULES + 1);
    while word == 0 {
        if w == 0 {
            return None;
        }
        w -= 1;
        word = row[w];
    }
    Some(WORD_GRANULES * w + highest_bit(word))
}

// The place of the highest bit of a word that is 1.
fn highest_bit(word: u64) -> usize
    requires { 0 < word }
    ensures within { result < 64 }
    ensures one { is_set word result ≡ true }
    ensures above { (k : ℕ) → result < k → is_set word k ≡ false }
{
    WORD_GRANULES - 1 - word.leading_zeros() as usize
}
