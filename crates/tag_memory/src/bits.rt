//! Single bits of a word that has one for each of 64 granules.

ghost use Rattle.std.specs.Prelude.{◌≡◌, ◌<◌, ◌*◌, ◌==◌, ℕ, false, if◌then◌else◌, length, true};
ghost use Rattle.tag_memory.specs.Tags.{is_set, is_set_for};

/// Granules a word, each with one bit.
pub const WORD_GRANULES: usize = 64;

/// Whether bit `j` is 1.
pub fn bit(word: u64, j: usize) -> bool
    requires { j < 64 }
    ensures { result ≡ is_set word j }
{
    (word >> j) & 1 == 1
}

/// The word with this bit `j`.
pub fn with_bit(word: u64, j: usize, bit: bool) -> u64
    requires { j < 64 }
    ensures { (k : ℕ) → k < 64 → is_set result k ≡ (if k == j then bit else is_set word k) }
{
    let place = 1 << j;
    if bit { word | place } else { word & !place }
}

/// The place of the lowest bit that is 1.
pub fn lowest_bit(word: u64) -> usize
    requires { 0 < word }
    ensures within { result < 64 }
    ensures one { is_set word result ≡ true }
    ensures below { (k : ℕ) → k < result → is_set word k ≡ false }
{
    word.trailing_zeros() as usize
}

/// The word without its lowest bit that is 1.
pub fn without_lowest(word: u64) -> u64
    requires { 0 < word }
    ensures less { result < word }
    ensures bits { (j : ℕ) → is_set word j ≡ true → ((k : ℕ) → k < j → is_set word k ≡ false)
        → (k : ℕ) → is_set result k ≡ (if k == j then false else is_set word k) }
{
    word & (word - 1)
}

/// Whether bit `k` of a row is 1.
pub fn row_bit(words: &[u64], k: usize) -> bool
    requires { k < 64 * length words.now }
    ensures { result ≡ is_set_for words.now k }
{
    bit(words[k / WORD_GRANULES], k % WORD_GRANULES)
}
