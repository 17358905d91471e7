//! Runs of ones in one word.

ghost use Rattle.std.specs.Prelude.{◌≡◌, ◌<◌, ◌≤◌, ◌+◌, ◌*◌, ℕ, MatchOption};
ghost use Rattle.granule_rows.specs.Runs.{AreSet, HasRun, IsFirst};
ghost use Rattle.granule_rows.specs.Starts.{AreStarts, IsNearLongest};
ghost use Rattle.granule_rows.specs.Tree.{IsLeaf};
ghost use Rattle.tag_memory.specs.Tags.{is_set};

use crate::summary::Summary;

// Bit `j` of `bits` is 1 where `length` ones start at bit `j` of a word.
#[derive(Clone, Copy)]
struct Starts {
    bits: u64,
    length: u32,
}

// The starts of runs that are `more` longer, if there are any. Bit `j` of `added` is 1 where `more` ones
// start at bit `j` of the word.
fn longer(starts: Starts, added: u64, more: u32) -> Starts
    requires some { 0 < more }
    requires limit { starts.length + more ≤ 64 }
    ensures limit { result.length ≤ starts.length + more }
    ensures near { (word : ℕ) → AreStarts word added more → IsNearLongest word starts (2 * more)
        → IsNearLongest word result more }
{
    let bits = starts.bits & (added >> starts.length);
    if bits == 0 {
        return starts;
    }
    Starts {
        bits,
        length: starts.length + more,
    }
}

// The length of the longest run of ones: 1 and a sum of some of 32, 16, 8, 4, 2 and 1. Each of these,
// from the largest on, is in it if there are runs that are so much longer.
fn longest_run(word: u64) -> u32
    ensures run { HasRun (is_set word) result }
    ensures most { (q n : ℕ) → AreSet (is_set word) q n → n ≤ result }
{
    if word == 0 {
        return 0;
    }
    let two = word & (word >> 1);
    let four = two & (two >> 2);
    let eight = four & (four >> 4);
    let sixteen = eight & (eight >> 8);
    let thirty_two = sixteen & (sixteen >> 16);
    let one = Starts {
        bits: word,
        length: 1,
    };
    let near_32 = longer(one, thirty_two, 32);
    let near_16 = longer(near_32, sixteen, 16);
    let near_8 = longer(near_16, eight, 8);
    let near_4 = longer(near_8, four, 4);
    let near_2 = longer(near_4, two, 2);
    longer(near_2, word, 1).length
}

/// The summary of a word.
pub fn summary_of_word(word: u64) -> Summary
    ensures { IsLeaf word result }
{
    let zeros = !word;
    if zeros == 0 {
        return Summary {
            length: 64,
            prefix: 64,
            longest: 64,
            suffix: 64,
        };
    }
    Summary {
        length: 64,
        prefix: zeros.trailing_zeros(),
        longest: longest_run(word),
        suffix: zeros.leading_zeros(),
    }
}

/// The first bit at which `n` ones start.
pub fn first_run_of_word(word: u64, n: u32) -> Option<u32>
    requires some { 0 < n }
    requires most { n ≤ 64 }
    ensures { MatchOption result ((q : ℕ) → ¬ AreSet (is_set word) q n) (IsFirst (is_set word) 0 n) }
{
    // Bit `j` is 1 where `have` ones start at bit `j` of the word.
    let mut starts = word;
    let mut have = 1;
    while have < n {
        let step = have.min(n - have);
        starts &= starts >> step;
        have += step;
    }
    if starts == 0 {
        return None;
    }
    Some(starts.trailing_zeros())
}
