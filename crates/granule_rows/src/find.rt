//! The search for a run, down the tree.

ghost use Rattle.std.specs.Prelude.{◌≡◌, ◌<◌, ◌≤◌, ◌+◌, ◌*◌, ◌^◌, ℕ, length, MatchOption};
ghost use Rattle.granule_rows.specs.Runs.{AreSet, IsFirst};
ghost use Rattle.granule_rows.specs.Tree.{IsNode, IsTree, node};
ghost use Rattle.tag_memory.specs.Tags.{is_set, is_set_for};

use crate::summary::{Summary, ones_at_end};
use crate::word::first_run_of_word;
use tag_memory::WORD_GRANULES;

/// The first place, in the part of the row under node `root`, which begins at bit `first`, where `n`
/// ones start. There is one.
pub fn first_in(nodes: &[Summary], words: &[u64], root: usize, first: usize, n: u32) -> usize
    requires tree { IsTree words.now nodes.now }
    requires node { IsNode (length words.now) root first }
    requires some { 0 < n }
    requires has { n ≤ (node nodes.now root).longest }
    ensures { IsFirst (is_set_for words.now) first n result }
{
    let leaves = words.len();
    let mut at = root;
    let mut start = first;
    while at < leaves {
        let left = nodes[2 * at];
        if left.longest >= n {
            at = 2 * at;
        } else {
            let right = nodes[2 * at + 1];
            let middle = start + left.length as usize;
            if left.suffix + right.prefix >= n {
                return middle - left.suffix as usize;
            }
            at = 2 * at + 1;
            start = middle;
        }
    }
    let place = first_run_of_word(words[at - leaves], n).unwrap();
    start + place as usize
}

/// The first place from `from` on where `n` ones start. It goes up the tree from the word of `from`, past
/// each part that follows, and down where there is one.
pub fn first_from(nodes: &[Summary], words: &[u64], n: u32, from: usize) -> Option<usize>
    requires tree { IsTree words.now nodes.now }
    requires some { 0 < n }
    requires from { from < 64 * length words.now }
    ensures { MatchOption result ((q : ℕ) → from ≤ q → ¬ AreSet (is_set_for words.now) q n)
        (IsFirst (is_set_for words.now) from n) }
{
    let w = from / WORD_GRANULES;
    let base = WORD_GRANULES * w;
    let word = words[w] & (u64::MAX << (from % WORD_GRANULES));
    if let Some(place) = first_run_in(word, n) {
        return Some(base + place as usize);
    }
    // Where what was passed ends, and how many ones it ends with, where the bits before `from` are 0.
    let mut end = base + WORD_GRANULES;
    let mut ones = (!word).leading_zeros();
    let mut at = words.len() + w;
    while at > 1 {
        if at % 2 == 1 {
            at /= 2;
            continue;
        }
        let next = nodes[at + 1];
        if ones + next.prefix >= n {
            return Some(end - ones as usize);
        }
        if next.longest >= n {
            return Some(first_in(nodes, words, at + 1, end, n));
        }
        ones = ones_at_end(ones, next);
        end += next.length as usize;
        at /= 2;
    }
    None
}

// The first bit of a word at which `n` ones start, which may be more than it has bits.
fn first_run_in(word: u64, n: u32) -> Option<u32>
    requires { 0 < n }
    ensures { MatchOption result ((q : ℕ) → ¬ AreSet (is_set word) q n) (IsFirst (is_set word) 0 n) }
{
    if n as usize > WORD_GRANULES {
        return None;
    }
    first_run_of_word(word, n)
}
