//! The tree of summaries over a row of words.

ghost use Rattle.std.specs.Prelude.{◌≡◌, ◌<◌, ◌≤◌, ◌+◌, ◌*◌, ◌/◌, ◌^◌, ℕ, length, slice_index};
ghost use Rattle.granule_rows.specs.Tree.{AreSummed, IsLeaf, node};

use crate::summary::{Summary, joined};
use crate::word::summary_of_word;

// Joins the children of the nodes from `low` to before `end` anew.
fn renew_level(nodes: &mut [Summary], leaves: usize, low: usize, end: usize)
    requires summed { AreSummed leaves nodes.old low end 0 0 }
    requires low { 0 < low }
    requires end { end ≤ leaves }
    requires limit { leaves ≤ 2 ^ 24 }
    ensures summed { AreSummed leaves nodes.new (low / 2) ((end + 1) / 2) 0 0 }
    ensures leaves { (i : ℕ) → leaves ≤ i → node nodes.new i ≡ node nodes.old i }
{
    for k in low..end {
        nodes[k] = joined(nodes[2 * k], nodes[2 * k + 1]);
    }
}

// Joins the children of node `at` anew, and of those above it up to the first that stays as it was.
fn renew_path(nodes: &mut [Summary], leaves: usize, at: usize)
    requires summed { AreSummed leaves nodes.old at (at + 1) 0 0 }
    requires end { at < leaves }
    requires limit { leaves ≤ 2 ^ 24 }
    ensures summed { AreSummed leaves nodes.new 0 0 0 0 }
    ensures leaves { (i : ℕ) → leaves ≤ i → node nodes.new i ≡ node nodes.old i }
{
    let mut here = at;
    while here > 0 {
        let sum = joined(nodes[2 * here], nodes[2 * here + 1]);
        if sum == nodes[here] {
            return;
        }
        nodes[here] = sum;
        here /= 2;
    }
}

// Joins the nodes from `low` to before `end` anew, and all above them.
fn renew_above(nodes: &mut [Summary], leaves: usize, low: usize, end: usize)
    requires summed { AreSummed leaves nodes.old low end 0 0 }
    requires end { end ≤ leaves }
    requires limit { leaves ≤ 2 ^ 24 }
    ensures summed { AreSummed leaves nodes.new 0 0 0 0 }
    ensures leaves { (i : ℕ) → leaves ≤ i → node nodes.new i ≡ node nodes.old i }
{
    let mut from = low;
    let mut to = end;
    while to > 1 {
        let start = from.max(1);
        if start == to - 1 {
            renew_path(nodes, leaves, start);
            return;
        }
        renew_level(nodes, leaves, start, to);
        from = start / 2;
        to = to.div_ceil(2);
    }
}

/// Makes the leaves of the words from `first` to before `end` anew, and all nodes above them.
pub fn renew(nodes: &mut [Summary], words: &[u64], first: usize, end: usize)
    requires summed { AreSummed (length words.now) nodes.old 0 0 0 0 }
    requires leaves { (w : ℕ) → w < length words.now → (first ≤ w → end ≤ w)
        → IsLeaf (slice_index words.now w) (node nodes.old (length words.now + w)) }
    requires order { first ≤ end }
    requires end { end ≤ length words.now }
    requires limit { length words.now ≤ 2 ^ 24 }
    ensures summed { AreSummed (length words.now) nodes.new 0 0 0 0 }
    ensures leaves { (w : ℕ) → w < length words.now
        → IsLeaf (slice_index words.now w) (node nodes.new (length words.now + w)) }
{
    let leaves = words.len();
    for w in first..end {
        nodes[leaves + w] = summary_of_word(words[w]);
    }
    renew_above(
        nodes,
        leaves,
        (leaves + first) / 2,
        (leaves + end).div_ceil(2),
    );
}
