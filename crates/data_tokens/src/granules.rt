//! The granules that changed.

ghost use Rattle.std.specs.Prelude.{◌≡◌, ◌<◌, ◌≤◌, ◌+◌, ◌*◌, ◌^◌, OnOk, codes, false, length, slice_index_or};
ghost use Rattle.data_tokens.specs.Changes.{below, change_tokens, tag_change};
ghost use Rattle.data_tokens.specs.Line.{LineState, with_tokens};
ghost use Rattle.tag_memory.specs.Cells.{cell_of};

use crate::changes::put_change;
use crate::data_line::DataLine;
use cap_codec::Word;
use std::alloc::AllocError;
use tag_memory::{Memory, WORD_GRANULES, bit};

/// Granule `i` where it changed: before it had these bytes, and this tag.
pub fn put_granule(
    line: &mut DataLine,
    memory: &Memory,
    i: usize,
    bits: u128,
    tag: bool,
) -> Result<(), AllocError>
    requires { i < length memory.now.granules }
    ensures { OnOk result (line.new ≡ with_tokens line.old
        (change_tokens (codes "i") i (cell_of (bits, tag)) (cell_of (slice_index_or memory.now.granules i (0, false))))) }
{
    let (now, is_tagged) = memory.cell(i);
    put_change(
        line,
        "i",
        i as u64,
        (Word { bits }, tag),
        (Word { bits: now }, is_tagged),
    )
}

// Granule `i` where its tag changed.
fn put_tag(line: &mut DataLine, memory: &Memory, tags: &[u64], i: usize) -> Result<(), AllocError>
    requires inside { i < length memory.now.granules }
    requires tags { 64 * length tags.now ≡ length memory.now.granules }
    ensures { OnOk result (line.new ≡ with_tokens line.old (tag_change tags.now memory.now.granules i)) }
{
    let (bits, _) = memory.cell(i);
    let tag = bit(tags[i / WORD_GRANULES], i % WORD_GRANULES);
    put_granule(line, memory, i, bits, tag)
}

// The granules of word `w` of the tags whose tags changed, where those before are told.
fn put_tags_of_word(
    line: &mut DataLine,
    memory: &Memory,
    tags: &[u64],
    w: usize,
) -> Result<(), AllocError>
    requires inside { 64 * w + 64 ≤ length memory.now.granules }
    requires few { length memory.now.granules < 2 ^ 64 }
    requires tags { 64 * length tags.now ≡ length memory.now.granules }
    ensures { (start : LineState) → line.old ≡ with_tokens start (below (tag_change tags.now memory.now.granules) (64 * w))
        → OnOk result (line.new ≡ with_tokens start (below (tag_change tags.now memory.now.granules) (64 * w + 64))) }
{
    if tags[w] == memory.tag_word(w) {
        return Ok(());
    }
    for j in 0..WORD_GRANULES {
        put_tag(line, memory, tags, WORD_GRANULES * w + j)?;
    }
    Ok(())
}

/// The granules whose tags changed: before they had those of these words. Their bytes are as before.
pub fn put_tags(line: &mut DataLine, memory: &Memory, tags: &[u64]) -> Result<(), AllocError>
    requires { 64 * length tags.now ≡ length memory.now.granules }
    ensures { OnOk result (line.new ≡ with_tokens line.old (below (tag_change tags.now memory.now.granules) (length memory.now.granules))) }
{
    for w in 0..memory.granules() / WORD_GRANULES {
        put_tags_of_word(line, memory, tags, w)?;
    }
    Ok(())
}
