//! Blocks, and what became of them.

ghost use Rattle.std.specs.Prelude.{◌≡◌, ◌+◌, ◌-◌, ◌≤◌, [], ◌∷◌, OnOk, codes};
ghost use Rattle.std.specs.List.Sorted.{IsNonDecreasingBy, IsPermutation};
ghost use Rattle.heap_model.specs.Blocks.{has_address, start_of};
ghost use Rattle.heap_model.specs.Blocks as blocks_of;
ghost use Rattle.data_tokens.specs.Blocks.{block_tokens, named_blocks_tokens};
ghost use Rattle.heap_reply.specs.Display.{hexadecimal_text};
ghost use Rattle.json.specs.Token.{key, string};
ghost use Rattle.data_tokens.specs.Line.{with_tokens};
ghost use Rattle.data_tokens.specs.Spans.{span_of, spans_of};

use crate::cells::put_address;
use crate::data_line::DataLine;
use host_memory::Global;
use std::alloc::AllocError;
use std::collections::BinaryHeap;

/// A block: where it starts, by which blocks are in order, and its length in bytes.
#[derive(Clone, Copy, Debug, PartialEq, Eq, PartialOrd, Ord)]
pub struct HeldBlock {
    pub base: u64,
    pub length: u64,
}

impl HeldBlock {
    /// The address after its last byte.
    pub fn top(self) -> u128
        ensures { result ≡ self.base + self.length }
    {
        u128::from(self.base) + u128::from(self.length)
    }

    /// Whether an address lies in it.
    pub fn has(self, address: u64) -> bool
        ensures { result ≡ has_address address (span_of self) }
    {
        self.base <= address && u128::from(address) < self.top()
    }
}

/// These blocks in the order of their starts.
// By a heap, which takes no memory, and makes no call within a call.
pub fn in_order(blocks: Vec<HeldBlock, Global>) -> Vec<HeldBlock, Global>
    ensures same { IsPermutation (spans_of result.items) (spans_of blocks.items) }
    ensures rise { IsNonDecreasingBy start_of (spans_of result.items) }
{
    if blocks.is_sorted() {
        return blocks;
    }
    BinaryHeap::from(blocks).into_sorted_vec()
}

/// Whether an address lies in one of these blocks.
pub fn lies_in(blocks: &[HeldBlock], address: u64) -> bool
    ensures { result ≡ blocks_of.lies_in (spans_of blocks.now) address }
{
    for block in blocks {
        if block.has(address) {
            return true;
        }
    }
    false
}

fn put_bounds(line: &mut DataLine, base: u64, top: u128) -> Result<(), AllocError>
    ensures { OnOk result (line.new ≡ with_tokens line.old
        (key (codes "base") ∷ string (hexadecimal_text base) ∷ key (codes "top") ∷ string (hexadecimal_text top) ∷ [])) }
{
    put_address(line, "base", u128::from(base))?;
    put_address(line, "top", top)
}

/// A block from `base` to `top`, with a word for what it is now.
pub fn put_span(line: &mut DataLine, state: &str, base: u64, top: u128) -> Result<(), AllocError>
    requires { base ≤ top }
    ensures { OnOk result (line.new ≡ with_tokens line.old (block_tokens state.now (base, top - base))) }
{
    line.open()?;
    put_bounds(line, base, top)?;
    line.text("state", state)?;
    line.close()
}

/// The same of a block.
pub fn put_block(line: &mut DataLine, state: &str, block: HeldBlock) -> Result<(), AllocError>
    ensures { OnOk result (line.new ≡ with_tokens line.old (block_tokens state.now (span_of block))) }
{
    put_span(line, state, block.base, block.top())
}

/// These blocks, with the same word for each.
pub fn put_blocks(line: &mut DataLine, state: &str, blocks: &[HeldBlock]) -> Result<(), AllocError>
    ensures { OnOk result (line.new ≡ with_tokens line.old (named_blocks_tokens state.now (spans_of blocks.now))) }
{
    for block in blocks {
        put_block(line, state, *block)?;
    }
    Ok(())
}
