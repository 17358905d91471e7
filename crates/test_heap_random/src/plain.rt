//! A heap as a plain list of its blocks, which is gone through from its start.

ghost use Rattle.std.specs.Prelude.{◌≡◌, ◌≤◌, ◌+◌, [], IfOk, IfSome, length};

use cap_codec::{alignment_mask, representable_length};
use heap_core::{Block, Freed};
use std::alloc::{AllocError, Global};
use tag_memory::GRANULE;

// A block: the bytes from the address `start` on, before `end`.
#[derive(Clone, Copy)]
struct Kept {
    start: u64,
    end: u64,
    held: bool,
}

/// The blocks of a heap by their addresses, of which the heap has those from `base` on, before `end`.
#[derive(Drop)]
pub struct Plain {
    base: u64,
    end: u64,
    blocks: Vec<Kept>,
}

impl Kept {
    fn bytes(self) -> u64 {
        self.end.saturating_sub(self.start)
    }

    fn bounds(self) -> Block {
        Block {
            base: self.start,
            top: u128::from(self.end),
        }
    }
}

impl Plain {
    /// Without a block, from the address `base` on, before `end`.
    pub(crate) fn new(alloc: Global, base: u64, end: u64) -> Plain
        ensures base { result.base ≡ base }
        ensures end { result.end ≡ end }
        ensures none { result.blocks.items ≡ [] }
    {
        Plain {
            base,
            end,
            blocks: Vec::new(alloc),
        }
    }

    /// How many blocks there are, live and held.
    pub(crate) fn len(&self) -> usize
        ensures { result ≡ length self.now.blocks.items }
    {
        self.blocks.len()
    }

    /// The bounds of a block, counted from 0.
    pub(crate) fn bounds_at(&self, index: usize) -> Option<Block> {
        self.blocks.get(index).map(|block| block.bounds())
    }

    /// Makes a block for `size` bytes live, at the least address where it can lie.
    pub(crate) fn reserve(&mut self, size: u64) -> Result<Option<Block>, AllocError>
        ensures none { result ≡ Ok None → self.new ≡ self.old }
        ensures one { IfOk result (λ block. IfSome block
            (λ _. length self.new.blocks.items ≡ length self.old.blocks.items + 1)) }
    {
        let Some((index, block)) = self.first_place(size) else {
            return Ok(None);
        };
        self.blocks.insert(index, block)?;
        Ok(Some(block.bounds()))
    }

    // The block that `size` bytes get, and how many blocks lie before it. It is tried right after each
    // block in turn, from the next address that is aligned for it.
    fn first_place(&self, size: u64) -> Option<(usize, Kept)>
        ensures { IfSome result (λ place. place.0 ≤ length self.now.blocks.items) }
    {
        let bytes = size.max(1).checked_next_multiple_of(GRANULE)?;
        let length = u64::try_from(representable_length(bytes)).ok()?;
        let mask = alignment_mask(bytes);
        let mut after = self.base;
        for (index, next) in self.blocks.iter().enumerate() {
            let block = block_from(after, length, mask)?;
            if block.end <= next.start {
                return Some((index, block));
            }
            after = next.end;
        }
        let block = block_from(after, length, mask)?;
        (block.end <= self.end).then_some((self.blocks.len(), block))
    }

    /// Makes the live block with just these bounds held.
    pub(crate) fn release(&mut self, bounds: Block) -> Freed {
        for block in self.blocks.iter_mut() {
            if block.bounds() == bounds {
                if block.held {
                    return Freed::AlreadyHeld;
                }
                block.held = true;
                return Freed::Held;
            }
        }
        Freed::NotBlock
    }

    /// Takes the held blocks away, and answers their bytes.
    pub(crate) fn give_back(&mut self) -> u64 {
        let bytes = self.held_bytes();
        self.blocks.retain(|block| !block.held);
        bytes
    }

    /// The bytes of the held blocks.
    pub(crate) fn held_bytes(&self) -> u64 {
        self.blocks
            .iter()
            .filter(|block| block.held)
            .fold(0u64, |sum, block| sum.wrapping_add(block.bytes()))
    }

    /// The bytes of the live blocks.
    pub(crate) fn live_bytes(&self) -> u64 {
        self.blocks
            .iter()
            .filter(|block| !block.held)
            .fold(0u64, |sum, block| sum.wrapping_add(block.bytes()))
    }

    /// The gaps before, between and after the blocks: how many there are, and their bytes.
    pub(crate) fn gaps(&self) -> (u64, u64) {
        let mut count = 0u64;
        let mut bytes = 0u64;
        let mut after = self.base;
        for block in &self.blocks {
            let gap = block.start.saturating_sub(after);
            count = count.wrapping_add(gap.min(1));
            bytes = bytes.wrapping_add(gap);
            after = block.end;
        }
        let last = self.end.saturating_sub(after);
        (count.wrapping_add(last.min(1)), bytes.wrapping_add(last))
    }

    /// For each granule of the heap whether it lies in a held block.
    pub(crate) fn held_granules(&self, alloc: Global) -> Result<Vec<bool>, AllocError> {
        let mut granules = Vec::new(alloc);
        let mut after = self.base;
        for block in &self.blocks {
            push_granules(&mut granules, after, block.start, false)?;
            push_granules(&mut granules, block.start, block.end, block.held)?;
            after = block.end;
        }
        push_granules(&mut granules, after, self.end, false)?;
        Ok(granules)
    }
}

// The block of `length` bytes at the first address from `from` on that the mask leaves as it is.
fn block_from(from: u64, length: u64, mask: u64) -> Option<Kept> {
    let start = from.checked_add(!mask)? & mask;
    let end = start.checked_add(length)?;
    Some(Kept {
        start,
        end,
        held: false,
    })
}

// Adds this mark for each granule from an address to another.
fn push_granules(
    granules: &mut Vec<bool>,
    start: u64,
    end: u64,
    mark: bool,
) -> Result<(), AllocError> {
    for _ in 0..end.saturating_sub(start) / GRANULE {
        granules.push(mark)?;
    }
    Ok(())
}
