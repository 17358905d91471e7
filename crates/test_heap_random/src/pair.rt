//! The heap and the plain list side by side, with what is counted.

use crate::draws::Command;
use crate::plain::Plain;
use heap_core::{Block, Freed, Heap, HeapFault, Shadow};
use std::alloc::Global;
use tag_memory::GRANULE;

const BASE: u64 = 0x4000_1000;

const PAGES: u32 = 1024;

// Bytes of the heap.
const BYTES: u64 = 4_194_304;

/// How often what was answered.
#[derive(Clone, Copy, Default)]
pub struct Counts {
    pub reserved: u64,
    /// Blocks whose base must be a multiple of more than 16: those of 16 KiB and more.
    pub aligned: u64,
    pub refused: u64,
    pub released: u64,
    pub held_already: u64,
    pub not_block: u64,
    pub given_back: u64,
    pub given_bytes: u64,
    pub most_blocks: u64,
    pub most_gaps: u64,
    pub looks: u64,
    pub differences: u64,
}

/// One heap kept in two ways.
#[derive(Drop)]
pub struct Pair {
    heap: Heap,
    pub plain: Plain,
    pub counts: Counts,
}

impl Pair {
    pub(crate) fn new(alloc: Global) -> Result<Pair, HeapFault> {
        let heap = Heap::new(alloc, BASE, PAGES)?;
        Ok(Pair {
            heap,
            plain: Plain::new(alloc, BASE, BASE + BYTES),
            counts: Counts::default(),
        })
    }

    /// Gives a command to both, and counts what they answer.
    pub(crate) fn obey(&mut self, command: Command) -> Result<(), HeapFault> {
        match command {
            Command::Reserve(size) => self.reserve(size),
            Command::Release(bounds) => self.release(bounds),
            Command::GiveBack => self.give_back(),
        }
    }

    fn reserve(&mut self, size: u64) -> Result<(), HeapFault> {
        let block = self.heap.reserve(size)?;
        let same = self.plain.reserve(size)? == block;
        self.compare(same);
        match block {
            Some(_) => {
                count(&mut self.counts.reserved, 1);
                count(&mut self.counts.aligned, u64::from(size >= 16_384));
            }
            None => count(&mut self.counts.refused, 1),
        }
        self.counts.most_blocks = self.counts.most_blocks.max(self.plain.len() as u64);
        Ok(())
    }

    fn release(&mut self, bounds: Block) -> Result<(), HeapFault> {
        let freed = self.heap.release(bounds.base, bounds.top)?;
        let same = self.plain.release(bounds) == freed;
        self.compare(same);
        let counter = match freed {
            Freed::Held => &mut self.counts.released,
            Freed::AlreadyHeld => &mut self.counts.held_already,
            Freed::NotBlock => &mut self.counts.not_block,
        };
        count(counter, 1);
        Ok(())
    }

    fn give_back(&mut self) -> Result<(), HeapFault> {
        self.heap.prepare()?;
        let bytes = self.heap.give_back();
        let same = self.plain.give_back() == bytes;
        self.compare(same);
        count(&mut self.counts.given_back, 1);
        count(&mut self.counts.given_bytes, bytes);
        Ok(())
    }

    /// Compares all sums of bytes and all granules.
    pub(crate) fn look(&mut self, alloc: Global) -> Result<(), HeapFault> {
        let (gaps, same) = self.looks_same(alloc)?;
        self.compare(same);
        count(&mut self.counts.looks, 1);
        self.counts.most_gaps = self.counts.most_gaps.max(gaps);
        Ok(())
    }

    // How many gaps the plain list has, and whether all sums of bytes and all granules agree.
    fn looks_same(&self, alloc: Global) -> Result<(u64, bool), HeapFault> {
        let (gaps, free) = self.plain.gaps();
        let shadow = self.heap.shadow(alloc)?;
        let held = self.plain.held_granules(alloc)?;
        let same = self.heap.live_bytes() == self.plain.live_bytes()
            && self.heap.held_bytes() == self.plain.held_bytes()
            && self.heap.free_bytes() == free
            && is_painted(&shadow, &held);
        Ok((gaps, same))
    }

    // Counts a difference where two answers aren't the same.
    fn compare(&mut self, same: bool) {
        count(&mut self.counts.differences, u64::from(!same));
    }
}

// Whether a shadow has just these granules painted.
fn is_painted(shadow: &Shadow, held: &[bool]) -> bool {
    shadow.granules() == held.len()
        && (0..shadow.granules()).all(|granule| shadow.painted(granule) == held[granule])
}

fn count(counter: &mut u64, more: u64) {
    *counter = counter.wrapping_add(more);
}
