//! Commands that look random, and are the same in each run.

ghost use Rattle.std.specs.Prelude.{◌<◌};

use crate::plain::Plain;
use heap_core::Block;
use tag_memory::GRANULE;

// Commands of a season: in one more blocks are asked for than released, in the next fewer.
const SEASON: u32 = 5000;

/// What both heaps are told to do.
#[derive(Clone, Copy)]
pub enum Command {
    /// To make a block for so many bytes live.
    Reserve(u64),
    /// To make the block with these bounds held.
    Release(Block),
    /// To make the held blocks free.
    GiveBack,
}

/// A row of numbers that looks random.
#[derive(Drop)]
pub struct Draws {
    pub seed: u64,
}

impl Draws {
    // The next number (the step of Knuth's MMIX), with its upper half over its lower, which repeats too
    // soon.
    fn number(&mut self) -> u64 {
        self.seed = self
            .seed
            .wrapping_mul(6_364_136_223_846_793_005)
            .wrapping_add(1_442_695_040_888_963_407);
        self.seed ^ self.seed >> 32
    }

    // One of the numbers from 0 to `limit - 1`.
    fn below(&mut self, limit: u64) -> u64
        requires { 0 < limit }
        ensures { result < limit }
    {
        self.number() % limit
    }

    /// The command for this turn.
    pub(crate) fn command(&mut self, turn: u32, plain: &Plain) -> Command {
        let reserves = if (turn / SEASON).is_multiple_of(2) {
            600
        } else {
            400
        };
        let pick = self.below(1000);
        if pick < 3 {
            Command::GiveBack
        } else if pick < reserves {
            Command::Reserve(self.size())
        } else {
            Command::Release(self.bounds(plain))
        }
    }

    // A size: most are small, one in thirteen is of 16 KiB and more, and a few are of any number of bytes.
    fn size(&mut self) -> u64 {
        match self.below(1000) {
            0 => self.number(),
            1..20 => 16_384 + self.below(245_760),
            20..80 => 16_384 + self.below(16_384),
            80..300 => self.below(4096),
            _ => self.below(512),
        }
    }

    // Bounds of one of the blocks, or now and then such that are a granule off.
    fn bounds(&mut self, plain: &Plain) -> Block {
        let count = plain.len().max(1) as u64;
        let index = self.below(count) as usize;
        let bounds = plain.bounds_at(index).unwrap_or(Block { base: 0, top: 16 });
        match self.below(100) {
            0 => Block {
                base: bounds.base.wrapping_add(GRANULE),
                top: bounds.top,
            },
            1 => Block {
                base: bounds.base,
                top: bounds.top.wrapping_sub(u128::from(GRANULE)),
            },
            _ => bounds,
        }
    }
}
