//! Numbers that look random, and are the same for a seed.

ghost use Rattle.std.specs.Prelude.{◌<◌};

/// A row of such numbers.
#[derive(Drop)]
pub struct Draws {
    seed: u64,
}

impl Draws {
    /// The row of a seed.
    pub fn new(seed: u64) -> Draws {
        Draws {
            seed: seed.wrapping_mul(0x9e37_79b9_7f4a_7c15).wrapping_add(1),
        }
    }

    /// The next number (the step of Knuth's MMIX), with its upper half over its lower, which repeats too soon.
    pub fn number(&mut self) -> u64 {
        self.seed = self
            .seed
            .wrapping_mul(6_364_136_223_846_793_005)
            .wrapping_add(1_442_695_040_888_963_407);
        self.seed ^ self.seed >> 32
    }

    /// One of the numbers from 0 to `limit - 1`.
    pub fn below(&mut self, limit: u64) -> u64
        requires { 0 < limit }
        ensures { result < limit }
    {
        self.number() % limit
    }

    /// A size in bytes as programs ask for: most are small, and one in fifty is of 4 to 32 KiB.
    pub fn size(&mut self) -> u64
        ensures { result < 65_536 }
    {
        match self.below(100) {
            0..70 => 1 + self.below(128),
            70..90 => 128 + self.below(384),
            90..98 => 512 + self.below(3584),
            _ => 4096 + self.below(28_672),
        }
    }
}
