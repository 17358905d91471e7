//! Blocks, and what becomes of bounds.

/// A block: the bytes from the address `base` on, before `top`, which is at most 2^64.
#[derive(Debug, Clone, Copy, PartialEq, Eq, Hash)]
pub struct Block {
    pub base: u64,
    pub top: u128,
}

/// What is so of a block: it is in use, or was given up and waits or is painted.
#[derive(Debug, Clone, Copy, PartialEq, Eq, Hash)]
pub enum Kind {
    Live,
    Waiting,
    Painted,
}

/// What became of bounds that were released.
#[derive(Debug, Clone, Copy, PartialEq, Eq, Hash)]
pub enum Freed {
    /// They are those of a live block, which is now held.
    Held,
    /// They are those of a block that is held already.
    AlreadyHeld,
    /// They are not exactly those of a block.
    NotBlock,
}

/// Why bounds can't be those of a new block.
#[derive(Debug, Clone, Copy, PartialEq, Eq, Hash)]
pub enum Obstacle {
    /// One of them is no multiple of 16.
    Uneven,
    /// The top is not above the base.
    Empty,
    /// They are not all within the heap.
    Outside,
    /// A capability can't hold them as they are.
    Inexact,
    /// This live block has some of their bytes, and none before it has.
    OverLive(Block),
    /// No live block has any of their bytes. This held one has some, and none before it has.
    OverHeld(Block),
}
