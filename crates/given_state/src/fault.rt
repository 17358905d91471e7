//! What given lines lack.

use heap_machine::Obstacle;

/// What a given line lacks.
#[derive(Debug, Clone, Copy, PartialEq, Eq)]
pub enum Lack {
    /// The block may not lie there, beside those of the lines before it, for this reason.
    Block(Obstacle),
    /// The register was given already, first at this line.
    RegisterAgain { register: u8, line: u32 },
    /// The granule was given already, first at this line.
    GranuleAgain { address: u64, line: u32 },
    /// No granule of the heap lies at the address.
    NoGranule,
    /// It gives register 0, which is always null, another content.
    NotNull,
    /// The word is tagged, and no given block has all of these bounds, or they are empty.
    Unguarded { base: u64, top: u128 },
}

/// Why no machine was made of given lines.
#[derive(Debug, Clone, Copy, PartialEq, Eq)]
pub enum StartFault {
    /// An allocation was refused.
    Memory,
    /// They tell no state that is safe: the block of this line is the first that lacks this, or, where none does, its
    /// register or granule the first that is given again, or, where none is, its word the first that lacks this.
    Unsafe { line: u32, lack: Lack },
}
