//! What commands answer.

ghost use Rattle.std.specs.Prelude.{◌≡◌};
ghost use Rattle.heap_reply.specs.Shown.{shown_of};

use cap_codec::{Word, bounds, exponent, fields};
use std::fmt;

/// Why a command changed nothing: the first of its checks that failed.
#[derive(Debug, Clone, Copy, PartialEq, Eq)]
pub enum Trap {
    /// The register isn't tagged.
    Tag,
    /// A permission lacks.
    Perm,
    /// The bytes aren't all within the bounds.
    Bounds,
    /// The address is no multiple of 16.
    Align,
    /// The length is 0.
    Empty,
    /// A word can't hold these bounds as they are.
    Inexact,
    /// The block was freed already.
    Freed,
    /// The bounds are no block's.
    NotBlock,
    /// An epoch is open.
    Open,
    /// No epoch is open.
    NotOpen,
}

/// What `show` shows of a register.
// From the widest field to the narrowest: padding of odd length is copied by two moves that overlap, in each reply, and the
// next copy waits for both.
#[derive(Clone, Copy, PartialEq, Eq)]
pub struct Shown {
    pub top: u128,
    pub address: u64,
    pub base: u64,
    pub otype: u32,
    pub perms: u16,
    pub exponent: u8,
    pub tag: bool,
}

impl fmt::Debug for Shown {
    // In the order in which `show` tells them.
    fn fmt<W: fmt::Write>(&self, f: &mut fmt::Formatter<W>) -> fmt::Result {
        f.debug_struct("Shown")
            .field("tag", &self.tag)
            .field("address", &self.address)
            .field("base", &self.base)
            .field("top", &self.top)
            .field("perms", &self.perms)
            .field("otype", &self.otype)
            .field("exponent", &self.exponent)
            .finish()
    }
}

impl Shown {
    /// What is shown of a register that holds this word with this tag.
    // Inlined, so that a reply is made in registers: a copy of one that was just written waits for the cache.
    #[inline(always)]
    pub fn of(word: Word, tag: bool) -> Shown
        ensures { result ≡ shown_of (word, tag) }
    {
        let f = fields(word);
        let within = bounds(word);
        Shown {
            tag,
            address: f.address,
            base: within.base,
            top: within.top,
            perms: f.perms,
            otype: f.otype,
            exponent: exponent(word),
        }
    }
}

/// What a command answers.
#[derive(Debug, Clone, Copy, PartialEq, Eq)]
pub enum Reply {
    /// A block was handed out.
    Block { base: u64, top: u128 },
    /// A block was handed out after a sweep, which took so many tags.
    BlockAfter { base: u64, top: u128, cleared: u32 },
    /// No place fits.
    NoSpace,
    /// No place fits even after a sweep, which took so many tags.
    NoSpaceAfter { cleared: u32 },
    /// So many bytes wait in quarantine.
    Held(u64),
    /// It is done.
    Done,
    /// It is done, and the register written isn't tagged though its source is.
    Cleared,
    /// So many tags were taken, and so many bytes are free again.
    Swept { cleared: u32, released: u64 },
    /// An epoch has begun, and so many tags of memory were taken.
    Begun { cleared: u32 },
    /// A register was shown.
    Shown(Shown),
    /// A check failed, and nothing was changed.
    Trap(Trap),
}
