//! What is said of a log.

use heap_machine::Why;
use revoker_steps::RevokerReply;

/// How a log differs from what may be.
#[derive(Debug, Clone, Copy, PartialEq, Eq)]
pub enum Difference {
    /// An answer isn't allowed, for this reason.
    Answer(Why),
    /// A revoker's step has this answer alone.
    Step(RevokerReply),
    /// No granule of the heap lies at an address that was read.
    NoGranule,
    /// A granule that was read has another content, which is this.
    Granule { tag: bool, bytes: [u8; 16] },
}

/// What the events of a log come to.
#[derive(Debug, Clone, Copy, PartialEq, Eq)]
pub struct Tally {
    /// Tags that passes took.
    pub tags: u64,
    /// Commands that were done.
    pub commands: u32,
    /// Blocks that were handed out.
    pub blocks: u32,
    /// Passes that answers tell of.
    pub passes: u32,
}

/// What is said of the events of a log.
#[derive(Debug, Clone, Copy, PartialEq, Eq)]
pub enum Verdict {
    /// Each follows from those before it.
    Agrees(Tally),
    /// The event of this line is the first that doesn't, with so many before it.
    Differs {
        line: u32,
        count: usize,
        difference: Difference,
    },
}
