//! What became of an answer that an allocator gave.

use heap_core::Obstacle;
use heap_reply::Reply;
use revoker_steps::RevokerReply;

/// What became of a command that was answered by an allocator.
#[derive(Debug, Clone, Copy, PartialEq, Eq)]
pub enum Followed {
    /// The answer is allowed, and the command is done as it says.
    Agrees,
    /// The answer isn't allowed, for this reason, and nothing was changed.
    Differs(Why),
}

/// Why an answer isn't allowed.
#[derive(Debug, Clone, Copy, PartialEq, Eq)]
pub enum Why {
    /// The command has one answer, which is this.
    MustBe(Reply),
    /// A malloc is answered by a block or by `nospace`.
    NotOfMalloc,
    /// The block has fewer bytes than were asked for.
    TooShort,
    /// A sweep was told, and none may be: an epoch is open, or no block waits.
    MayNotSweep,
    /// A sweep was told, and it takes so many tags.
    Takes(u32),
    /// The block may not lie there, for this reason.
    Refused(Obstacle),
}

/// What became of a revoker's command that was answered.
#[derive(Debug, Clone, Copy, PartialEq, Eq)]
pub enum RevokerFollowed {
    /// The answer is the one that it has, and the step is made.
    Agrees,
    /// It has this answer alone, and nothing was changed.
    MustBe(RevokerReply),
}
