//! Why bytes tell of no machine.

/// Why bytes tell of no machine's state: the first of these that was found.
#[derive(Debug, Clone, Copy, PartialEq, Eq)]
pub enum BytesFault {
    /// An allocation was refused.
    Memory,
    /// They are fewer than a head, or not as many as a heap of the pages that it names takes.
    Length,
    /// No heap can lie where the head says, or have so many pages.
    Head,
    /// A block can't lie where they say, with the bounds that they say.
    Blocks,
    /// A tagged word isn't guarded by a block, or stands in a clean page where it may not.
    Words,
    /// A machine is as they say, but they aren't its bytes: a flag is neither 0 nor 1, a block's number has no kind, or
    /// register 0 isn't null.
    Spelling,
}
