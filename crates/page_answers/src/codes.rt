//! The codes that a call answers.

/// The text was written.
pub const DONE: u32 = 0;

/// There was no memory for it, and nothing was written.
pub const NO_MEMORY: u32 = 1;

/// The room is shorter than the text, of which the length alone is told.
pub const SHORT: u32 = 2;

/// What was given has no such text: a text that is no trace has no states and no report, and a trace has no fault.
pub const NONE: u32 = 3;
