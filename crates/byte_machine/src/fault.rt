//! Why a call gives no answer.

use state_bytes::BytesFault;
use trace_text::LineFault;

/// Why a call gives no answer. Nothing is written then.
#[derive(Debug, Clone, Copy, PartialEq, Eq)]
pub enum CallFault {
    /// Memory of the simulator itself ran out.
    Memory,
    /// The room for a state isn't as long as what is to be written there.
    Room,
    /// The bytes are no state's, for this reason, which is never want of memory.
    State(BytesFault),
    /// There are no pages, or more than 1,024.
    BadSize,
    /// The base is no multiple of 4,096, or the end is past `2^64`.
    BadBase,
    /// No register has this number.
    Register,
    /// No granule starts at this address.
    Address,
    /// The room for a text is too short.
    TextRoom,
    /// The line has no word, or is a comment.
    PassedOver,
    /// This is wrong with the line.
    Line(LineFault),
}
