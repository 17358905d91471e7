//! What a run leaves, or why there is none.

use host_memory::Global;
use tag_memory::{Memory, Registers};
use thiserror::Error;
use trace_text::TraceFault;

/// What a run leaves.
#[derive(Drop)]
pub struct Outcome {
    pub report: Vec<u8, Global>,
    pub memory: Memory,
    pub registers: Registers,
}

/// Why a text did not run.
#[derive(Debug, PartialEq, Drop, Error)]
pub enum RunFault {
    /// Memory of the simulator itself ran out.
    #[error("Memory")]
    Memory,
    /// The text is no trace.
    #[error("Trace")]
    Trace(TraceFault),
}
