//! Why there is no machine, or why a step was not done.

use thiserror::Error;

/// Why there is no such machine, or why a step wasn't done.
#[derive(Debug, PartialEq, Drop, Error)]
pub enum MachineFault {
    /// Memory of the simulator itself ran out.
    #[error("Memory")]
    Memory,
    /// The base is no multiple of 4,096, or the end is past `2^64`.
    #[error("BadBase")]
    BadBase,
    /// There are no pages, or more than 1,024.
    #[error("BadSize")]
    BadSize,
}
