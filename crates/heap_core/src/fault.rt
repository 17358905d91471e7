//! Why a heap could not be made.

ghost use Rattle.std.specs.Prelude.{◌≡◌};
ghost use Rattle.heap_core.specs.declared.fault.HeapFault.TheVariants.{Memory};

use std::alloc::AllocError;
use thiserror::Error;

/// What is wrong with a heap that was asked for.
#[derive(Debug, PartialEq, Drop, Error)]
pub enum HeapFault {
    /// An allocation was refused.
    #[error("Memory")]
    Memory,
    /// The base is not a multiple of 4,096, or the end is past 2^64.
    #[error("BadBase")]
    BadBase,
    /// There are 0 pages, or more than 1,024.
    #[error("BadSize")]
    BadSize,
}

impl From<AllocError> for HeapFault {
    ghost from_gives = { λ _ e. e ≡ Memory };

    fn from(_: AllocError) -> HeapFault {
        HeapFault::Memory
    }
}
