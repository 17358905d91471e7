//! Why there is no board, or no answer of one.

ghost use Rattle.std.specs.Prelude.{◌≡◌};
ghost use Rattle.mark_board.specs.declared.fault.BoardFault.TheVariants.{Memory};

use std::alloc::AllocError;
use thiserror::Error;

/// What is wrong with a board that was asked for, or with what was asked of it.
#[derive(Debug, PartialEq, Drop, Error)]
pub enum BoardFault {
    /// An allocation was refused.
    #[error("Memory")]
    Memory,
    /// There are 0 bits, or more than 262,144.
    #[error("BadSize")]
    BadSize,
    /// There are 0 parts, or more than 64.
    #[error("BadParts")]
    BadParts,
}

impl From<AllocError> for BoardFault {
    ghost from_gives = { λ _ e. e ≡ Memory };

    fn from(_: AllocError) -> BoardFault {
        BoardFault::Memory
    }
}
