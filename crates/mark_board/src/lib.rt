//! Bits that several threads set, each set first by exactly one of them.
#![tactic(auto)]

mod board;
mod fault;
mod rule;
mod seat;

pub use crate::board::Board;
pub use crate::fault::BoardFault;
pub use crate::seat::MarkSeat;
