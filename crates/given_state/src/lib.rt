//! The machine which the given lines of a log tell of, or what these lack.
#![tactic(auto)]

mod blocks;
mod fault;
mod laws;
mod once;
mod starting;
mod words;

pub use crate::fault::{Lack, StartFault};
pub use crate::laws::no_flaw_law;
pub use crate::starting::start;
