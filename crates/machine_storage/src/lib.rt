//! The heap, memory and registers of a machine, and what each command does to them, whoever makes its passes.
#![tactic(auto)]

mod fault;
mod followed;
mod storage;

pub use crate::fault::MachineFault;
pub use crate::followed::{Followed, RevokerFollowed, Why};
pub use crate::storage::{Found, Storage};
