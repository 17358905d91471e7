//! What a revoker may do in steps of its own, beside the program's commands, and the laws of both.
//!
//! A revoker may be anything that paints, takes tags one by one or page by page, and releases. Whatever it does, the heap is
//! safe (`revoker_law`). Two of them are followed through an epoch: one that looks again at pages into which the program stored
//! a capability (`cornucopia_law`), and one that looks at a page before the program loads from it (`reloaded_law`).
#![tactic(auto)]

mod command;
mod laws;
mod text;

pub use crate::command::{RevokerCommand, RevokerReply, RevokerTrap};
pub use crate::laws::{barrier_law, cornucopia_law, passes_law, reloaded_law, revoker_law};
