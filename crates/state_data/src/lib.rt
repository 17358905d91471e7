//! A run of a trace as data: JSON, one value a line.
#![tactic(auto)]

mod recording;
mod replies;
mod snapshot;
mod writing;

pub use crate::recording::{states, states_alone};
