//! What the words of a command line ask for, and which words a process has.
#![tactic(auto)]

mod asked;
mod process;

pub use crate::asked::{Asked, Options, Refusal, asked_by, states_options_by};
pub use crate::process::arguments;
