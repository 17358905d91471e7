//! The program that tells states, over any devices: words and bytes in, an exit status and lines of JSON out.
#![tactic(auto)]

mod program;

pub use crate::program::{refuse, states_tool};
pub use command_line::{Options, Refusal};
pub use program_devices::{Failed, FromRead, FromWrite, Sink, Source};
