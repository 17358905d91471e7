//! The program that runs plans, over any devices: words and bytes in, an exit status and a log out.
#![tactic(auto)]

mod program;
mod words;

pub use crate::program::{plan_tool, refuse};
pub use crate::words::{Choice, choice_by};
pub use command_line::{Options, Refusal};
pub use program_devices::{Failed, FromRead, FromWrite, Sink, Source};
pub use revoker_runs::Way;
