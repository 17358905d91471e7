//! The program that judges logs of allocators, over any devices: words and bytes in, an exit status and lines out.
#![tactic(auto)]

mod checking;
mod part;
mod program;

pub use crate::program::{check_tool, refuse};
pub use command_line::{Options, Refusal};
pub use program_devices::{Failed, FromRead, FromWrite, Sink, Source};
