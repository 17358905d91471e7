//! The program over any devices: words and bytes in, an exit status and bytes out.
#![tactic(auto)]

mod program;
mod runs;

pub use crate::program::{refuse, tool};
pub use command_line::{Options, Refusal};
pub use program_devices::{Answer, Failed, FromRead, FromWrite, Sink, Source};
