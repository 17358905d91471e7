//! What the programs over a trace share: the devices that they read from and write to, statuses with their lines, and
//! how passes are cut.
#![tactic(auto)]

mod answer;
mod cutting;
mod devices;

pub use crate::answer::{Answer, fault_answer, give, refuse};
pub use crate::cutting::cutting_of;
pub use crate::devices::{Failed, FromRead, FromWrite, ReadFault, Sink, Source, read_text, send};
