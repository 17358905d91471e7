//! The machine that runs the commands of a trace: its steps, safe reuse and revocation; runs of whole traces.
#![tactic(auto)]

mod machine;
mod passes;
mod running;
mod stepper;

pub use crate::machine::{Flaw, Machine, is_guarded};
pub use crate::stepper::{Alone, Stepper, Workers};
pub use heap_core::{Block, Kind, Obstacle};
pub use heap_reply::{BoundedAddress, Hexadecimal, Reply, Shown, Trap, flag_number};
pub use machine_steps::{any_placement_law, safe_reuse_law};
pub use machine_storage::{Followed, MachineFault, RevokerFollowed, Why};
pub use revoker_steps::{RevokerCommand, RevokerReply, RevokerTrap};
