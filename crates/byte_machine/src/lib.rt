//! The machine as calls on the bytes of its states.
#![tactic(auto)]

mod commands;
mod fault;
mod faults;
mod following;
mod halves;
mod lines;
mod looking;
mod machines;
mod reasons;
mod replies;
mod revoking;
mod runs;
mod stepping;

pub use crate::commands::{CommandRecord, command_of, record_of};
pub use crate::fault::CallFault;
pub use crate::faults::{FaultRecord, fault_record};
pub use crate::following::follow;
pub use crate::lines::{LONGEST_REPLY, command_in, step_line};
pub use crate::looking::{CountRecord, WordRecord, counts, granule, register};
pub use crate::machines::{machine_in, put_state};
pub use crate::reasons::{WhyRecord, why_record};
pub use crate::replies::{ReplyRecord, reply_of, reply_record};
pub use crate::revoking::{revoke, revoker_command_of, revoker_reply_record};
pub use crate::runs::{run_report, run_states};
pub use crate::stepping::{first, state_length, step};
