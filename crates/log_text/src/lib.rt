//! Logs: what an allocator was asked and what it answered, as its author prints it in the words of traces and reports.
#![tactic(auto)]

mod asking;
mod event;
mod fault;
mod given;
mod laws;
mod log;
mod numbers;
mod replies;
mod revoking;
mod text;

pub use crate::asking::asked_line;
pub use crate::event::{Asked, event_of_answer, question};
pub use crate::fault::LogFault;
pub use crate::laws::reply_grammar_law;
pub use crate::log::{Event, Given, Log};
pub use crate::replies::reply;
pub use crate::text::{LONGEST_LOG, Start, parse, read_start};
