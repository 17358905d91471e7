//! What is said of a log beside its verdict: what is wanted in its faulty line, and that it has a part of a run.
#![tactic(auto)]

mod answers;
mod forms;
mod hint;
mod notes;
mod part;
mod saying;

pub use crate::hint::hint_of;
pub use crate::notes::notes_of;
pub use crate::part::{part_comment, part_line};
