//! What is said of a log: a status and lines, over whoever makes its passes.
#![tactic(auto)]

mod answer;
mod due_lines;
mod judging;
mod lines;

pub use crate::answer::LogAnswer;
pub use crate::judging::log_answer;
