//! What a page, or a program in C, asks of the proved program: the states of a trace, the report of its run, the line of its
//! fault, what is said of a log and beside it, the log of a plan, and the line of a word. Each call writes a text where a room begins, says how long
//! the text is, and answers a code.
#![tactic(auto)]

mod answers;
mod codes;

pub use crate::answers::{
    page_fault, page_log, page_notes, page_plan, page_report, page_states, page_word,
};
