//! Logs judged: whether an allocator may have answered as it says that it did.
#![tactic(auto)]

mod due;
mod judging;
mod laws;
mod origin;
mod seeing;
mod tallying;
mod verdict;

pub use crate::due::{DueWord, due_words};
pub use crate::judging::{follow_event, judge};
pub use crate::laws::safe_log_law;
pub use crate::origin::{freed_line, given_line, handed_out_line};
pub use crate::tallying::{count, count_event};
pub use crate::verdict::{Difference, Tally, Verdict};
