//! What a run of a trace leaves: its report, its image, and the law that a trace has one outcome. A text is put to a room.
#![tactic(auto)]

mod image;
mod laws;
mod outcome;
mod report;
mod room;
mod runner;

pub use crate::image::image_lines;
pub use crate::laws::one_run_law;
pub use crate::outcome::{Outcome, RunFault};
pub use crate::report::{Report, Sums};
pub use crate::room::put_all;
pub use crate::runner::Runner;
