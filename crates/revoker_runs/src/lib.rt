//! Runs of plans: commands of a program with steps of a revoker between them, from a text to the log of what happened.
//!
//! A plan is a text such as a trace, in which a line may also be `paint`, `visit N`, `untag ADDRESS`, `untag cN` or `release`.
//! Who does these steps is a `Revoker`: a bare machine, which does just what a line says, or one of the two that are proved.
#![tactic(auto)]

mod answer;
mod lines;
mod plan;
mod reading;
mod revoker;

pub use crate::answer::{PlanAnswer, Way, log_of_plan, plan_answer};
pub use crate::plan::write_plan;
pub use crate::revoker::Revoker;
