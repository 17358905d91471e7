//! Traces of a heap: the runs of their commands.
#![tactic(auto)]

mod image;
mod running;

pub use crate::image::image_text;
pub use crate::running::{run, run_alone};
pub use heap_machine::{
    BoundedAddress, Hexadecimal, Machine, MachineFault, Reply, Shown, Trap, flag_number,
    safe_reuse_law,
};
pub use trace_report::{Outcome, RunFault, one_run_law};
pub use trace_text::{
    Command, LONGEST_TEXT, Trace, TraceFault, command_grammar_law, parse, trace_grammar_law,
};
