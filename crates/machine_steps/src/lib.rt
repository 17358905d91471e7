//! What each command answers and leaves, what an allocator may answer in its place, and the laws of both: safe reuse.
#![tactic(auto)]

mod laws;

pub use crate::laws::{any_placement_law, safe_reuse_law};
