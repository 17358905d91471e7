//! What heaps and blocks are, what keeps a heap sound, and the shadow of a heap.
#![tactic(auto)]

mod block;
mod laws;
mod shadow;

pub use crate::block::{Block, Freed, Kind, Obstacle};
pub use crate::laws::sound_heap_law;
pub use crate::shadow::Shadow;
