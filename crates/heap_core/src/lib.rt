//! An allocator's blocks over one heap: which are live, which are held, and where one more goes.
#![tactic(auto)]

mod fault;
mod heap;
mod painting;
mod registers;
mod rows;
mod shape;
mod table;

pub use crate::fault::HeapFault;
pub use crate::heap::Heap;
pub use crate::registers::due_registers;
pub use heap_model::{Block, Freed, Kind, Obstacle, Shadow, sound_heap_law};
