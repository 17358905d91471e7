//! Tagged memory, granule by granule, and the registers of a machine.
#![tactic(auto)]

mod bases;
mod bits;
mod extent;
mod laws;
mod memory;
mod page_masks;
mod pages;
mod registers;

pub use crate::bases::FAR;
pub use crate::bits::{WORD_GRANULES, bit, lowest_bit, row_bit, with_bit, without_lowest};
pub use crate::extent::{GRANULE, MOST_PAGES, PAGE, PAGE_GRANULES, is_base, is_size};
pub use crate::laws::size_law;
pub use crate::memory::{Memory, MemoryFault, PAGE_WORDS};
pub use crate::registers::{REGISTERS, Registers};
