//! Rows of bits, one a granule: runs set and cleared in them, and a row of free granules with a tree of
//! summaries, which finds the first run of ones.
#![tactic(auto)]

mod count;
mod find;
mod last;
mod ranges;
mod row;
mod summary;
mod tree;
mod word;

pub use crate::count::{count_both, place_of_both};
pub use crate::last::last_set;
pub use crate::ranges::{clear_run, clear_words, range_word, set_run};
pub use crate::row::FreeRow;
pub use tag_memory::row_bit;
