//! The parts of a line of data, as tokens of JSON: commands, registers, granules, blocks and tags.
#![tactic(auto)]

mod blocks;
mod cells;
mod changes;
mod data_line;
mod granules;
mod spelling;
mod taken;

pub use crate::blocks::{HeldBlock, in_order, put_block, put_blocks, put_span};
pub use crate::cells::put_address;
pub use crate::changes::{put_register, put_registers};
pub use crate::data_line::DataLine;
pub use crate::granules::{put_granule, put_tags};
pub use crate::spelling::spell;
pub use crate::taken::{put_none_taken, put_taken};
