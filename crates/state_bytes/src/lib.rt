//! The state of a machine as bytes: one text for each state.
#![tactic(auto)]

mod blocks;
mod comparing;
mod decoding;
mod encoding;
mod fault;
mod laws;
mod places;
mod words;

pub use crate::decoding::decode;
pub use crate::encoding::{encode, encode_into, encode_registers_into};
pub use crate::fault::BytesFault;
pub use crate::laws::{exact_blocks_law, one_text_law};
pub use crate::places::text_length;
