//! Capability words of 64-bit CHERI-RISC-V (CHERI Concentrate): their fields, their bytes, the
//! bounds that they decode to, and words that are made for bounds.
#![tactic(auto)]

mod bytes;
mod corrected;
mod decode;
mod derive;
mod laws;
mod mantissas;
mod permissions;
pub mod plain;
mod rounded;
mod rounding;
mod word;

pub use crate::bytes::{from_bytes, to_bytes};
pub use crate::corrected::{bounds, corrections, representable};
pub use crate::decode::{fields, word_of};
pub use crate::derive::{and_perms, block_capability, set_address};
pub use crate::laws::{derivation_law, exact_bounds_law, null_is_zeros_law, permission_bits_law};
pub use crate::mantissas::exponent;
pub use crate::permissions::{GLOBAL, LOAD, LOAD_CAPABILITY, STORE, STORE_CAPABILITY, is_allowed};
pub use crate::rounding::{alignment_mask, representable_length, with_bounds};
pub use crate::word::{Bounds, Fields, Word};
