//! Where the bases of words lie in a memory.

ghost use Rattle.std.specs.Prelude.{◌≡◌};
ghost use Rattle.tag_memory.specs.Bases as bases;

use crate::extent::GRANULE;
use cap_codec::{Word, bounds};

/// Stands for a base before a memory, or so far behind its start that 32 bits don't hold its granule's number.
pub const FAR: u32 = u32::MAX;

/// The granule in which the base of the word with these bits lies, counted from the address `start`.
#[tactic(auto, unfolding(crate::specs::Bases::base_granule))]
pub(crate) fn base_granule(start: u64, bits: u128) -> u32
    ensures { result ≡ bases.base_granule start (record { bits = bits }) }
{
    let base = bounds(Word { bits }).base;
    if base < start {
        return FAR;
    }
    let granule = (base - start) / GRANULE;
    if granule >= u64::from(FAR) {
        return FAR;
    }
    granule as u32
}
