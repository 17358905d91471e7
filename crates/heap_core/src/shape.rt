//! What a block of a size needs.

ghost use Rattle.std.specs.Prelude.{◌≡◌, ◌<◌, ◌≤◌, ◌+◌, ◌*◌, ◌%◌, ◌^◌, ℕ, max};
ghost use Rattle.cap_codec.specs.Rounding.{IsExact, length_for, unit_for};
ghost use Rattle.heap_model.specs.Place.{granule_size};

use cap_codec::{alignment_mask, representable_length};
use tag_memory::GRANULE;

// A word holds the bounds of a block of fewer granules wherever it starts.
const SHORT_GRANULES: u64 = 256;

/// How many granules a block has, and the number of which its first granule, counted from address
/// 0, is a multiple.
#[derive(Clone, Copy)]
pub struct Shape {
    pub granules: u64,
    pub unit: u64,
}

// How many granules hold `size` bytes.
pub fn granules_for(size: u64) -> u64
    ensures { 16 * result ≡ granule_size size }
{
    size.max(1).div_ceil(GRANULE)
}

// The shape of a block that holds so many granules.
pub fn shape_for(granules: u64) -> Shape
    requires some { 0 < granules }
    requires limit { 16 * granules < 2 ^ 64 }
    ensures granules { 16 * result.granules ≡ length_for (16 * granules) }
    ensures exact { (base : ℕ) → base % unit_for (16 * granules) ≡ 0
        → base + length_for (16 * granules) ≤ 2 ^ 64
        → IsExact base (base + length_for (16 * granules)) }
    ensures unit { 16 * result.unit ≡ max 16 (unit_for (16 * granules)) }
    ensures some { 0 < result.granules }
    ensures granules_limit { result.granules ≤ 2 ^ 60 }
    ensures unit_limit { result.unit ≤ 2 ^ 60 }
{
    if granules < SHORT_GRANULES {
        return Shape { granules, unit: 1 };
    }
    let bytes = GRANULE * granules;
    let length = representable_length(bytes);
    // The unit in bytes is one more than what the mask leaves out.
    let rest = u64::MAX - alignment_mask(bytes);
    Shape {
        granules: (length / u128::from(GRANULE)) as u64,
        unit: rest / GRANULE + 1,
    }
}
