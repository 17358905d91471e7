//! Words that are made for bounds, and the lengths that a word can hold.

ghost use Rattle.std.specs.Prelude.{◌≡◌, ◌<◌, ◌≤◌, ◌+◌, ◌-◌, ◌%◌, ◌^◌, ◌↔◌, IsTrue, ℕ};
ghost use Rattle.cap_codec.specs.Fields.{fields_of};
ghost use Rattle.cap_codec.specs.Mantissas.{exponent_of};
ghost use Rattle.cap_codec.specs.Rounding.{IsExact, IsExponent, IsNearExponent, exponent_for, length_for, outward_bounds, round_up, unit_for, with_bounds_of};
ghost use Rattle.cap_codec.specs.Words.{bounds_in, is_exact, narrowed_word};

use crate::rounded::{SHORT, fits, length_with, mask_with, with_exponent};
use crate::word::Word;

/// The word with these bounds, rounded outward where it can't hold them, and its address at `base`;
/// and whether it holds them exactly.
///
/// ```rust
/// use cap_codec::{Word, bounds, with_bounds};
///
/// // 4,097 bytes are too many for a word to hold their end to the byte.
/// let (word, exact) = with_bounds(Word::NULL, 0x4000_0000, 0x4000_1001);
/// assert!(rt; !exact);
/// assert_eq!(rt; bounds(word).top, 0x4000_1008);
/// ```
pub fn with_bounds(w: Word, base: u64, top: u128) -> (Word, bool)
    requires order { base ≤ top }
    requires room { top ≤ 2 ^ 64 }
    ensures fields { fields_of result.0 ≡ with_bounds_of (fields_of w) base top }
    ensures word { result.0 ≡ narrowed_word w base top }
    ensures bounds { bounds_in result.0 ≡ outward_bounds base top }
    ensures limit { (outward_bounds base top).top ≤ 2 ^ 64 }
    ensures exact { IsTrue result.1 ↔ IsExact base top }
    ensures flag { result.1 ≡ is_exact base top }

    // Bounds that aren't short get the least exponent that is enough.
    ensures exponent { 2 ^ 12 ≤ top - base
        → IsExponent base top (exponent_of (fields_of result.0)) }
    ensures near { 2 ^ 12 ≤ top - base
        → IsNearExponent (top - base) (exponent_of (fields_of result.0)) }
{
    with_exponent(w, base, top, least_exponent(base, top))
}

/// The least length from `n` on that a word can hold from address 0.
///
/// ```rust
/// assert_eq!(rt; cap_codec::representable_length(4095), 4095);
/// assert_eq!(rt; cap_codec::representable_length(4097), 4104);
/// ```
pub fn representable_length(n: u64) -> u128
    ensures value { result ≡ length_for n }
    ensures least { n ≤ result }
    ensures limit { result ≤ 2 ^ 64 }
    ensures minimal { (m : ℕ) → n ≤ m → m ≤ 2 ^ 64 → IsExact 0 m → result ≤ m }

    // A word holds it from each multiple of its unit on.
    ensures exact { (base : ℕ) → base % unit_for n ≡ 0 → base + result ≤ 2 ^ 64
        → IsExact base (base + result) }

    // It is rounded up for the least exponent that is enough, and a short one not at all.
    ensures short { n < 2 ^ 12 → result ≡ n }
    ensures exponent { 2 ^ 12 ≤ n → (e : ℕ) × IsExponent 0 n e × (result ≡ round_up (e + 3) n) }
{
    length_with(n, least_exponent(0, u128::from(n)))
}

/// The mask of the addresses from which a word can hold the representable length of `n`: the
/// multiples of its unit.
pub fn alignment_mask(n: u64) -> u64
    ensures value { result + unit_for n ≡ 2 ^ 64 }
    ensures short { n < 2 ^ 12 → result + 1 ≡ 2 ^ 64 }

    // The unit of the least exponent that is enough.
    ensures exponent { 2 ^ 12 ≤ n → (e : ℕ) × IsExponent 0 n e × (result + 2 ^ (e + 3) ≡ 2 ^ 64) }
{
    mask_with(n, least_exponent(0, u128::from(n)))
}

// The least exponent for which the bounds, rounded, are short enough: the place of the length's
// highest bit less 12, or one more where rounding makes them too long for that. Most bounds are short,
// and have the exponent 0.
fn least_exponent(base: u64, top: u128) -> u8
    requires order { base ≤ top }
    requires room { top ≤ 2 ^ 64 }
    ensures value { result ≡ exponent_for base top }
    ensures limit { result ≤ 52 }
{
    let length = top - u128::from(base);
    if length < SHORT {
        return 0;
    }
    let exponent = (length.ilog2() - 12) as u8;
    if fits(base, top, exponent) {
        exponent
    } else {
        exponent + 1
    }
}
