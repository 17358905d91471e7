//! Bounds rounded outward for an exponent that is known.

ghost use Rattle.std.specs.Prelude.{◌≡◌, ◌<◌, ◌≤◌, ◌+◌, ◌-◌, ◌%◌, ◌^◌, ◌↔◌, IsTrue, ℕ};
ghost use Rattle.cap_codec.specs.Fields.{IsValid, fields_of};
ghost use Rattle.cap_codec.specs.Mantissas.{exponent_of};
ghost use Rattle.cap_codec.specs.Rounding.{Fits, IsExact, IsExponent, IsNearExponent, exponent_for, length_for, outward_bounds, round_down, round_up, unit_for, with_bounds_of};
ghost use Rattle.cap_codec.specs.Words.{bounds_in, is_exact, narrowed_word};

use crate::decode::{fields, word_of};
use crate::word::{Bounds, Fields, Word};

// Bounds shorter than this are held as they are, with no exponent.
pub const SHORT: u128 = 1 << 12;

// The word with these bounds, rounded for this exponent, as `with_bounds` promises it.
pub fn with_exponent(w: Word, base: u64, top: u128, exponent: u8) -> (Word, bool)
    requires order { base ≤ top }
    requires room { top ≤ 2 ^ 64 }
    requires exponent { exponent ≡ exponent_for base top }
    requires limit { exponent ≤ 52 }
    ensures fields { fields_of result.0 ≡ with_bounds_of (fields_of w) base top }
    ensures word { result.0 ≡ narrowed_word w base top }
    ensures bounds { bounds_in result.0 ≡ outward_bounds base top }
    ensures limit { (outward_bounds base top).top ≤ 2 ^ 64 }
    ensures exact { IsTrue result.1 ↔ IsExact base top }
    ensures flag { result.1 ≡ is_exact base top }

    // Bounds that aren't short get the least exponent that is enough.
    ensures exponent { 2 ^ 12 ≤ top - base
        → IsExponent base top (exponent_of (fields_of result.0)) }
    ensures near { 2 ^ 12 ≤ top - base
        → IsNearExponent (top - base) (exponent_of (fields_of result.0)) }
{
    let set = set_bounds(fields(w), base, top, exponent);
    let exact = outward_bounds(base, top, exponent) == Bounds { base, top };
    (word_of(set), exact)
}

// The representable length of `n`, rounded for this exponent.
pub fn length_with(n: u64, exponent: u8) -> u128
    requires exponent { exponent ≡ exponent_for 0 n }
    requires limit { exponent ≤ 52 }
    ensures value { result ≡ length_for n }
    ensures least { n ≤ result }
    ensures limit { result ≤ 2 ^ 64 }
    ensures minimal { (m : ℕ) → n ≤ m → m ≤ 2 ^ 64 → IsExact 0 m → result ≤ m }

    // A word holds it from each multiple of its unit on.
    ensures exact { (base : ℕ) → base % unit_for n ≡ 0 → base + result ≤ 2 ^ 64
        → IsExact base (base + result) }

    // It is rounded up for the least exponent that is enough, and a short one not at all.
    ensures short { n < 2 ^ 12 → result ≡ n }
    ensures exponent { 2 ^ 12 ≤ n → (e : ℕ) × IsExponent 0 n e × (result ≡ round_up (e + 3) n) }
{
    outward_bounds(0, u128::from(n), exponent).top
}

// The alignment mask of `n`, for this exponent.
pub fn mask_with(n: u64, exponent: u8) -> u64
    requires exponent { exponent ≡ exponent_for 0 n }
    requires limit { exponent ≤ 52 }
    ensures value { result + unit_for n ≡ 2 ^ 64 }
    ensures short { n < 2 ^ 12 → result + 1 ≡ 2 ^ 64 }

    // The unit of the least exponent that is enough.
    ensures exponent { 2 ^ 12 ≤ n → (e : ℕ) × IsExponent 0 n e × (result + 2 ^ (e + 3) ≡ 2 ^ 64) }
{
    if u128::from(n) < SHORT {
        u64::MAX
    } else {
        ((1 << 64) - power(exponent + 3)) as u64
    }
}

// The fields with these bounds, rounded outward, and the address at `base`.
fn set_bounds(f: Fields, base: u64, top: u128, exponent: u8) -> Fields
    requires valid { IsValid f }
    requires order { base ≤ top }
    requires room { top ≤ 2 ^ 64 }
    requires exponent { exponent ≡ exponent_for base top }
    requires limit { exponent ≤ 52 }
    ensures value { result ≡ with_bounds_of f base top }
    ensures valid { IsValid result }
{
    if top - u128::from(base) < SHORT {
        Fields {
            internal: false,
            top12: (top % (1 << 12)) as u16,
            base14: (base % (1 << 14)) as u16,
            address: base,
            ..f
        }
    } else {
        let outward = rounded_for(base, top, exponent);
        let top_mantissa = ((outward.top >> exponent) % (1 << 12)) as u16;
        let base_mantissa = ((outward.base >> exponent) % (1 << 14)) as u16;
        Fields {
            internal: true,
            top12: top_mantissa + u16::from(exponent / 8),
            base14: base_mantissa + u16::from(exponent % 8),
            address: base,
            ..f
        }
    }
}

// The bounds that a word can hold.
fn outward_bounds(base: u64, top: u128, exponent: u8) -> Bounds
    requires order { base ≤ top }
    requires room { top ≤ 2 ^ 64 }
    requires exponent { exponent ≡ exponent_for base top }
    requires limit { exponent ≤ 52 }
    ensures value { result ≡ outward_bounds base top }
    ensures above { top ≤ result.top }
    ensures limit { result.top ≤ 2 ^ 64 }
{
    if top - u128::from(base) < SHORT {
        Bounds { base, top }
    } else {
        rounded_for(base, top, exponent)
    }
}

// Whether the bounds, rounded for this exponent, are short enough for it.
pub fn fits(base: u64, top: u128, exponent: u8) -> bool
    requires order { base ≤ top }
    requires room { top ≤ 2 ^ 64 }
    requires exponent { exponent ≤ 52 }
    ensures { IsTrue result ↔ Fits base top exponent }
{
    let outward = rounded_for(base, top, exponent);
    outward.top - u128::from(outward.base) < power(exponent + 13)
}

// The bounds rounded outward for this exponent.
fn rounded_for(base: u64, top: u128, exponent: u8) -> Bounds
    requires room { top ≤ 2 ^ 64 }
    requires exponent { exponent ≤ 52 }
    ensures base { result.base ≡ round_down (exponent + 3) base }
    ensures top { result.top ≡ round_up (exponent + 3) top }
    ensures below { result.base ≤ base }
    ensures above { top ≤ result.top }
    ensures limit { result.top ≤ 2 ^ 64 }
{
    let count = exponent + 3;
    Bounds {
        base: base >> count << count,
        top: top + (power(count) - 1) >> count << count,
    }
}

// 2 ^ k.
fn power(k: u8) -> u128
    requires { k ≤ 65 }
    ensures value { result ≡ 2 ^ k }
    ensures positive { 0 < result }
    ensures limit { result ≤ 2 ^ 65 }
{
    1 << k
}
