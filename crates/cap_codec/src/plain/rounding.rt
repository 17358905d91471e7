//! Words that are made for bounds, and the lengths that a word can hold, by division.

ghost use Rattle.std.specs.Prelude.{◌≡◌, ◌<◌, ◌≤◌, ◌+◌, ◌-◌, ◌%◌, ◌^◌, ◌↔◌, IsTrue, ℕ};
ghost use Rattle.cap_codec.specs.Fields.{IsValid, fields_of};
ghost use Rattle.cap_codec.specs.Mantissas.{exponent_of};
ghost use Rattle.cap_codec.specs.Rounding.{Fits, IsExact, IsExponent, IsNearExponent, exponent_for, length_for, outward_bounds, round_down, round_up, unit_for, with_bounds_of};
ghost use Rattle.cap_codec.specs.Words.{bounds_in, is_exact, narrowed_word};

use crate::plain::metadata::{fields, word_of};
use crate::word::{Bounds, Fields, Word};

// Bounds shorter than this are held as they are, with no exponent.
const SHORT: u128 = 1 << 12;

// No bounds need a greater exponent.
const MAX_EXPONENT: u8 = 52;

/// The word with these bounds, rounded outward where it can't hold them, and its address at `base`;
/// and whether it holds them exactly.
pub fn with_bounds(w: Word, base: u64, top: u128) -> (Word, bool)
    requires order { base ≤ top }
    requires room { top ≤ 2 ^ 64 }
    ensures fields { fields_of result.0 ≡ with_bounds_of (fields_of w) base top }
    ensures word { result.0 ≡ narrowed_word w base top }
    ensures bounds { bounds_in result.0 ≡ outward_bounds base top }
    ensures limit { (outward_bounds base top).top ≤ 2 ^ 64 }
    ensures exact { IsTrue result.1 ↔ IsExact base top }
    ensures flag { result.1 ≡ is_exact base top }

    // Bounds that aren't short get the least exponent that is enough.
    ensures exponent { 2 ^ 12 ≤ top - base
        → IsExponent base top (exponent_of (fields_of result.0)) }
    ensures near { 2 ^ 12 ≤ top - base
        → IsNearExponent (top - base) (exponent_of (fields_of result.0)) }
{
    let set = set_bounds(fields(w), base, top);
    let exact = outward_bounds(base, top) == Bounds { base, top };
    (word_of(set), exact)
}

/// The least length from `n` on that a word can hold from address 0.
pub fn representable_length(n: u64) -> u128
    ensures value { result ≡ length_for n }
    ensures least { n ≤ result }
    ensures limit { result ≤ 2 ^ 64 }
    ensures minimal { (m : ℕ) → n ≤ m → m ≤ 2 ^ 64 → IsExact 0 m → result ≤ m }

    // A word holds it from each multiple of its unit on.
    ensures exact { (base : ℕ) → base % unit_for n ≡ 0 → base + result ≤ 2 ^ 64
        → IsExact base (base + result) }

    // It is rounded up for the least exponent that is enough, and a short one not at all.
    ensures short { n < 2 ^ 12 → result ≡ n }
    ensures exponent { 2 ^ 12 ≤ n → (e : ℕ) × IsExponent 0 n e × (result ≡ round_up (e + 3) n) }
{
    outward_bounds(0, u128::from(n)).top
}

/// The mask of the addresses from which a word can hold the representable length of `n`: the
/// multiples of its unit.
pub fn alignment_mask(n: u64) -> u64
    ensures value { result + unit_for n ≡ 2 ^ 64 }
    ensures short { n < 2 ^ 12 → result + 1 ≡ 2 ^ 64 }

    // The unit of the least exponent that is enough.
    ensures exponent { 2 ^ 12 ≤ n → (e : ℕ) × IsExponent 0 n e × (result + 2 ^ (e + 3) ≡ 2 ^ 64) }
{
    let length = u128::from(n);
    if length < SHORT {
        u64::MAX
    } else {
        ((1 << 64) - power(first_exponent(0, length) + 3)) as u64
    }
}

// The fields with these bounds, rounded outward, and the address at `base`.
fn set_bounds(f: Fields, base: u64, top: u128) -> Fields
    requires valid { IsValid f }
    requires order { base ≤ top }
    requires room { top ≤ 2 ^ 64 }
    ensures value { result ≡ with_bounds_of f base top }
    ensures valid { IsValid result }
{
    if top - u128::from(base) < SHORT {
        Fields {
            internal: false,
            top12: (top % (1 << 12)) as u16,
            base14: (base % (1 << 14)) as u16,
            address: base,
            ..f
        }
    } else {
        let exponent = first_exponent(base, top);
        let outward = rounded_for(base, top, exponent);
        let unit = power(exponent);
        let top_mantissa = (outward.top / unit % (1 << 12)) as u16;
        let base_mantissa = (u128::from(outward.base) / unit % (1 << 14)) as u16;
        Fields {
            internal: true,
            top12: top_mantissa + u16::from(exponent / 8),
            base14: base_mantissa + u16::from(exponent % 8),
            address: base,
            ..f
        }
    }
}

// The bounds that a word can hold.
fn outward_bounds(base: u64, top: u128) -> Bounds
    requires order { base ≤ top }
    requires room { top ≤ 2 ^ 64 }
    ensures value { result ≡ outward_bounds base top }
    ensures above { top ≤ result.top }
    ensures limit { result.top ≤ 2 ^ 64 }
{
    if top - u128::from(base) < SHORT {
        Bounds { base, top }
    } else {
        rounded_for(base, top, first_exponent(base, top))
    }
}

// The first exponent for which the bounds, rounded, are short enough.
fn first_exponent(base: u64, top: u128) -> u8
    requires order { base ≤ top }
    requires room { top ≤ 2 ^ 64 }
    ensures value { result ≡ exponent_for base top }
    ensures limit { result ≤ 52 }
{
    for exponent in 0..MAX_EXPONENT {
        if fits(base, top, exponent) {
            return exponent;
        }
    }
    MAX_EXPONENT
}

// Whether the bounds, rounded for this exponent, are short enough for it.
fn fits(base: u64, top: u128, exponent: u8) -> bool
    requires order { base ≤ top }
    requires room { top ≤ 2 ^ 64 }
    requires exponent { exponent ≤ 52 }
    ensures { IsTrue result ↔ Fits base top exponent }
{
    let outward = rounded_for(base, top, exponent);
    outward.top - u128::from(outward.base) < power(exponent + 13)
}

// The bounds rounded outward for this exponent.
fn rounded_for(base: u64, top: u128, exponent: u8) -> Bounds
    requires room { top ≤ 2 ^ 64 }
    requires exponent { exponent ≤ 52 }
    ensures base { result.base ≡ round_down (exponent + 3) base }
    ensures top { result.top ≡ round_up (exponent + 3) top }
    ensures below { result.base ≤ base }
    ensures above { top ≤ result.top }
    ensures limit { result.top ≤ 2 ^ 64 }
{
    let unit = power(exponent + 3);
    Bounds {
        base: (u128::from(base) / unit * unit) as u64,
        top: (top + (unit - 1)) / unit * unit,
    }
}

// 2 ^ k.
fn power(k: u8) -> u128
    requires { k ≤ 65 }
    ensures value { result ≡ 2 ^ k }
    ensures positive { 0 < result }
    ensures limit { result ≤ 2 ^ 65 }
{
    1 << k
}
