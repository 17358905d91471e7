//! The bounds as hardware decodes them: by shifts, masks and comparisons of 3 bits, which say by how
//! many windows the address's upper bits have to be corrected.

ghost use Rattle.std.specs.Prelude.{◌≡◌, ◌<◌, ◌≤◌, ◌+◌, ◌-◌, ◌*◌, ◌/◌, ◌%◌, ◌^◌, ◌↔◌, IsTrue, ℕ, ℤ, pos, ◌+ℤ◌, ◌-ℤ◌, ◌*ℤ◌};
ghost use Rattle.cap_codec.specs.Bounds.{IsBounds};
ghost use Rattle.cap_codec.specs.Corrections.{AreCorrections};
ghost use Rattle.cap_codec.specs.Fields.{IsValid, bit_of, fields_of};
ghost use Rattle.cap_codec.specs.Integers.{IsCongruent};
ghost use Rattle.cap_codec.specs.Mantissas.{base_mantissa, exponent_of, top_mantissa};
ghost use Rattle.cap_codec.specs.Representable.{IsInWindow, IsRepresentable};
ghost use Rattle.cap_codec.specs.Words.{bounds_in, keeps_bounds};

use crate::decode::fields;
use crate::word::{Bounds, Fields, Word};

/// By how many windows the base and the top of a word lie apart from the multiple of a window that
/// the address's upper bits say: each by -1, 0 or 1.
pub fn corrections(w: Word) -> (i8, i8)
    ensures meets { AreCorrections (fields_of w) result.0 result.1 }
    ensures only { (first second : ℤ) → AreCorrections (fields_of w) first second → (first ≡ result.0) × (second ≡ result.1) }
{
    corrections_in(fields(w))
}

/// The bounds of a word, whatever its 128 bits are.
///
/// ```rust
/// let word = cap_codec::block_capability(0x4000_0000, 0x4000_0020);
/// let bounds = cap_codec::bounds(word);
/// assert_eq!(rt; bounds.base, 0x4000_0000);
/// assert_eq!(rt; bounds.top, 0x4000_0020);
/// ```
pub fn bounds(w: Word) -> Bounds
    ensures value { result ≡ bounds_in w }
    ensures meets { IsBounds (fields_of w) result.base result.top }
    ensures only { (base top : ℕ) → IsBounds (fields_of w) base top → (base ≡ result.base) × (top ≡ result.top) }
{
    let f = fields(w);
    let (exponent, base_mantissa, top_mantissa) = mantissas_in(f);
    let (first, second) = corrections_in(f);
    let base = corrected_place(f.address, exponent, base_mantissa, first);
    let top = corrected_place(f.address, exponent, top_mantissa, second);
    let bit_64 = top_bit(exponent, top_mantissa, base, top);
    Bounds {
        base,
        top: (u128::from(bit_64) << 64) + u128::from(top),
    }
}

/// Whether the word keeps its bounds with this address.
///
/// ```rust
/// let word = cap_codec::block_capability(0x4000_0000, 0x4000_0020);
/// // One past the end is near enough, and the other half of the address space is not.
/// assert!(rt; cap_codec::representable(word, 0x4000_0020));
/// assert!(rt; !cap_codec::representable(word, 0xc000_0000_0000_0000));
/// ```
pub fn representable(w: Word, address: u64) -> bool
    ensures value { result ≡ keeps_bounds w address }
    ensures same { IsTrue result ↔ IsRepresentable (fields_of w) address }
    ensures window { IsTrue result ↔ IsInWindow (fields_of w) address }
{
    let f = fields(w);
    let (exponent, base_mantissa, _) = mantissas_in(f);
    let start = start_eighth(base_mantissa);
    let own = correction(false, eighth_at(f.address, exponent) < start);
    let low = corrected_place(f.address, exponent, start << 11, own);

    // The bits above the window. From the exponent 50 on there are none.
    address.wrapping_sub(low) >> exponent >> 14 == 0
}

// The corrections of a word with these fields.
fn corrections_in(f: Fields) -> (i8, i8)
    requires { IsValid f }
    ensures { AreCorrections f result.0 result.1 }
{
    let (exponent, base, top) = mantissas_in(f);
    let start = start_eighth(base);
    let is_next = eighth_at(f.address, exponent) < start;
    (
        correction(base >> 11 < start, is_next),
        correction(top >> 11 < start, is_next),
    )
}

// The eighth of a window that the word's window starts at: one below the base's.
fn start_eighth(base_mantissa: u64) -> u64
    requires { base_mantissa < 2 ^ 14 }
    ensures value { result ≡ (base_mantissa / 2 ^ 11 + 7) % 8 }
    ensures limit { result < 8 }
{
    (base_mantissa >> 11).wrapping_sub(1) & 7
}

// The eighth of a window that the address lies in, as its own bits say.
fn eighth_at(address: u64, exponent: u8) -> u64
    requires { exponent ≤ 52 }
    ensures { result ≡ address / 2 ^ (exponent + 11) % 8 }
{
    address >> (exponent + 11) & 7
}

// By how many windows a place lies after the address's own: each lies in the next one where its
// eighth of the window is below the start's.
fn correction(place_is_next: bool, address_is_next: bool) -> i8
    ensures { result ≡ pos (bit_of place_is_next) -ℤ pos (bit_of address_is_next) }
{
    i8::from(place_is_next) - i8::from(address_is_next)
}

// The place of a mantissa modulo 2 ^ 64: below the address's upper bits, these corrected.
fn corrected_place(address: u64, exponent: u8, mantissa: u64, correction: i8) -> u64
    requires exponent { exponent ≤ 52 }
    requires mantissa { mantissa < 2 ^ 14 }
    ensures { IsCongruent (2 ^ 64) (pos result) ((pos (address / 2 ^ (exponent + 14)) +ℤ correction) *ℤ pos (2 ^ (exponent + 14)) +ℤ pos (mantissa * 2 ^ exponent)) }
{
    let upper = (address >> exponent >> 14).wrapping_add_signed(i64::from(correction));
    (upper << 14) + mantissa << exponent
}

// Bit 64 of a top with this mantissa, whose lower 64 bits are `top`. Where the window is smaller than
// the address space, it is 1 where the base has bit 63 and the top hasn't; else it is the mantissa's.
fn top_bit(exponent: u8, mantissa: u64, base: u64, top: u64) -> u64
    requires exponent { exponent ≤ 52 }
    requires mantissa { mantissa < 2 ^ 14 }
    ensures small { exponent < 51 → (2 * result + top / 2 ^ 63 + 4 - base / 2 ^ 63) % 4 ≤ 1 }
    ensures large { 51 ≤ exponent → result ≡ mantissa / 2 ^ (64 - exponent) % 2 }
    ensures limit { result ≤ 1 }
{
    let wraps = (exponent < 51) & (top >> 63 < base >> 63);
    bit(wraps) + (mantissa >> 1 >> (63 - exponent) & 1)
}

// The exponent and the mantissas of base and top of a word with these fields. Without the internal
// exponent the mask of the low 3 bits is 0.
fn mantissas_in(f: Fields) -> (u8, u64, u64)
    requires { IsValid f }
    ensures exponent { result.0 ≡ exponent_of f }
    ensures base { result.1 ≡ base_mantissa f }
    ensures top { result.2 ≡ top_mantissa f }
    ensures exponent_limit { result.0 ≤ 52 }
    ensures base_limit { result.1 < 2 ^ 14 }
    ensures top_limit { result.2 < 2 ^ 14 }
{
    let internal = bit(f.internal);
    let low = 7 * internal;
    let base_field = u64::from(f.base14);
    let top_field = u64::from(f.top12);
    let exponent = ((top_field & low) << 3) + (base_field & low);
    let base = base_field - (base_field & low);
    let top_low = top_field - (top_field & low);
    let carry = bit(top_low < base & 0xfff);
    let upper = (base >> 12) + carry + internal & 3;
    (exponent.min(52) as u8, base, (upper << 12) + top_low)
}

// A flag as a bit.
fn bit(flag: bool) -> u64
    ensures { result ≡ bit_of flag }
{
    u64::from(flag)
}
