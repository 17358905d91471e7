//! The same calls as at the crate's root, by plain integer arithmetic, as their definitions say them:
//! by products, quotients and remainders. Of those at the root they share the exclusive or of the metadata,
//! and the exponent, which has one form.

ghost use Rattle.std.specs.Prelude.{◌≡◌, ◌<◌, ◌≤◌, ◌+◌, ◌-◌, ◌*◌, ◌%◌, ◌^◌, ◌↔◌, IsTrue, ℕ};
ghost use Rattle.cap_codec.specs.Bounds.{IsBounds, top_from, place_in};
ghost use Rattle.cap_codec.specs.Fields.{fields_of};
ghost use Rattle.cap_codec.specs.Representable.{IsInWindow, IsRepresentable};
ghost use Rattle.cap_codec.specs.Words.{bounds_in, keeps_bounds};

mod metadata;
mod rounding;

use crate::mantissas::{base_mantissa_in, exponent_in, top_mantissa_in};
pub use crate::plain::metadata::{fields, word_of};
pub use crate::plain::rounding::{alignment_mask, representable_length, with_bounds};
use crate::word::{Bounds, Fields, Word};

// Integers are counted from here on, so that a window below address 0 needs no signed number.
const ORIGIN: u128 = 1 << 66;

/// The bounds of a word, whatever its 128 bits are.
pub fn bounds(w: Word) -> Bounds
    ensures value { result ≡ bounds_in w }
    ensures meets { IsBounds (fields_of w) result.base result.top }
    ensures only { (base top : ℕ) → IsBounds (fields_of w) base top → (base ≡ result.base) × (top ≡ result.top) }
{
    let f = fields(w);
    let exponent = exponent_in(f);
    let unit = unit_of(exponent);
    let size = unit * (1 << 14);
    let base_mantissa = base_mantissa_in(f);
    let top_mantissa = top_mantissa_in(f);
    let mark = scaled((base_mantissa / 2048 + 7) % 8 * 2048, unit);
    let low = place(ORIGIN + u128::from(f.address) + 1 - size, size, mark);
    let base_place = place(low, size, scaled(base_mantissa, unit));
    let top_place = place(low, size, scaled(top_mantissa, unit));
    let base = (base_place % (1 << 64)) as u64;
    Bounds {
        base,
        top: corrected_top(exponent, base, top_place % (1 << 65)),
    }
}

/// Whether the word keeps its bounds with this address.
pub fn representable(w: Word, address: u64) -> bool
    ensures value { result ≡ keeps_bounds w address }
    ensures same { IsTrue result ↔ IsRepresentable (fields_of w) address }
    ensures window { IsTrue result ↔ IsInWindow (fields_of w) address }
{
    let moved = word_of(Fields {
        address,
        ..fields(w)
    });
    bounds(moved) == bounds(w)
}

// What one step of a mantissa is worth at this exponent.
fn unit_of(exponent: u8) -> u128
    requires { exponent ≤ 52 }
    ensures value { result ≡ 2 ^ exponent }
    ensures positive { 0 < result }
    ensures limit { result ≤ 2 ^ 52 }
    ensures size { result * 2 ^ 14 ≡ 2 ^ (exponent + 14) }
    ensures eighth { result * 2 ^ 11 ≡ 2 ^ (exponent + 11) }
{
    1 << exponent
}

// A mantissa at its exponent.
fn scaled(mantissa: u16, unit: u128) -> u128
    requires mantissa { mantissa < 2 ^ 14 }
    requires unit { unit ≤ 2 ^ 52 }
    ensures value { result ≡ mantissa * unit }
    ensures limit { result < 2 ^ 66 }
{
    u128::from(mantissa) * unit
}

// The one number of the `size` from `low` on that is congruent to `x`.
fn place(low: u128, size: u128, x: u128) -> u128
    requires positive { 0 < size }
    requires size { size ≤ 2 ^ 66 }
    requires low { low < 2 ^ 68 }
    requires x { x < 2 ^ 66 }
    ensures value { result ≡ place_in low size x }
    ensures from { low ≤ result }
    ensures before { result < low + size }
{
    low + (x + (size - low % size)) % size
}

// The top, whose bit 64 is chosen by the base where the window is smaller than the address space.
fn corrected_top(exponent: u8, base: u64, top: u128) -> u128
    requires { top < 2 ^ 65 }
    ensures value { result ≡ top_from exponent base top }
    ensures limit { result < 2 ^ 65 }
{
    let apart = (top / (1 << 63) + 4 - u128::from(base) / (1 << 63)) % 4;
    if exponent < 51 && apart > 1 {
        (top + (1 << 64)) % (1 << 65)
    } else {
        top
    }
}
