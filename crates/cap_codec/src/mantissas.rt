//! The exponent and the mantissas that the fields encode.

ghost use Rattle.std.specs.Prelude.{◌≡◌, ◌<◌, ◌≤◌, ◌^◌};
ghost use Rattle.cap_codec.specs.Fields.{IsValid, fields_of};
ghost use Rattle.cap_codec.specs.Mantissas.{base_mantissa, exponent_of, top_mantissa};

use crate::decode::fields;
use crate::word::{Fields, Word};

/// The exponent of a word: by how many bits its mantissas are shifted.
pub fn exponent(w: Word) -> u8
    ensures value { result ≡ exponent_of (fields_of w) }
    ensures limit { result ≤ 52 }
{
    exponent_in(fields(w))
}

// The exponent of a word with these fields.
pub fn exponent_in(f: Fields) -> u8
    ensures value { result ≡ exponent_of f }
    ensures limit { result ≤ 52 }
{
    if f.internal {
        (8 * (f.top12 % 8) + f.base14 % 8).min(52) as u8
    } else {
        0
    }
}

// The mantissa of the base of a word with these fields.
pub fn base_mantissa_in(f: Fields) -> u16
    requires { IsValid f }
    ensures value { result ≡ base_mantissa f }
    ensures limit { result < 2 ^ 14 }
{
    if f.internal {
        f.base14 - f.base14 % 8
    } else {
        f.base14
    }
}

// The mantissa of the top of a word with these fields.
pub fn top_mantissa_in(f: Fields) -> u16
    requires { IsValid f }
    ensures value { result ≡ top_mantissa f }
    ensures limit { result < 2 ^ 14 }
{
    let low = if f.internal {
        f.top12 - f.top12 % 8
    } else {
        f.top12
    };
    let base = base_mantissa_in(f);
    let carry = u16::from(low < base % (1 << 12));
    (base / (1 << 12) + carry + u16::from(f.internal)) % 4 * (1 << 12) + low
}
