//! From a word to its fields and back.

ghost use Rattle.std.specs.Prelude.{◌≡◌, ◌<◌, ◌≤◌, ◌^◌, bit_xor};
ghost use Rattle.cap_codec.specs.Fields.{IsValid, bits_from, bits_with, fields_in, fields_of, metadata_of, metadata_with, null_metadata};

use crate::word::{Fields, Word};

// The metadata of the null capability in register form.
const NULL_METADATA: u64 = 0x0000_1fff_fc01_8004;

// The metadata in register form of that in memory form, and the other way round.
pub fn turned(metadata: u64) -> u64
    ensures { result ≡ bit_xor metadata null_metadata }
{
    metadata ^ NULL_METADATA
}

// `count` bits of the metadata, from bit `low` on.
fn bits_at(metadata: u64, low: u8, count: u8) -> u64
    requires low { low < 64 }
    requires count { count < 64 }
    ensures value { result ≡ bits_from metadata low count }
    ensures limit { result < 2 ^ count }
{
    (metadata >> low) % (1 << count)
}

/// The fields of a word.
pub fn fields(w: Word) -> Fields
    ensures value { result ≡ fields_of w }
    ensures valid { IsValid result }
    ensures back { bits_with result ≡ w.bits }
{
    let metadata = turned((w.bits >> 64) as u64);
    Fields {
        perms: bits_at(metadata, 48, 16) as u16,
        reserved: bits_at(metadata, 46, 2) as u8,
        flag: bits_at(metadata, 45, 1) == 1,
        otype: bits_at(metadata, 27, 18) as u32,
        internal: bits_at(metadata, 26, 1) == 1,
        top12: bits_at(metadata, 14, 12) as u16,
        base14: bits_at(metadata, 0, 14) as u16,
        address: (w.bits % (1 << 64)) as u64,
    }
}

// The metadata in register form that has these fields.
fn packed(f: Fields) -> u64
    requires { IsValid f }
    ensures { result ≡ metadata_with f }
{
    (u64::from(f.perms) << 48)
        + (u64::from(f.reserved) << 46)
        + (u64::from(f.flag) << 45)
        + (u64::from(f.otype) << 27)
        + (u64::from(f.internal) << 26)
        + (u64::from(f.top12) << 14)
        + u64::from(f.base14)
}

/// The one word with these fields.
pub fn word_of(f: Fields) -> Word
    requires { IsValid f }
    ensures value { result.bits ≡ bits_with f }
    ensures fields { fields_of result ≡ f }
    ensures only { (w : Word) → w.bits < 2 ^ 128 → fields_of w ≡ f → w ≡ result }
{
    let metadata = turned(packed(f));
    Word {
        bits: (u128::from(metadata) << 64) + u128::from(f.address),
    }
}
