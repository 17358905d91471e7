//! From a word to its fields and back, by division.

ghost use Rattle.std.specs.Prelude.{◌≡◌, ◌<◌, ◌^◌};
ghost use Rattle.cap_codec.specs.Fields.{IsValid, bits_with, fields_of, metadata_with};

use crate::decode::turned;
use crate::word::{Fields, Word};

/// The fields of a word.
pub fn fields(w: Word) -> Fields
    ensures value { result ≡ fields_of w }
    ensures valid { IsValid result }
    ensures back { bits_with result ≡ w.bits }
{
    let metadata = turned((w.bits / (1 << 64)) as u64);
    Fields {
        perms: (metadata / (1 << 48) % (1 << 16)) as u16,
        reserved: (metadata / (1 << 46) % (1 << 2)) as u8,
        flag: metadata / (1 << 45) % 2 == 1,
        otype: (metadata / (1 << 27) % (1 << 18)) as u32,
        internal: metadata / (1 << 26) % 2 == 1,
        top12: (metadata / (1 << 14) % (1 << 12)) as u16,
        base14: (metadata % (1 << 14)) as u16,
        address: (w.bits % (1 << 64)) as u64,
    }
}

/// The one word with these fields.
pub fn word_of(f: Fields) -> Word
    requires { IsValid f }
    ensures value { result.bits ≡ bits_with f }
    ensures fields { fields_of result ≡ f }
    ensures only { (w : Word) → w.bits < 2 ^ 128 → fields_of w ≡ f → w ≡ result }
{
    let metadata = turned(packed(f));
    Word {
        bits: u128::from(metadata) * (1 << 64) + u128::from(f.address),
    }
}

// The metadata in register form that has these fields.
fn packed(f: Fields) -> u64
    requires { IsValid f }
    ensures { result ≡ metadata_with f }
{
    u64::from(f.perms) * (1 << 48)
        + u64::from(f.reserved) * (1 << 46)
        + u64::from(f.flag) * (1 << 45)
        + u64::from(f.otype) * (1 << 27)
        + u64::from(f.internal) * (1 << 26)
        + u64::from(f.top12) * (1 << 14)
        + u64::from(f.base14)
}
