//! Words made from a word: another address, fewer permissions; and the capability of a block.

ghost use Rattle.std.specs.Prelude.{◌≡◌, ◌≤◌, ◌/◌, ◌^◌, IsTrue, bit_and};
ghost use Rattle.cap_codec.specs.Fields.{fields_of};
ghost use Rattle.cap_codec.specs.Rounding.{IsExact};
ghost use Rattle.cap_codec.specs.Words.{bounds_in, capability_of, keeps_bounds, with_address, with_perms};

use crate::decode::{fields, word_of};
use crate::permissions::{GLOBAL, LOAD, LOAD_CAPABILITY, STORE, STORE_CAPABILITY};
use crate::rounding::with_bounds;
use crate::word::{Fields, Word};

// The permissions of a block's capability.
const BLOCK_PERMS: u16 = GLOBAL | LOAD | STORE | LOAD_CAPABILITY | STORE_CAPABILITY;

/// The word with this address. Its bounds may become others: `representable` tells.
pub fn set_address(w: Word, address: u64) -> Word
    ensures fields { fields_of result ≡ record (fields_of w) { address = address } }
    ensures word { result ≡ with_address w address }
    ensures metadata { result.bits / 2 ^ 64 ≡ w.bits / 2 ^ 64 }
    ensures bounds { IsTrue (keeps_bounds w address) → bounds_in result ≡ bounds_in w }
{
    Word {
        bits: (w.bits >> 64 << 64) + u128::from(address),
    }
}

/// The word with those of its permissions that the mask has too.
pub fn and_perms(w: Word, mask: u16) -> Word
    ensures fields { fields_of result
        ≡ record (fields_of w) { perms = bit_and (fields_of w).perms mask } }
    ensures word { result ≡ with_perms w mask }
    ensures bounds { bounds_in result ≡ bounds_in w }
{
    let f = fields(w);
    word_of(Fields {
        perms: f.perms & mask,
        ..f
    })
}

/// The capability of the block of the bytes from `base` on, before `top`: unsealed, its address the base,
/// and with the permissions to load and to store data and capabilities.
pub fn block_capability(base: u64, top: u128) -> Word
    requires order { base ≤ top }
    requires room { top ≤ 2 ^ 64 }
    ensures value { result ≡ capability_of base top }
    ensures bounds { IsExact base top → bounds_in result ≡ record { base = base; top = top } }
{
    let root = word_of(Fields {
        perms: BLOCK_PERMS,
        ..fields(Word::NULL)
    });
    let (word, _) = with_bounds(root, base, top);
    word
}
