//! Laws of the format: of words that are made from words, of the null word, of permissions, and of exact
//! bounds.

ghost use Rattle.std.specs.Prelude.{◌≡◌, ◌<◌, ◌≤◌, ◌+◌, ◌%◌, ◌^◌, ◌↔◌, IsTrue, ℕ};
ghost use Rattle.cap_codec.specs.declared.word.Word.{Word as TheWord};
ghost use Rattle.cap_codec.specs.Rounding.{IsDecoded, IsExact, length_for, outward_bounds, unit_for};
ghost use Rattle.cap_codec.specs.Words.{bounds_in, capability_of, global, is_exact, keeps_bounds, load, load_capability, narrowed_word, store, store_capability, with_address, with_perms};

use crate::permissions::{GLOBAL, LOAD, LOAD_CAPABILITY, STORE, STORE_CAPABILITY};
use crate::word::Word;

/// The bounds of words that are made for bounds, another address or fewer permissions; and from where a
/// representable length is exact. The calls promise it of the words that they make.
pub fn derivation_law()
    ensures narrowed { (w : TheWord) (base top : ℕ) → base < 2 ^ 64 → base ≤ top → top ≤ 2 ^ 64
        → bounds_in (narrowed_word w base top) ≡ outward_bounds base top }
    ensures capability { (base top : ℕ) → base < 2 ^ 64 → base ≤ top → top ≤ 2 ^ 64
        → bounds_in (capability_of base top) ≡ outward_bounds base top }
    ensures tested { (base top : ℕ) → IsTrue (is_exact base top) ↔ IsExact base top }
    ensures moved { (w : TheWord) (a : ℕ) → a < 2 ^ 64 → IsTrue (keeps_bounds w a)
        → bounds_in (with_address w a) ≡ bounds_in w }
    ensures masked { (w : TheWord) (mask : ℕ) → bounds_in (with_perms w mask) ≡ bounds_in w }
    ensures exact { (n base : ℕ) → n < 2 ^ 64 → base % unit_for n ≡ 0 → base + length_for n ≤ 2 ^ 64
        → IsExact base (base + length_for n) }
{}

/// The null capability is 128 zero bits.
pub fn null_is_zeros_law()
    ensures { Word.NULL.bits ≡ 0 }
{}

/// The permissions are these bits.
pub fn permission_bits_law()
    ensures global { GLOBAL ≡ global }
    ensures load { LOAD ≡ load }
    ensures store { STORE ≡ store }
    ensures load_capability { LOAD_CAPABILITY ≡ load_capability }
    ensures store_capability { STORE_CAPABILITY ≡ store_capability }
{}

/// The bounds that a word can hold as they are, are those that some word decodes to.
pub fn exact_bounds_law()
    ensures { (base top : ℕ) → base < 2 ^ 64 → base ≤ top → top ≤ 2 ^ 64 →
        IsExact base top ↔ IsDecoded base top }
{}
