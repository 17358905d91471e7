//! Words that are made from a word or for bounds, and the lengths that a word can hold.

ghost use Rattle.std.specs.Prelude.{◌≡◌, ◌<◌, ◌≤◌, ◌+◌, ◌-◌, ◌%◌, ◌/◌, ◌^◌, ◌↔◌, IsTrue, ℕ, bit_and, false};
ghost use Rattle.cap_codec.specs.Fields.{fields_of};
ghost use Rattle.cap_codec.specs.Mantissas.{exponent_of};
ghost use Rattle.cap_codec.specs.Rounding.{IsExact, IsExponent, IsNearExponent, length_for, outward_bounds, round_up, unit_for, with_bounds_of};
ghost use Rattle.cap_codec.specs.Words.{bounds_in, capability_of, is_exact, keeps_bounds, narrowed_word, with_address, with_perms};
ghost use Rattle.kernelstint.specs.Codes.{bad_bounds, code_of, done};
ghost use Rattle.kernelstint.specs.Crossing.{are_bounds, bounds_from, length_of, top_of, word_from};

use crate::codes::{BAD_BOUNDS, DONE};
use crate::crossing::{
    CodedWord, HostBounds, HostLength, HostWord, NarrowedWord, length_out, made, refused, top_in,
    word_in, word_out,
};
use cap_codec::{
    Word, alignment_mask, and_perms, block_capability, representable_length, set_address,
    with_bounds,
};

// The highest top that bounds may be given.
const END: u128 = 1 << 64;

// Whether the bounds end where they begin or after it, and at 2^64 at most.
fn is_in_order(bounds: HostBounds) -> bool
    ensures { result ≡ are_bounds bounds }
{
    let top = top_in(bounds);
    u128::from(bounds.base) <= top && top <= END
}

/// The word with these bounds, rounded outward where it can't hold them, and its address at their base; and
/// whether it holds them exactly. For bounds that end before they begin, or past 2^64, the null word and a
/// code.
#[unsafe(no_mangle)]
pub extern "C" fn kernelstint_with_bounds(word: HostWord, bounds: HostBounds) -> NarrowedWord
    ensures code { result.code ≡ code_of (are_bounds bounds) bad_bounds }
    ensures fields { result.code ≡ done → fields_of (word_from result.word)
        ≡ with_bounds_of (fields_of (word_from word)) bounds.base (top_of bounds) }
    ensures word { result.code ≡ done → word_from result.word
        ≡ narrowed_word (word_from word) bounds.base (top_of bounds) }
    ensures bounds { result.code ≡ done → bounds_in (word_from result.word)
        ≡ outward_bounds bounds.base (top_of bounds) }
    ensures limit { result.code ≡ done → (bounds_in (word_from result.word)).top ≤ 2 ^ 64 }
    ensures exact { result.code ≡ done → IsTrue result.exact ↔ IsExact bounds.base (top_of bounds) }
    ensures flag { result.code ≡ done → result.exact ≡ is_exact bounds.base (top_of bounds) }

    // Bounds that aren't short get the least exponent that is enough.
    ensures exponent { result.code ≡ done → 2 ^ 12 ≤ top_of bounds - bounds.base
        → IsExponent bounds.base (top_of bounds) (exponent_of (fields_of (word_from result.word))) }
    ensures near { result.code ≡ done → 2 ^ 12 ≤ top_of bounds - bounds.base
        → IsNearExponent (top_of bounds - bounds.base) (exponent_of (fields_of (word_from result.word))) }
    ensures refused { result.code ≡ bad_bounds → (word_from result.word).bits ≡ 0 }
    ensures inexact { result.code ≡ bad_bounds → result.exact ≡ false }
{
    if !is_in_order(bounds) {
        return NarrowedWord {
            word: word_out(Word::NULL),
            code: BAD_BOUNDS,
            exact: false,
        };
    }
    let (narrow, exact) = with_bounds(word_in(word), bounds.base, top_in(bounds));
    NarrowedWord {
        word: word_out(narrow),
        code: DONE,
        exact,
    }
}

/// The capability of the block of these bytes: unsealed, its address their base, and with the permissions to
/// load and to store data and capabilities. For bounds that end before they begin, or past 2^64, the null
/// word and a code.
#[unsafe(no_mangle)]
pub extern "C" fn kernelstint_block_capability(bounds: HostBounds) -> CodedWord
    ensures code { result.code ≡ code_of (are_bounds bounds) bad_bounds }
    ensures value { result.code ≡ done
        → word_from result.word ≡ capability_of bounds.base (top_of bounds) }
    ensures bounds { result.code ≡ done → IsExact bounds.base (top_of bounds)
        → bounds_in (word_from result.word) ≡ bounds_from bounds }
    ensures refused { result.code ≡ bad_bounds → (word_from result.word).bits ≡ 0 }
{
    if !is_in_order(bounds) {
        return refused(BAD_BOUNDS);
    }
    made(block_capability(bounds.base, top_in(bounds)))
}

/// The word with this address. Its bounds may become others: `kernelstint_representable` tells.
#[unsafe(no_mangle)]
pub extern "C" fn kernelstint_set_address(word: HostWord, address: u64) -> HostWord
    ensures fields { fields_of (word_from result)
        ≡ record (fields_of (word_from word)) { address = address } }
    ensures word { word_from result ≡ with_address (word_from word) address }
    ensures metadata { result.metadata ≡ word.metadata }
    ensures bounds { IsTrue (keeps_bounds (word_from word) address)
        → bounds_in (word_from result) ≡ bounds_in (word_from word) }
{
    word_out(set_address(word_in(word), address))
}

/// The word with those of its permissions that the mask has too.
#[unsafe(no_mangle)]
pub extern "C" fn kernelstint_and_perms(word: HostWord, mask: u16) -> HostWord
    ensures fields { fields_of (word_from result)
        ≡ record (fields_of (word_from word)) { perms = bit_and (fields_of (word_from word)).perms mask } }
    ensures word { word_from result ≡ with_perms (word_from word) mask }
    ensures bounds { bounds_in (word_from result) ≡ bounds_in (word_from word) }
{
    word_out(and_perms(word_in(word), mask))
}

/// The least length from `length` on that a word can hold from address 0, 2^64 at most.
#[unsafe(no_mangle)]
pub extern "C" fn kernelstint_representable_length(length: u64) -> HostLength
    ensures value { length_of result ≡ length_for length }
    ensures least { length ≤ length_of result }
    ensures limit { length_of result ≤ 2 ^ 64 }
    ensures minimal { (m : ℕ) → length ≤ m → m ≤ 2 ^ 64 → IsExact 0 m → length_of result ≤ m }

    // A word holds it from each multiple of its unit on.
    ensures exact { (base : ℕ) → base % unit_for length ≡ 0 → base + length_of result ≤ 2 ^ 64
        → IsExact base (base + length_of result) }

    // It is rounded up for the least exponent that is enough, and a short one not at all.
    ensures short { length < 2 ^ 12 → length_of result ≡ length }
    ensures exponent { 2 ^ 12 ≤ length → (e : ℕ) × IsExponent 0 length e
        × (length_of result ≡ round_up (e + 3) length) }
{
    length_out(representable_length(length))
}

/// The mask of the addresses from which a word can hold the representable length of `length`: the multiples
/// of its unit.
#[unsafe(no_mangle)]
pub extern "C" fn kernelstint_alignment_mask(length: u64) -> u64
    ensures value { result + unit_for length ≡ 2 ^ 64 }
    ensures short { length < 2 ^ 12 → result + 1 ≡ 2 ^ 64 }

    // The unit of the least exponent that is enough.
    ensures exponent { 2 ^ 12 ≤ length → (e : ℕ) × IsExponent 0 length e
        × (result + 2 ^ (e + 3) ≡ 2 ^ 64) }
{
    alignment_mask(length)
}
