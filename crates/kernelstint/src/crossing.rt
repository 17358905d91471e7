//! What crosses to C, and how it becomes values of `cap_codec` and back.

ghost use Rattle.std.specs.Prelude.{◌≡◌, ◌<◌, ◌%◌, ◌^◌, IsTrue};
ghost use Rattle.cap_codec.specs.Fields.{IsValid};
ghost use Rattle.kernelstint.specs.Codes.{done};
ghost use Rattle.kernelstint.specs.Crossing.{are_fields, bounds_from, fields_from, length_of, top_of, word_from};

use crate::codes::DONE;
use cap_codec::{Bounds, Fields, Word};

/// The 128 bits of a capability word, in the order in which memory holds them.
#[repr(C)]
#[derive(Clone, Copy)]
pub struct HostWord {
    /// The lower 64 bits.
    pub address: u64,
    /// The upper 64 bits, in memory form.
    pub metadata: u64,
}

/// The fields of a word, in register form.
#[repr(C)]
#[derive(Clone, Copy)]
pub struct HostFields {
    pub address: u64,
    /// The object type, 18 bits.
    pub otype: u32,
    pub perms: u16,
    /// The top field, 12 bits.
    pub top12: u16,
    /// The base field, 14 bits.
    pub base14: u16,
    /// Reserved, 2 bits.
    pub reserved: u8,
    /// The capability mode flag, 1 or 0.
    pub flag: u8,
    /// 1 where the low 3 bits of `top12` and of `base14` hold the exponent, else 0.
    pub internal: u8,
}

/// The bytes from `base` on, before a top that is told as in a reply.
#[repr(C)]
#[derive(Clone, Copy)]
pub struct HostBounds {
    pub base: u64,
    /// The lower 64 bits of the top.
    pub top: u64,
    /// What is above.
    pub top_high: u64,
}

/// A length, told alike.
#[repr(C)]
#[derive(Clone, Copy)]
pub struct HostLength {
    /// The lower 64 bits.
    pub length: u64,
    /// What is above.
    pub length_high: u64,
}

/// By how many windows the base and the top lie apart from the address's own upper bits.
#[repr(C)]
#[derive(Clone, Copy)]
pub struct HostCorrections {
    pub base: i8,
    pub top: i8,
}

/// A word, or the null word and a code that says why there is none.
#[repr(C)]
#[derive(Clone, Copy)]
pub struct CodedWord {
    pub word: HostWord,
    pub code: u32,
}

/// The same of a word that was made for bounds, and whether it has just these.
#[repr(C)]
#[derive(Clone, Copy)]
pub struct NarrowedWord {
    pub word: HostWord,
    pub code: u32,
    pub exact: bool,
}

// The lower 64 bits of a number.
fn low(n: u128) -> u64
    ensures { result ≡ n % 2 ^ 64 }
{
    (n % (1 << 64)) as u64
}

// The word of its halves.
pub fn word_in(word: HostWord) -> Word
    ensures value { result ≡ word_from word }
    ensures limit { result.bits < 2 ^ 128 }
{
    Word {
        bits: (u128::from(word.metadata) << 64) + u128::from(word.address),
    }
}

// The halves of a word.
pub fn word_out(word: Word) -> HostWord
    ensures { word_from result ≡ word }
{
    HostWord {
        address: low(word.bits),
        metadata: (word.bits >> 64) as u64,
    }
}

// A word that was made.
pub fn made(word: Word) -> CodedWord
    ensures code { result.code ≡ done }
    ensures word { word_from result.word ≡ word }
{
    CodedWord {
        word: word_out(word),
        code: DONE,
    }
}

// No word, for what the code says.
pub fn refused(code: u32) -> CodedWord
    ensures code { result.code ≡ code }
    ensures word { (word_from result.word).bits ≡ 0 }
{
    CodedWord {
        word: word_out(Word::NULL),
        code,
    }
}

// The top of bounds, as one number.
pub fn top_in(bounds: HostBounds) -> u128
    ensures { result ≡ top_of bounds }
{
    (u128::from(bounds.top_high) << 64) + u128::from(bounds.top)
}

// The bounds with their top in two halves.
pub fn bounds_out(bounds: Bounds) -> HostBounds
    ensures { bounds_from result ≡ bounds }
{
    HostBounds {
        base: bounds.base,
        top: low(bounds.top),
        top_high: (bounds.top >> 64) as u64,
    }
}

// A length in two halves.
pub fn length_out(length: u128) -> HostLength
    ensures { length_of result ≡ length }
{
    HostLength {
        length: low(length),
        length_high: (length >> 64) as u64,
    }
}

// The fields, whose flags are 1 or not.
pub fn fields_in(fields: HostFields) -> Fields
    ensures { result ≡ fields_from fields }
{
    Fields {
        perms: fields.perms,
        reserved: fields.reserved,
        flag: fields.flag == 1,
        otype: fields.otype,
        internal: fields.internal == 1,
        top12: fields.top12,
        base14: fields.base14,
        address: fields.address,
    }
}

// The fields with flags as numbers.
pub fn fields_out(fields: Fields) -> HostFields
    requires { IsValid fields }
    ensures value { fields_from result ≡ fields }
    ensures valid { IsTrue (are_fields result) }
{
    HostFields {
        address: fields.address,
        otype: fields.otype,
        perms: fields.perms,
        top12: fields.top12,
        base14: fields.base14,
        reserved: fields.reserved,
        flag: u8::from(fields.flag),
        internal: u8::from(fields.internal),
    }
}
