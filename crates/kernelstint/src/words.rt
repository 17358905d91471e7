//! Words, their bytes and their fields.

ghost use Rattle.std.specs.Prelude.{◌≡◌, ◌<◌, ◌^◌, IsTrue, length, nat_eq};
ghost use Rattle.cap_codec.specs.Bytes.{bits_of_bytes, bytes_of};
ghost use Rattle.cap_codec.specs.Fields.{bits_with, fields_of};
ghost use Rattle.cap_codec.specs.declared.word.Word.{Word as TheWord};
ghost use Rattle.kernelstint.specs.Codes.{bad_fields, bad_length, code_of, done};
ghost use Rattle.kernelstint.specs.Crossing.{are_fields, fields_from, word_from};

use crate::codes::{BAD_FIELDS, BAD_LENGTH, DONE};
use crate::crossing::{
    CodedWord, HostFields, HostWord, fields_in, fields_out, made, refused, word_in, word_out,
};
use cap_codec::{Word, fields, from_bytes, to_bytes, word_of};

/// The null capability.
#[unsafe(no_mangle)]
pub extern "C" fn kernelstint_null_word() -> HostWord
    ensures value { word_from result ≡ Word.NULL }
    ensures zeros { (word_from result).bits ≡ 0 }
{
    word_out(Word::NULL)
}

/// The word that these 16 bytes hold; for another number of bytes the null word and a code.
#[unsafe(no_mangle)]
pub extern "C" fn kernelstint_proved_word_from_bytes(bytes: &[u8]) -> CodedWord
    ensures code { result.code ≡ code_of (nat_eq (length bytes.now) 16) bad_length }
    ensures value { result.code ≡ done → (word_from result.word).bits ≡ bits_of_bytes bytes.now }
    ensures back { result.code ≡ done → bytes_of (word_from result.word).bits ≡ bytes.now }
    ensures refused { result.code ≡ bad_length → (word_from result.word).bits ≡ 0 }
{
    if bytes.len() != 16 {
        return refused(BAD_LENGTH);
    }
    let mut word = [0; 16];
    word.copy_from_slice(bytes);
    made(from_bytes(word))
}

/// Writes the 16 bytes of a word; into another number of bytes nothing, which a code tells.
#[unsafe(no_mangle)]
pub extern "C" fn kernelstint_proved_word_to_bytes(word: HostWord, bytes: &mut [u8]) -> u32
    ensures code { result ≡ code_of (nat_eq (length bytes.old) 16) bad_length }
    ensures value { result ≡ done → bytes.new ≡ bytes_of (word_from word).bits }
    ensures back { result ≡ done → bits_of_bytes bytes.new ≡ (word_from word).bits }
    ensures refused { result ≡ bad_length → bytes.new ≡ bytes.old }
{
    if bytes.len() != 16 {
        return BAD_LENGTH;
    }
    bytes.copy_from_slice(&to_bytes(word_in(word)));
    DONE
}

/// The fields of a word.
#[unsafe(no_mangle)]
pub extern "C" fn kernelstint_fields_of(word: HostWord) -> HostFields
    ensures value { fields_from result ≡ fields_of (word_from word) }
    ensures valid { IsTrue (are_fields result) }
    ensures back { bits_with (fields_from result) ≡ (word_from word).bits }
{
    fields_out(fields(word_in(word)))
}

/// The one word with these fields; where one is past its width, the null word and a code.
#[unsafe(no_mangle)]
pub extern "C" fn kernelstint_word_of_fields(fields: HostFields) -> CodedWord
    ensures code { result.code ≡ code_of (are_fields fields) bad_fields }
    ensures value { result.code ≡ done → (word_from result.word).bits ≡ bits_with (fields_from fields) }
    ensures fields { result.code ≡ done → fields_of (word_from result.word) ≡ fields_from fields }
    ensures only { result.code ≡ done → (w : TheWord) → w.bits < 2 ^ 128
        → fields_of w ≡ fields_from fields → w ≡ word_from result.word }
    ensures refused { result.code ≡ bad_fields → (word_from result.word).bits ≡ 0 }
{
    let turned = fields_in(fields);
    if fields.flag > 1 || fields.internal > 1 || !turned.is_valid() {
        return refused(BAD_FIELDS);
    }
    made(word_of(turned))
}
