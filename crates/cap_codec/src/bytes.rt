//! Words as the 16 bytes that memory holds.

ghost use Rattle.std.specs.Prelude.{◌≡◌, length};
ghost use Rattle.cap_codec.specs.Bytes.{bits_of_bytes, bytes_of};

use crate::word::Word;
use byteorder::{ByteOrder, LittleEndian};

/// The word that these bytes hold.
///
/// ```rust
/// let word = cap_codec::from_bytes([0; 16]);
/// assert_eq!(rt; word, cap_codec::Word::NULL);
/// ```
pub fn from_bytes(bytes: [u8; 16]) -> Word
    ensures value { result.bits ≡ bits_of_bytes bytes }
    ensures back { bytes_of result.bits ≡ bytes }
{
    read_word(&bytes)
}

fn read_word(bytes: &[u8]) -> Word
    requires { length bytes.now ≡ 16 }
    ensures value { result.bits ≡ bits_of_bytes bytes.now }
    ensures back { bytes_of result.bits ≡ bytes.now }
{
    let address = LittleEndian::read_u64(bytes);
    let metadata = LittleEndian::read_u64(&bytes[8..]);
    Word {
        bits: (u128::from(metadata) << 64) + u128::from(address),
    }
}

/// The bytes of a word: its address, then its metadata, each little endian.
pub fn to_bytes(w: Word) -> [u8; 16]
    ensures value { result ≡ bytes_of w.bits }
    ensures back { bits_of_bytes result ≡ w.bits }
{
    let mut bytes = [0; 16];
    LittleEndian::write_u64(&mut bytes, (w.bits % (1 << 64)) as u64);
    LittleEndian::write_u64(&mut bytes[8..], (w.bits >> 64) as u64);
    bytes
}
