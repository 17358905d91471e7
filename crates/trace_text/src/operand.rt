//! Registers, numbers, masks and data.

ghost use Rattle.std.specs.Prelude.{◌≡◌, ◌<◌, None, Some, IfOk, IfSome, if◌then◌else◌};
ghost use Rattle.std.specs.Char.{digit_value, is_digit};
ghost use Rattle.trace_text.specs.Reading.{data_in, mask_in, number_in, number_of, numeral_of, register_in, register_of};
ghost use Rattle.tag_memory.specs.Cells.{register_count};

use crate::fault::LineFault;
use hex::FromHex;
use tag_memory::REGISTERS;

// The value of 1 to `most` decimal digits, where 64 bits have room for it.
fn decimal(digits: &[u8], most: usize) -> Option<u64>
    ensures { result ≡ numeral_of 10 most digits.now }
{
    if digits.is_empty() || digits.len() > most {
        return None;
    }
    let mut value: u64 = 0;
    for byte in digits {
        let digit = char::from(*byte).to_digit(10)?;
        let shifted = value.checked_mul(10)?;
        value = shifted.checked_add(u64::from(digit))?;
    }
    Some(value)
}

// The value of each byte as a hexadecimal digit of either case, and 255 where it is none: a lookup, since which kind of
// digit comes next can't be foretold.
static HEXADECIMAL_VALUES: [u8; 256] = [
    255, 255, 255, 255, 255, 255, 255, 255, 255, 255, 255, 255, 255, 255, 255, 255, 255, 255, 255,
    255, 255, 255, 255, 255, 255, 255, 255, 255, 255, 255, 255, 255, 255, 255, 255, 255, 255, 255,
    255, 255, 255, 255, 255, 255, 255, 255, 255, 255, 0, 1, 2, 3, 4, 5, 6, 7, 8, 9, 255, 255, 255,
    255, 255, 255, 255, 10, 11, 12, 13, 14, 15, 255, 255, 255, 255, 255, 255, 255, 255, 255, 255,
    255, 255, 255, 255, 255, 255, 255, 255, 255, 255, 255, 255, 255, 255, 255, 255, 10, 11, 12, 13,
    14, 15, 255, 255, 255, 255, 255, 255, 255, 255, 255, 255, 255, 255, 255, 255, 255, 255, 255,
    255, 255, 255, 255, 255, 255, 255, 255, 255, 255, 255, 255, 255, 255, 255, 255, 255, 255, 255,
    255, 255, 255, 255, 255, 255, 255, 255, 255, 255, 255, 255, 255, 255, 255, 255, 255, 255, 255,
    255, 255, 255, 255, 255, 255, 255, 255, 255, 255, 255, 255, 255, 255, 255, 255, 255, 255, 255,
    255, 255, 255, 255, 255, 255, 255, 255, 255, 255, 255, 255, 255, 255, 255, 255, 255, 255, 255,
    255, 255, 255, 255, 255, 255, 255, 255, 255, 255, 255, 255, 255, 255, 255, 255, 255, 255, 255,
    255, 255, 255, 255, 255, 255, 255, 255, 255, 255, 255, 255, 255, 255, 255, 255, 255, 255, 255,
    255, 255, 255, 255, 255, 255, 255, 255, 255, 255, 255, 255, 255, 255, 255, 255, 255, 255, 255,
    255, 255, 255,
];

/// The value of a hexadecimal digit of either case, and 255 for any other byte.
#[inline(always)]
pub fn hexadecimal_digit(byte: u8) -> u8
    ensures { result ≡ (if is_digit byte 16 then digit_value byte else 255) }
{
    HEXADECIMAL_VALUES[byte as usize]
}

// The value of 1 to 16 hexadecimal digits, for which 64 bits always have room.
fn hexadecimal(digits: &[u8]) -> Option<u64>
    ensures { result ≡ numeral_of 16 16 digits.now }
{
    if digits.is_empty() || digits.len() > 16 {
        return None;
    }
    let mut value: u64 = 0;
    for byte in digits {
        let digit = hexadecimal_digit(*byte);
        if digit > 15 {
            return None;
        }
        value = value * 16 + u64::from(digit);
    }
    Some(value)
}

/// The number that a word writes, in decimal or after `0x` in hexadecimal.
pub fn number(word: &[u8]) -> Option<u64>
    ensures { result ≡ number_of word.now }
{
    match word.strip_prefix(b"0x") {
        Some(digits) => hexadecimal(digits),
        None => decimal(word, 20),
    }
}

// The value of a decimal digit.
#[inline(always)]
fn decimal_digit(byte: u8) -> Option<u8>
    ensures { result ≡ (if is_digit byte 10 then Some (digit_value byte) else None) }
{
    let digit = hexadecimal_digit(byte);
    if digit > 9 {
        return None;
    }
    Some(digit)
}

// The register that a word names.
#[inline(always)]
fn register_number(word: &[u8]) -> Option<u8>
    ensures value { result ≡ register_of word.now }
    ensures below { IfSome result (λ register. register < register_count) }
{
    let number = match *word {
        [b'c', ones] => decimal_digit(ones)?,
        [b'c', tens @ b'1'..=b'9', ones] => 10 * (tens - b'0') + decimal_digit(ones)?,
        _ => return None,
    };
    if number < REGISTERS {
        Some(number)
    } else {
        None
    }
}

/// The register that an operand names.
pub fn register(word: &[u8]) -> Result<u8, LineFault>
    ensures value { result ≡ register_in word.now }
    ensures below { IfOk result (λ register. register < register_count) }
{
    register_number(word).ok_or(LineFault::BadRegister)
}

/// The number that an operand writes.
pub fn operand_number(word: &[u8]) -> Result<u64, LineFault>
    ensures { result ≡ number_in word.now }
{
    number(word).ok_or(LineFault::BadNumber)
}

/// The mask of permissions that an operand writes.
pub fn mask(word: &[u8]) -> Result<u16, LineFault>
    ensures { result ≡ mask_in word.now }
{
    match number(word) {
        Some(mask) if mask <= u64::from(u16::MAX) => Ok(mask as u16),
        _ => Err(LineFault::BadNumber),
    }
}

/// The 16 bytes that an operand writes, in the order of memory.
pub fn data(word: &[u8]) -> Result<[u8; 16], LineFault>
    ensures { result ≡ data_in word.now }
{
    let Ok(bytes) = <[u8; 16] as FromHex>::from_hex(word) else {
        return Err(LineFault::BadData);
    };
    Ok(bytes)
}
