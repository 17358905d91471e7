//! Numbers and flags, in the one form in which a report writes them.

ghost use Rattle.std.specs.Prelude.{◌≡◌, ◌≢◌, ◌<◌, ◌≤◌, ◌+◌, ◌^◌, ℕ, false, length, IfNone, IfSome};
ghost use Rattle.std.specs.Fmt.{digit_glyph};
ghost use Rattle.trace_text.specs.Reading.{has_leading_zero};
ghost use Rattle.log_text.specs.ReplyText.{bit_in, decimal_in, hexadecimal_in, number_in_radix};

use trace_text::{hexadecimal_digit, number};

/// The flag that a word writes.
pub fn bit(word: &[u8]) -> Option<bool>
    ensures { result ≡ bit_in word.now }
{
    match *word {
        [b'0'] => Some(false),
        [b'1'] => Some(true),
        _ => None,
    }
}

// Whether other digits follow a zero.
fn starts_with_zero(digits: &[u8]) -> bool
    ensures { result ≡ has_leading_zero digits.now }
{
    digits.len() > 1 && digits[0] == b'0'
}

// The value of a hexadecimal digit in lower case.
#[inline(always)]
fn lower_digit(byte: u8) -> Option<u8>
    ensures some { IfSome result (λ digit. (digit < 16) × (digit_glyph false digit ≡ byte)) }
    ensures none { IfNone result ((digit : ℕ) → digit < 16 → digit_glyph false digit ≢ byte) }
{
    let digit = hexadecimal_digit(byte);
    if digit > 15 || byte.is_ascii_uppercase() {
        return None;
    }
    Some(digit)
}

// The value of up to 16 hexadecimal digits, for which 64 bits have room.
fn short_value(digits: &[u8]) -> Option<u64>
    requires some { 0 < length digits.now }
    requires few { length digits.now ≤ 16 }
    requires plain { has_leading_zero digits.now ≡ false }
    ensures value { (most : ℕ) → length digits.now ≤ most → most ≤ 32 → result ≡ number_in_radix 16 (16 ^ most) digits.now }
    ensures below { IfSome result (λ number. number < 16 ^ length digits.now) }
{
    let mut value: u64 = 0;
    for byte in digits {
        let digit = lower_digit(*byte)?;
        value = value * 16 + u64::from(digit);
    }
    Some(value)
}

// The value of up to 32 hexadecimal digits.
fn long_value(digits: &[u8]) -> Option<u128>
    requires some { 0 < length digits.now }
    requires few { length digits.now ≤ 32 }
    requires plain { has_leading_zero digits.now ≡ false }
    ensures value { (most : ℕ) → length digits.now ≤ most → most ≤ 32 → result ≡ number_in_radix 16 (16 ^ most) digits.now }
    ensures below { IfSome result (λ number. number < 16 ^ length digits.now) }
{
    let mut value: u128 = 0;
    for byte in digits {
        let digit = lower_digit(*byte)?;
        value = value * 16 + u128::from(digit);
    }
    Some(value)
}

// The value of hexadecimal digits, of which there are at most so many.
fn digits_value(digits: &[u8], most: usize) -> Option<u128>
    requires { (0 < most) × (most ≤ 32) }
    ensures value { result ≡ number_in_radix 16 (16 ^ most) digits.now }
    ensures below { IfSome result (λ number. number < 16 ^ most) }
{
    if digits.is_empty() || digits.len() > most || starts_with_zero(digits) {
        return None;
    }
    if digits.len() > 16 {
        return long_value(digits);
    }
    let value = short_value(digits)?;
    Some(u128::from(value))
}

/// The number that a word writes in hexadecimal, with at most so many digits.
pub fn hexadecimal(word: &[u8], most: usize) -> Option<u128>
    requires { (0 < most) × (most ≤ 32) }
    ensures value { result ≡ hexadecimal_in (16 ^ most) word.now }
    ensures below { IfSome result (λ number. number < 16 ^ most) }
{
    let digits = word.strip_prefix(b"0x")?;
    digits_value(digits, most)
}

/// The number that a word writes in decimal, up to this one.
pub fn decimal(word: &[u8], most: u64) -> Option<u64>
    ensures value { result ≡ decimal_in (most + 1) word.now }
    ensures below { IfSome result (λ number. number ≤ most) }
{
    if starts_with_zero(word) {
        return None;
    }
    let number = number(word)?;
    if number > most {
        return None;
    }
    Some(number)
}
