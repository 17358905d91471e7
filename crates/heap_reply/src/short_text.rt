//! Short texts, made on the stack.

ghost use Rattle.std.specs.Prelude.{◌≡◌, ◌≤◌, ◌+◌, ◌++◌, [], length};
ghost use Rattle.std.specs.Fmt.{decimal};
ghost use Rattle.hex.specs.Hex.{encode_lower};
ghost use Rattle.heap_reply.specs.Display.{hexadecimal_text, bounded_address_text};

use crate::digits::{write_hexadecimal, write_text, write_wide_hexadecimal};
use std::marker::Model;

// More bytes than any of them takes.
const ROOM: usize = 256;

/// A text of at most 256 bytes. It grows to the front: each piece is put before what stands, so a text is made from its last
/// piece to its first, and no digit is written twice.
#[derive(Drop)]
pub struct ShortText {
    start: usize,
    room: [u8; ROOM],
}

impl Model for ShortText {
    ghost use Rattle.std.specs.Prelude.{ℕ, List, drop};
    ghost use Rattle.heap_reply.specs.ShortText.{IsShortText};

    ghost Value = { List ℕ };

    ghost view = { λ text. drop text.start text.room };

    ghost invariant = { λ text. IsShortText text.start text.room };
}

// All inlined: a text of known length is then copied by a few moves, without a call.
impl ShortText {
    /// No text.
    #[inline(always)]
    pub fn new() -> ShortText
        ensures { result ≡ [] }
    {
        ShortText {
            start: ROOM,
            room: [0; ROOM],
        }
    }

    /// `0x` and the hexadecimal digits of an address.
    #[inline(always)]
    pub fn of_address(address: u128) -> ShortText
        ensures { result ≡ hexadecimal_text address }
    {
        let mut text = ShortText::new();
        text.put_wide_hexadecimal(address);
        text
    }

    /// Two hexadecimal digits for each of 16 bytes.
    #[inline(always)]
    pub fn of_bytes(bytes: [u8; 16]) -> ShortText
        ensures { result ≡ encode_lower bytes }
    {
        let mut text = ShortText::new();
        text.put_bytes(bytes);
        text
    }

    /// The text put so far.
    #[inline(always)]
    pub fn as_str(&self) -> &str
        ensures { result.now ≡ self.now }
    {
        // Each piece that was put is such a text, so its bytes need no new look.
        unsafe { str::from_utf8_unchecked(&self.room[self.start..]) }
    }

    /// The bytes of the text put so far.
    #[inline(always)]
    pub fn as_bytes(&self) -> &[u8]
        ensures { result.now ≡ self.now }
    {
        &self.room[self.start..]
    }

    /// Takes away all that was put.
    #[inline(always)]
    pub fn clear(&mut self)
        ensures { self.new ≡ [] }
    {
        self.start = ROOM;
    }

    /// Puts a text before what stands.
    #[inline(always)]
    pub fn put(&mut self, text: &str)
        requires room { length text.now + length self.old ≤ 256 }
        ensures text { self.new ≡ text.now ++ self.old }
        ensures length { length self.new ≡ length text.now + length self.old }
    {
        self.start = write_text(text.as_bytes(), &mut self.room, self.start);
    }

    /// Puts a number in decimal, of 20 digits at most.
    #[inline(always)]
    pub fn put_decimal(&mut self, number: u64)
        requires room { 20 + length self.old ≤ 256 }
        ensures text { self.new ≡ decimal number ++ self.old }
        ensures length { length self.new ≤ 20 + length self.old }
    {
        self.start = itoa::write_digits(number, &mut self.room, self.start);
    }

    /// Puts `0x` and the hexadecimal digits of a number, 16 at most.
    #[inline(always)]
    pub fn put_hexadecimal(&mut self, number: u64)
        requires room { 18 + length self.old ≤ 256 }
        ensures text { self.new ≡ hexadecimal_text number ++ self.old }
        ensures length { length self.new ≤ 18 + length self.old }
    {
        self.start = write_hexadecimal(number, &mut self.room, self.start);
        self.put("0x");
    }

    /// The same of a number of 128 bits, of 32 digits at most.
    #[inline(always)]
    pub fn put_wide_hexadecimal(&mut self, number: u128)
        requires room { 34 + length self.old ≤ 256 }
        ensures text { self.new ≡ hexadecimal_text number ++ self.old }
        ensures length { length self.new ≤ 34 + length self.old }
    {
        self.start = write_wide_hexadecimal(number, &mut self.room, self.start);
        self.put("0x");
    }

    /// Puts two hexadecimal digits for each of 16 bytes.
    #[inline(always)]
    pub fn put_bytes(&mut self, bytes: [u8; 16])
        requires room { 32 + length self.old ≤ 256 }
        ensures text { self.new ≡ encode_lower bytes ++ self.old }
        ensures length { length self.new ≡ 32 + length self.old }
    {
        let mut digits = [0; 32];
        // It refuses none but digits of another length.
        let Ok(()) = hex::encode_to_slice(bytes, &mut digits) else {
            unreachable!();
        };
        self.start = write_text(&digits, &mut self.room, self.start);
    }

    /// Puts an address with bounds.
    #[inline(always)]
    pub fn put_bounded_address(&mut self, address: u64, base: u64, top: u128)
        requires room { 89 + length self.old ≤ 256 }
        ensures text { self.new ≡ bounded_address_text address base top ++ self.old }
        ensures length { length self.new ≤ 89 + length self.old }
    {
        self.put_wide_hexadecimal(top);
        self.put(" top ");
        self.put_hexadecimal(base);
        self.put(" base ");
        self.put_hexadecimal(address);
        self.put("address ");
    }
}
