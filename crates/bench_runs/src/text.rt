//! The text of a trace as it is made.

use itoa::Buffer;
use std::alloc::{AllocError, Global};

/// Where each heap begins.
pub const BASE: u64 = 0x4000_0000;

// What a trace may have, less the longest few lines.
const MOST: usize = 4_190_000;

/// A text.
#[derive(Drop)]
pub struct Text {
    bytes: Vec<u8>,
}

impl Text {
    /// The text with the heap line alone.
    pub fn new(alloc: Global, pages: u64) -> Result<Text, AllocError> {
        let bytes = Vec::with_capacity(alloc, 4_194_304)?;
        let mut text = Text { bytes };
        text.put("heap 0x40000000 ")?;
        text.number(pages)?;
        text.put("\n")?;
        Ok(text)
    }

    /// Adds a piece.
    pub fn put(&mut self, piece: &str) -> Result<(), AllocError> {
        self.bytes.extend_from_slice(piece.as_bytes())
    }

    /// Adds a number in decimal.
    pub fn number(&mut self, number: u64) -> Result<(), AllocError> {
        self.put(Buffer::new().format(number))
    }

    /// Adds an address below 2^32 as `0x` and eight hexadecimal digits.
    pub fn address(&mut self, address: u64) -> Result<(), AllocError> {
        let mut room = *b"0x00000000";
        for k in 0..8 {
            room[9 - k] = digit(address >> (4 * k));
        }
        self.bytes.extend_from_slice(&room)
    }

    /// Whether there is room for more lines.
    pub fn has_room(&self) -> bool {
        self.bytes.len() < MOST
    }

    /// The text so far.
    pub fn as_bytes(&self) -> &[u8] {
        self.bytes.as_slice()
    }
}

// The hexadecimal digit of a number's last four bits.
fn digit(number: u64) -> u8 {
    let value = (number % 16) as u8;
    if value < 10 {
        b'0' + value
    } else {
        b'a' + (value - 10)
    }
}
