//! The texts of numbers and of places.

ghost use Rattle.std.specs.Prelude.{◌≡◌, Some};
ghost use Rattle.cap_codec.specs.Fields.{bit_of};
ghost use Rattle.heap_reply.specs.Display.{hexadecimal_text, bounded_address_text};

use crate::short_text::ShortText;
use std::fmt;

/// A number that is shown as `0x` and lower-case hexadecimal digits without leading zeros.
#[derive(Debug, Clone, Copy, PartialEq, Eq)]
pub struct Hexadecimal(pub u128);

impl fmt::Display for Hexadecimal {
    ghost output = { λ n. Some (hexadecimal_text n.0) };

    fn fmt<W: fmt::Write>(&self, f: &mut fmt::Formatter<W>) -> fmt::Result {
        f.write_str(ShortText::of_address(self.0).as_str())
    }
}

/// An address with bounds, shown as `address 0x.. base 0x.. top 0x..`.
#[derive(Debug, Clone, Copy, PartialEq, Eq)]
pub struct BoundedAddress {
    pub address: u64,
    pub base: u64,
    pub top: u128,
}

impl fmt::Display for BoundedAddress {
    ghost output = { λ p. Some (bounded_address_text p.address p.base p.top) };

    fn fmt<W: fmt::Write>(&self, f: &mut fmt::Formatter<W>) -> fmt::Result {
        let mut text = ShortText::new();
        text.put_bounded_address(self.address, self.base, self.top);
        f.write_str(text.as_str())
    }
}

/// A flag as the number that it is shown by.
pub fn flag_number(flag: bool) -> u8
    ensures { result ≡ bit_of flag }
{
    u8::from(flag)
}
