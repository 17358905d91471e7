//! The line that tells a word.

ghost use Rattle.std.specs.Prelude.{◌≡◌, IfOk, Some, string_bytes};
ghost use Rattle.heap_reply.specs.WordLine.{encoding_text, rights_text, word_line};

use crate::display::{BoundedAddress, flag_number};
use cap_codec::{Fields, Word, bounds, exponent, fields};
use host_memory::Global;
use std::alloc::AllocError;
use std::fmt;

/// What a word allows, and its type, shown as `perms 0x.. reserved . flag . type 0x..`.
#[derive(Clone, Copy)]
struct Rights(Fields);

impl fmt::Display for Rights {
    ghost output = { λ r. Some (rights_text r.0) };

    fn fmt<W: fmt::Write>(&self, f: &mut fmt::Formatter<W>) -> fmt::Result {
        let perms = self.0.perms;
        let reserved = self.0.reserved;
        let flag = flag_number(self.0.flag);
        let otype = self.0.otype;
        write!(
            f,
            "perms 0x{perms:x} reserved {reserved} flag {flag} type 0x{otype:x}"
        )
    }
}

/// How a word encodes its bounds, shown as `internal . exponent .. topfield 0x.. basefield 0x..`.
#[derive(Clone, Copy)]
struct Encoding {
    fields: Fields,
    exponent: u8,
}

impl fmt::Display for Encoding {
    ghost output = { λ e. Some (encoding_text e.fields e.exponent) };

    fn fmt<W: fmt::Write>(&self, f: &mut fmt::Formatter<W>) -> fmt::Result {
        let internal = flag_number(self.fields.internal);
        let exponent = self.exponent;
        let top12 = self.fields.top12;
        let base14 = self.fields.base14;
        write!(
            f,
            "internal {internal} exponent {exponent} topfield 0x{top12:x} basefield 0x{base14:x}"
        )
    }
}

/// The line that shows what a word decodes to.
pub fn word_line(alloc: Global, w: Word) -> Result<String<Global>, AllocError>
    ensures { IfOk result (λ text. string_bytes text ≡ word_line w) }
{
    let f = fields(w);
    let within = bounds(w);
    let place = BoundedAddress {
        address: f.address,
        base: within.base,
        top: within.top,
    };
    let rights = Rights(f);
    let encoding = Encoding {
        fields: f,
        exponent: exponent(w),
    };
    format!(in alloc; "{place} {rights} {encoding}\n")
}
