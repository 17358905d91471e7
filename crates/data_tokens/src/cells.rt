//! What is told of a cell.

ghost use Rattle.std.specs.Prelude.{◌≡◌, [], ◌∷◌, OnOk, codes};
ghost use Rattle.json.specs.Token.{boolean, key, string};
ghost use Rattle.cap_codec.specs.Bytes.{bytes_of};
ghost use Rattle.hex.specs.Hex.{encode_lower};
ghost use Rattle.heap_reply.specs.Display.{hexadecimal_text};
ghost use Rattle.data_tokens.specs.Cells.{cell_tokens, bounded_address_tokens, rights_tokens};
ghost use Rattle.data_tokens.specs.Line.{with_tokens};

use crate::data_line::DataLine;
use cap_codec::{Word, to_bytes};
use heap_reply::{ShortText, Shown};
use std::alloc::AllocError;

/// An address, as a member of this name.
pub fn put_address(line: &mut DataLine, name: &str, address: u128) -> Result<(), AllocError>
    ensures { OnOk result (line.new ≡ with_tokens line.old (key name.now ∷ string (hexadecimal_text address) ∷ [])) }
{
    // Made in place: a text that is answered is moved, all of its room.
    let mut text = ShortText::new();
    text.put_wide_hexadecimal(address);
    line.text(name, text.as_str())
}

fn put_bounded_address(line: &mut DataLine, shown: Shown) -> Result<(), AllocError>
    ensures { OnOk result (line.new ≡ with_tokens line.old (bounded_address_tokens shown)) }
{
    put_address(line, "address", u128::from(shown.address))?;
    put_address(line, "base", u128::from(shown.base))?;
    put_address(line, "top", shown.top)
}

fn put_rights(line: &mut DataLine, shown: Shown) -> Result<(), AllocError>
    ensures { OnOk result (line.new ≡ with_tokens line.old (rights_tokens shown)) }
{
    line.count("perms", u64::from(shown.perms))?;
    line.count("type", u64::from(shown.otype))?;
    line.count("exponent", u64::from(shown.exponent))
}

fn put_word(line: &mut DataLine, word: Word, tag: bool) -> Result<(), AllocError>
    ensures { OnOk result (line.new ≡ with_tokens line.old
        (key (codes "tag") ∷ boolean tag ∷ key (codes "word") ∷ string (encode_lower (bytes_of word.bits)) ∷ [])) }
{
    let mut digits = ShortText::new();
    digits.put_bytes(to_bytes(word));
    line.flag("tag", tag)?;
    line.text("word", digits.as_str())
}

/// The members of a cell: its tag, its word, and what the word decodes to.
pub fn put_cell(line: &mut DataLine, word: Word, tag: bool) -> Result<(), AllocError>
    ensures { OnOk result (line.new ≡ with_tokens line.old (cell_tokens (word, tag))) }
{
    let shown = Shown::of(word, tag);
    put_word(line, word, tag)?;
    put_bounded_address(line, shown)?;
    put_rights(line, shown)
}
