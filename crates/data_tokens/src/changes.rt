//! The registers and the granules that changed.

ghost use Rattle.std.specs.Prelude.{◌≡◌, ◌+◌, ◌<◌, OnOk, [], ◌∷◌, ◌++◌, decimal, length};
ghost use Rattle.data_tokens.specs.Cells.{cell_tokens};
ghost use Rattle.data_tokens.specs.Changes as changes;
ghost use Rattle.data_tokens.specs.Changes.{StayBut, change_tokens, registers_tokens};
ghost use Rattle.json.specs.Token.{begin_object, end_object, key};
ghost use Rattle.json.specs.Token.{number as number_token};
ghost use Rattle.data_tokens.specs.Line.{with_tokens};
ghost use Rattle.tag_memory.specs.Cells.{register_count};

use crate::cells::put_cell;
use crate::data_line::DataLine;
use cap_codec::Word;
use std::alloc::AllocError;
use tag_memory::{REGISTERS, Registers};

// The object of a cell: its number under this name, and its members.
fn put_numbered(
    line: &mut DataLine,
    name: &str,
    number: u64,
    new: (Word, bool),
) -> Result<(), AllocError>
    ensures { OnOk result (line.new ≡ with_tokens line.old (begin_object ∷ key name.now ∷ number_token (decimal number) ∷ (cell_tokens new ++ end_object ∷ []))) }
{
    let (word, tag) = new;
    line.open()?;
    line.count(name, number)?;
    put_cell(line, word, tag)?;
    line.close()
}

#[inline(always)]
fn is_same(old: (Word, bool), new: (Word, bool)) -> bool
    ensures { result ≡ changes.is_same old new }
{
    old.0.bits == new.0.bits && old.1 == new.1
}

/// The same where the cell changed, and nothing where it didn't.
#[inline(always)]
pub fn put_change(
    line: &mut DataLine,
    name: &str,
    number: u64,
    old: (Word, bool),
    new: (Word, bool),
) -> Result<(), AllocError>
    ensures { OnOk result (line.new ≡ with_tokens line.old (change_tokens name.now number old new)) }
{
    if is_same(old, new) {
        return Ok(());
    }
    put_numbered(line, name, number, new)
}

/// The registers that changed: `old` has all 32 as they were.
pub fn put_registers(
    line: &mut DataLine,
    old: &[(Word, bool)],
    new: &Registers,
) -> Result<(), AllocError>
    requires { length old.now ≡ register_count }
    ensures { OnOk result (line.new ≡ with_tokens line.old (registers_tokens old.now new.now)) }
{
    for k in 0..REGISTERS - 1 {
        let r = k + 1;
        put_change(line, "r", u64::from(r), old[usize::from(r)], new.get(r))?;
    }
    Ok(())
}

/// The same where all but register `r` are as before.
pub fn put_register(
    line: &mut DataLine,
    old: &[(Word, bool)],
    new: &Registers,
    r: u8,
) -> Result<(), AllocError>
    requires count { length old.now ≡ register_count }
    requires within { r < register_count }
    requires stay { StayBut r old.now new.now }
    ensures { OnOk result (line.new ≡ with_tokens line.old (registers_tokens old.now new.now)) }
{
    if r == 0 {
        return Ok(());
    }
    put_change(line, "r", u64::from(r), old[usize::from(r)], new.get(r))
}
