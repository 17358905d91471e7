//! The registers of a machine.

ghost use Rattle.std.specs.Prelude.{◌≡◌, ◌<◌, ℕ, count_by, drop, false, length, slice_index_or};
ghost use Rattle.tag_memory.specs.Cells.{AreRegisters, new_registers, null_cell, register_at, register_count, registers_with, without_tag_if};
ghost use Rattle.tag_memory.specs.Tags.{is_set};

use crate::bits::bit;
use cap_codec::Word;
use std::marker::Model;

/// How many registers there are.
pub const REGISTERS: u8 = 32;

/// 32 registers, each a word with its tag. Register 0 is the null capability, untagged, and
/// ignores writes.
#[derive(Drop)]
pub struct Registers {
    cells: [(Word, bool); REGISTERS as usize],
}

impl Model for Registers {
    ghost use Rattle.std.specs.Prelude.{List};
    ghost use Rattle.tag_memory.specs.Cells.{AreRegisters, Cell};

    ghost Value = { List Cell };

    ghost view = { λ a. a.cells };

    ghost invariant = { λ a. AreRegisters a.cells };
}

impl Registers {
    /// All registers null and untagged.
    ///
    /// ```rust
    /// use cap_codec::block_capability;
    /// use tag_memory::Registers;
    ///
    /// let mut registers = Registers::new();
    /// let word = block_capability(0x4000_0000, 0x4000_0020);
    /// registers.set(1, word, true);
    /// assert_eq!(rt; registers.get(1), (word, true));
    /// // Register 0 is always null.
    /// registers.set(0, word, true);
    /// assert!(rt; !registers.get(0).1);
    /// ```
    pub fn new() -> Registers
        ensures { result ≡ new_registers }
    {
        Registers {
            cells: [(Word::NULL, false); REGISTERS as usize],
        }
    }

    /// The same registers once more.
    pub fn copy(&self) -> Registers
        ensures { result ≡ self.now }
    {
        Registers { cells: self.cells }
    }

    /// Tells what holds of all registers. Nothing is done.
    pub fn invariant(&self)
        ensures { AreRegisters self.now }
    {
        let _ = &self.cells;
    }

    /// A register's word and tag.
    pub fn get(&self, r: u8) -> (Word, bool)
        requires { r < register_count }
        ensures value { result ≡ register_at self.now r }
    {
        self.cells[usize::from(r)]
    }

    /// Writes a register's word and tag.
    pub fn set(&mut self, r: u8, word: Word, tag: bool)
        requires { r < register_count }
        ensures { self.new ≡ registers_with self.old r (word, tag) }
    {
        if r == 0 {
            return;
        }
        self.cells[r as usize] = (word, tag);
    }

    /// Takes a register's tag and keeps its bits.
    pub fn clear(&mut self, r: u8)
        requires { r < register_count }
        ensures { self.new ≡ registers_with self.old r ((register_at self.old r).0, false) }
    {
        let (word, _) = self.get(r);
        self.set(r, word, false);
    }

    /// Takes the tag of each register r where bit r of the mask is 1.
    pub fn clear_tags(&mut self, mask: u32)
        ensures count { length self.new ≡ register_count }
        ensures zero { slice_index_or self.new 0 null_cell ≡ null_cell }
        ensures cells { (r : ℕ) → r < register_count → slice_index_or self.new r null_cell
            ≡ without_tag_if (is_set mask r) (slice_index_or self.old r null_cell) }
    {
        for r in 0..REGISTERS as usize {
            self.cells[r].1 &= !bit(u64::from(mask), r);
        }
    }

    /// How many registers are tagged. Register 0 never is.
    pub fn tagged(&self) -> usize
        ensures { result ≡ count_by (λ cell. cell.1) (drop 1 self.now) }
    {
        count_tagged(&self.cells[1..])
    }
}

// How many of these are tagged.
fn count_tagged(cells: &[(Word, bool)]) -> usize
    ensures { result ≡ count_by (λ cell. cell.1) cells.now }
{
    cells.iter().filter(|cell| cell.1).count()
}
