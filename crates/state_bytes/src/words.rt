//! The granules, dirty pages and registers that bytes tell of.

ghost use Rattle.std.specs.Prelude.{◌≡◌, ◌<◌, ◌≤◌, ◌+◌, ◌*◌, ℕ, Bool, false, if◌then◌else◌, length, slice_index_or, slice_set, true};
ghost use Rattle.heap_machine.specs.Storage.{MachineState};
ghost use Rattle.tag_memory.specs.Cells.{register_count};
ghost use Rattle.state_bytes.specs.Reading.{AreReadFrom};
ghost use Rattle.state_bytes.specs.State.{IsState};
ghost use Rattle.state_bytes.specs.Text.{text_of};

use crate::places::{HEAD, REGISTER, ROW, TAG};
use byteorder::{ByteOrder, LittleEndian};
use cap_codec::Word;
use tag_memory::{Memory, PAGE_GRANULES, REGISTERS, Registers};

/// Writes the granules that bytes tell of into a memory that is zero and untagged.
pub fn read_granules(memory: &mut Memory, bytes: &[u8])
    requires rows { 13 + 21 * length memory.old.granules ≤ length bytes.now }
    requires zero { (k : ℕ) → slice_index_or memory.old.granules k (0, false) ≡ (0, false) }
    ensures count { length memory.new.granules ≡ length memory.old.granules }
    ensures pages { length memory.new.dirty ≡ length memory.old.dirty }
    ensures base { memory.new.base ≡ memory.old.base }
    ensures granules { (m : MachineState) → IsState m → text_of m ≡ bytes.now → length m.state.granules ≡ length memory.old.granules
        → memory.new.granules ≡ m.state.granules }
    ensures read { AreReadFrom bytes.now memory.new.granules }
{
    for i in 0..memory.granules() {
        let at = HEAD + ROW * i;
        let bits = LittleEndian::read_u128(&bytes[at..]);
        put_over_zero(memory, i, bits, bytes[at + TAG] == 1);
    }
}

// Writes a granule that is zero and untagged, if it is to be another. Few are.
#[inline(always)]
fn put_over_zero(memory: &mut Memory, granule: usize, bits: u128, tag: bool)
    requires inside { granule < length memory.old.granules }
    requires zero { slice_index_or memory.old.granules granule (0, false) ≡ (0, false) }
    ensures granules { memory.new.granules ≡ slice_set memory.old.granules granule (bits, tag) }
    ensures pages { length memory.new.dirty ≡ length memory.old.dirty }
    ensures base { memory.new.base ≡ memory.old.base }
{
    if bits == 0 && !tag {
        return;
    }
    memory.put(granule, bits, tag);
}

/// Makes the pages dirty that bytes tell of, from `start` on, and the others clean.
pub fn read_dirty(memory: &mut Memory, bytes: &[u8], start: usize)
    requires marks { start + length memory.old.dirty ≤ length bytes.now }
    requires pages { length memory.old.granules ≡ 256 * length memory.old.dirty }
    ensures granules { memory.new.granules ≡ memory.old.granules }
    ensures base { memory.new.base ≡ memory.old.base }
    ensures dirty { (m : MachineState) → IsState m → text_of m ≡ bytes.now → length m.dirty ≡ length memory.old.dirty
        → start ≡ 557 + 5376 * length m.dirty → memory.new.dirty ≡ m.dirty }
{
    memory.mark_clean();
    for page in 0..memory.pages() as usize {
        mark_if(memory, page, bytes[start + page] == 1);
    }
}

// Makes a page dirty, where it is to be.
fn mark_if(memory: &mut Memory, page: usize, is_dirty: bool)
    requires page { 256 * page < length memory.old.granules }
    ensures granules { memory.new.granules ≡ memory.old.granules }
    ensures base { memory.new.base ≡ memory.old.base }
    ensures dirty { memory.new.dirty ≡ (if is_dirty then slice_set memory.old.dirty page true else memory.old.dirty) }
{
    if !is_dirty {
        return;
    }
    mark_dirty(memory, page);
}

// Makes a page dirty, and leaves its granules as they are: its first one is tagged for a moment.
fn mark_dirty(memory: &mut Memory, page: usize)
    requires page { 256 * page < length memory.old.granules }
    ensures granules { memory.new.granules ≡ memory.old.granules }
    ensures base { memory.new.base ≡ memory.old.base }
    ensures dirty { memory.new.dirty ≡ slice_set memory.old.dirty page true }
{
    let _granules = memory.granules();
    let i = PAGE_GRANULES as usize * page;
    let (bits, tag) = memory.cell(i);
    memory.put(i, bits, true);
    memory.put(i, bits, tag);
}

/// The registers that bytes tell of, from `start` on.
pub fn read_registers(bytes: &[u8], start: usize) -> Registers
    requires { start + 17 * register_count ≤ length bytes.now }
    ensures all { (m : MachineState) → IsState m → text_of m ≡ bytes.now → start ≡ 13 + 21 * length m.state.granules → result ≡ m.state.registers }
    ensures count { length result ≡ register_count }
{
    let mut registers = Registers::new();
    for r in 0..REGISTERS {
        let at = start + REGISTER * r as usize;
        let bits = LittleEndian::read_u128(&bytes[at..]);
        registers.set(r, Word { bits }, bytes[at + TAG] == 1);
    }
    registers.invariant();
    registers
}
