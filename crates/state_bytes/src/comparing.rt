//! Whether bytes are those of a machine's state.

ghost use Rattle.std.specs.Prelude.{◌≡◌, ◌<◌, ◌≤◌, ◌+◌, ◌*◌, ◌∷◌, [], ℕ, length, true};
ghost use Rattle.byteorder.specs.Endian.{little_bytes};
ghost use Rattle.tag_memory.specs.Cells.{Granule, register_count};
ghost use Rattle.state_bytes.specs.Reading.{AreReadFrom, IsReadAt};
ghost use Rattle.state_bytes.specs.State.{HasInvariant};
ghost use Rattle.state_bytes.specs.Text.{dirty_text, flag_byte, granule_text, head_text, memory_text, register_text, text_of, texts_below};
ghost use Rattle.state_bytes.specs.Writing.{StandsAt};

use crate::encoding::{byte_of, number_at, tell_all};
use crate::places::{HEAD, NUMBER, OPEN, PAGES, REGISTER, ROW, TAG, text_length};
use byteorder::{ByteOrder, LittleEndian};
use heap_core::Heap;
use heap_machine::Machine;
use tag_memory::{Memory, REGISTERS, Registers};

/// Whether the bytes from which a machine's granules were read are those that tell of its state.
pub fn is_text(bytes: &[u8], machine: &Machine) -> bool
    requires read { AreReadFrom bytes.now machine.now.state.granules }
    ensures yes { result ≡ true → text_of machine.now ≡ bytes.now }
    ensures no { text_of machine.now ≡ bytes.now → result ≡ true }
    ensures invariant { HasInvariant machine.now }
{
    tell_all(machine);
    let heap = machine.heap();
    let memory = machine.memory();
    if bytes.len() != text_length(memory.pages()) {
        return false;
    }
    if !is_head(bytes, heap.base(), memory.pages(), heap.is_open()) {
        return false;
    }
    if !are_granules(bytes, heap, memory) {
        return false;
    }
    let at = HEAD + ROW * memory.granules();
    if !are_registers(bytes, at, machine.registers()) {
        return false;
    }
    are_dirty(bytes, at + REGISTER * REGISTERS as usize, memory)
}

fn is_head(bytes: &[u8], base: u64, pages: u32, is_open: bool) -> bool
    requires inside { 13 ≤ length bytes.now }
    ensures yes { result ≡ true → StandsAt bytes.now 0 (head_text base pages is_open) }
    ensures no { StandsAt bytes.now 0 (head_text base pages is_open) → result ≡ true }
{
    if !is_8(bytes, 0, base) {
        return false;
    }
    if !is_4(bytes, PAGES, pages) {
        return false;
    }
    is_flag(bytes, OPEN, is_open)
}

// All granules.
fn are_granules(bytes: &[u8], heap: &Heap, memory: &Memory) -> bool
    requires read { AreReadFrom bytes.now memory.now.granules }
    requires same { 16 * length memory.now.granules ≡ heap.now.size }
    requires inside { 13 + 21 * length memory.now.granules ≤ length bytes.now }
    ensures yes { result ≡ true → StandsAt bytes.now 13 (memory_text heap.now memory.now.granules) }
    ensures no { StandsAt bytes.now 13 (memory_text heap.now memory.now.granules) → result ≡ true }
{
    for i in 0..memory.granules() {
        if !is_granule(bytes, heap, i) {
            return false;
        }
    }
    true
}

// One granule. Its bytes and its tag were read from there; left are the tag's byte, which must be 0 or 1, and the number of the
// block that starts there.
#[inline(always)]
fn is_granule(bytes: &[u8], heap: &Heap, i: usize) -> bool
    requires granule { 16 * i < heap.now.size }
    requires inside { 13 + 21 * (i + 1) ≤ length bytes.now }
    ensures yes { result ≡ true → (granule : Granule) → IsReadAt bytes.now i granule
        → StandsAt bytes.now (13 + 21 * i) (granule_text heap.now i granule) }
    ensures no { (granule : Granule) → IsReadAt bytes.now i granule
        → StandsAt bytes.now (13 + 21 * i) (granule_text heap.now i granule) → result ≡ true }
{
    let at = HEAD + ROW * i;
    if bytes[at + TAG] > 1 {
        return false;
    }
    is_4(bytes, at + NUMBER, number_at(heap, i))
}

fn are_registers(bytes: &[u8], start: usize, registers: &Registers) -> bool
    requires inside { start + 17 * register_count ≤ length bytes.now }
    ensures yes { result ≡ true → StandsAt bytes.now start (texts_below (register_text registers.now) register_count) }
    ensures no { StandsAt bytes.now start (texts_below (register_text registers.now) register_count) → result ≡ true }
{
    registers.invariant();
    for r in 0..REGISTERS {
        if !is_register(bytes, start, registers, r) {
            return false;
        }
    }
    true
}

// One register.
fn is_register(bytes: &[u8], start: usize, registers: &Registers, r: u8) -> bool
    requires register { r < register_count }
    requires inside { start + 17 * register_count ≤ length bytes.now }
    ensures yes { result ≡ true → StandsAt bytes.now (start + 17 * r) (register_text registers.now r) }
    ensures no { StandsAt bytes.now (start + 17 * r) (register_text registers.now r) → result ≡ true }
{
    let (word, tag) = registers.get(r);
    let at = start + REGISTER * r as usize;
    if !is_16(bytes, at, word.bits) {
        return false;
    }
    is_flag(bytes, at + TAG, tag)
}

fn are_dirty(bytes: &[u8], start: usize, memory: &Memory) -> bool
    requires inside { start + length memory.now.dirty ≤ length bytes.now }
    ensures yes { result ≡ true → StandsAt bytes.now start (texts_below (dirty_text memory.now.dirty) (length memory.now.dirty)) }
    ensures no { StandsAt bytes.now start (texts_below (dirty_text memory.now.dirty) (length memory.now.dirty)) → result ≡ true }
{
    memory.invariant();
    for page in 0..memory.pages() {
        if !is_flag(bytes, start + page as usize, memory.dirty(page)) {
            return false;
        }
    }
    true
}

fn is_flag(bytes: &[u8], at: usize, flag: bool) -> bool
    requires inside { at < length bytes.now }
    ensures yes { result ≡ true → StandsAt bytes.now at (flag_byte flag ∷ []) }
    ensures no { StandsAt bytes.now at (flag_byte flag ∷ []) → result ≡ true }
{
    bytes[at] == byte_of(flag)
}

fn is_4(bytes: &[u8], at: usize, number: u32) -> bool
    requires inside { at + 4 ≤ length bytes.now }
    ensures yes { result ≡ true → StandsAt bytes.now at (little_bytes 4 number) }
    ensures no { StandsAt bytes.now at (little_bytes 4 number) → result ≡ true }
{
    LittleEndian::read_u32(&bytes[at..]) == number
}

fn is_8(bytes: &[u8], at: usize, number: u64) -> bool
    requires inside { at + 8 ≤ length bytes.now }
    ensures yes { result ≡ true → StandsAt bytes.now at (little_bytes 8 number) }
    ensures no { StandsAt bytes.now at (little_bytes 8 number) → result ≡ true }
{
    LittleEndian::read_u64(&bytes[at..]) == number
}

fn is_16(bytes: &[u8], at: usize, number: u128) -> bool
    requires inside { at + 16 ≤ length bytes.now }
    ensures yes { result ≡ true → StandsAt bytes.now at (little_bytes 16 number) }
    ensures no { StandsAt bytes.now at (little_bytes 16 number) → result ≡ true }
{
    LittleEndian::read_u128(&bytes[at..]) == number
}
