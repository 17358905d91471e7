//! A machine's state as bytes.

ghost use Rattle.std.specs.Prelude.{◌≡◌, ◌<◌, ◌≤◌, ◌+◌, ◌*◌, ◌∷◌, [], IfOk, length};
ghost use Rattle.byteorder.specs.Endian.{little_bytes};
ghost use Rattle.heap_machine.specs.Storage.{MachineState};
ghost use Rattle.tag_memory.specs.Cells.{register_count};
ghost use Rattle.state_bytes.specs.State.{HasInvariant, HasMemoryOf};
ghost use Rattle.state_bytes.specs.Text.{block_number, dirty_text, flag_byte, granule_text, head_text, kind_number, memory_text, register_text, text_of, texts_below};
ghost use Rattle.state_bytes.specs.Text as text;
ghost use Rattle.state_bytes.specs.Writing.{IsWritten};

use crate::places::{HEAD, NUMBER, OPEN, PAGES, REGISTER, ROW, TAG, text_length};
use byteorder::{ByteOrder, LittleEndian};
use heap_core::{Heap, Kind};
use heap_machine::Machine;
use host_memory::Global;
use std::alloc::AllocError;
use tag_memory::{Memory, REGISTERS, Registers};

/// The bytes that tell of a machine's state: its blocks, whether an epoch is open, its granules with their tags, its
/// registers, and which pages are dirty. How its sweeps are cut isn't told. It errs where an allocation is refused.
pub fn encode(alloc: Global, machine: &Machine) -> Result<Vec<u8, Global>, AllocError>
    ensures text { IfOk result (λ bytes. bytes.items ≡ text_of machine.now) }
    ensures invariant { HasInvariant machine.now }
{
    tell_all(machine);
    let mut bytes = vec![in alloc; 0; text_length(machine.memory().pages())]?;
    encode_into(machine, &mut bytes);
    Ok(bytes)
}

/// Writes the bytes that tell of a machine's state into a room that is as long.
pub fn encode_into(machine: &Machine, out: &mut [u8])
    requires room { length out.old ≡ text.text_length (length machine.now.dirty) }
    ensures text { out.new ≡ text_of machine.now }
    ensures invariant { HasInvariant machine.now }
{
    tell_all(machine);
    let heap = machine.heap();
    let memory = machine.memory();
    let at = HEAD + ROW * memory.granules();
    put_head(out, heap.base(), memory.pages(), heap.is_open());
    put_memory(out, heap, memory);
    put_registers(out, at, machine.registers());
    put_dirty(out, at + REGISTER * REGISTERS as usize, memory);
}

/// Writes a machine's registers over those in the bytes of a machine that has the same heap, granules and dirty pages.
pub fn encode_registers_into(machine: &Machine, out: &mut [u8])
    requires room { length out.old ≡ text.text_length (length machine.now.dirty) }
    ensures text { (m : MachineState) → text_of m ≡ out.old → HasMemoryOf m machine.now → out.new ≡ text_of machine.now }
    ensures invariant { HasInvariant machine.now }
{
    tell_all(machine);
    let at = HEAD + ROW * machine.memory().granules();
    put_registers(out, at, machine.registers());
}

/// Tells what holds of every machine. Nothing is done.
pub fn tell_all(machine: &Machine)
    ensures { HasInvariant machine.now }
{
    machine.invariant();
    machine.memory().invariant();
    machine.registers().invariant();
}

fn put_head(out: &mut [u8], base: u64, pages: u32, is_open: bool)
    requires inside { 13 ≤ length out.old }
    ensures { IsWritten out.old 0 (head_text base pages is_open) out.new }
{
    put_8(out, 0, base);
    put_4(out, PAGES, pages);
    put_flag(out, OPEN, is_open);
}

// All granules.
fn put_memory(out: &mut [u8], heap: &Heap, memory: &Memory)
    requires same { 16 * length memory.now.granules ≡ heap.now.size }
    requires inside { 13 + 21 * length memory.now.granules ≤ length out.old }
    ensures { IsWritten out.old 13 (memory_text heap.now memory.now.granules) out.new }
{
    for i in 0..memory.granules() {
        let (bits, tag) = memory.cell(i);
        put_granule(out, heap, i, bits, tag);
    }
}

// One granule.
fn put_granule(out: &mut [u8], heap: &Heap, i: usize, bits: u128, tag: bool)
    requires granule { 16 * i < heap.now.size }
    requires inside { 13 + 21 * (i + 1) ≤ length out.old }
    ensures { IsWritten out.old (13 + 21 * i) (granule_text heap.now i (bits, tag)) out.new }
{
    let at = HEAD + ROW * i;
    put_16(out, at, bits);
    put_flag(out, at + TAG, tag);
    put_4(out, at + NUMBER, number_at(heap, i));
}

/// The number of the block that starts at a granule, or 0.
#[inline(always)]
pub fn number_at(heap: &Heap, i: usize) -> u32
    requires inside { 16 * i < heap.now.size }
    ensures { result ≡ block_number heap.now (heap.now.base + 16 * i) }
{
    heap.invariant();
    let Some((block, kind)) = heap.block_starting_at(i) else {
        return 0;
    };
    let length = (block.top - u128::from(block.base)) as u32;
    length + number_of_kind(kind)
}

/// The number of a kind of block.
pub fn number_of_kind(kind: Kind) -> u32
    ensures value { result ≡ kind_number kind }
    ensures limit { result ≤ 3 }
{
    match kind {
        Kind::Live => 1,
        Kind::Waiting => 2,
        Kind::Painted => 3,
    }
}

fn put_registers(out: &mut [u8], start: usize, registers: &Registers)
    requires inside { start + 17 * register_count ≤ length out.old }
    ensures { IsWritten out.old start (texts_below (register_text registers.now) register_count) out.new }
{
    for r in 0..REGISTERS {
        let (word, tag) = registers.get(r);
        let at = start + REGISTER * r as usize;
        put_16(out, at, word.bits);
        put_flag(out, at + TAG, tag);
    }
}

fn put_dirty(out: &mut [u8], start: usize, memory: &Memory)
    requires inside { start + length memory.now.dirty ≤ length out.old }
    ensures { IsWritten out.old start (texts_below (dirty_text memory.now.dirty) (length memory.now.dirty)) out.new }
{
    memory.invariant();
    for page in 0..memory.pages() {
        put_flag(out, start + page as usize, memory.dirty(page));
    }
}

fn put_flag(out: &mut [u8], at: usize, flag: bool)
    requires inside { at < length out.old }
    ensures { IsWritten out.old at (flag_byte flag ∷ []) out.new }
{
    out[at] = byte_of(flag);
}

/// A flag in a byte.
pub fn byte_of(flag: bool) -> u8
    ensures { result ≡ flag_byte flag }
{
    if flag { 1 } else { 0 }
}

fn put_4(out: &mut [u8], at: usize, number: u32)
    requires inside { at + 4 ≤ length out.old }
    ensures { IsWritten out.old at (little_bytes 4 number) out.new }
{
    LittleEndian::write_u32(&mut out[at..at + 4], number);
}

fn put_8(out: &mut [u8], at: usize, number: u64)
    requires inside { at + 8 ≤ length out.old }
    ensures { IsWritten out.old at (little_bytes 8 number) out.new }
{
    LittleEndian::write_u64(&mut out[at..at + 8], number);
}

// Two halves are written sooner than one number of 16 bytes.
fn put_16(out: &mut [u8], at: usize, number: u128)
    requires inside { at + 16 ≤ length out.old }
    ensures { IsWritten out.old at (little_bytes 16 number) out.new }
{
    put_8(out, at, (number % (1 << 64)) as u64);
    put_8(out, at + 8, (number >> 64) as u64);
}
