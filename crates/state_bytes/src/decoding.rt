//! A machine from the bytes of its state.

ghost use Rattle.std.specs.Prelude.{◌≡◌, ◌≢◌, ◌≤◌, ◌==◌, ℕ, IfErr, IfOk, drop, false, length, slice_index_or};
ghost use Rattle.byteorder.specs.Endian.{little_number};
ghost use Rattle.heap_machine.specs.Making.{machine_of_fields};
ghost use Rattle.heap_machine.specs.Storage.{MachineState};
ghost use Rattle.state_bytes.specs.Reading.{AreReadFrom, HasHead, HasParts};
ghost use Rattle.state_bytes.specs.State.{AreExact, IsSameState, IsState, HasInvariant};
ghost use Rattle.state_bytes.specs.Text.{text_of};
ghost use Rattle.state_bytes.specs.Text as text;

use crate::blocks::read_blocks;
use crate::comparing::is_text;
use crate::fault::BytesFault;
use crate::laws::one_text_law;
use crate::places::{HEAD, OPEN, PAGES, REGISTER, ROW, text_length};
use crate::words::{read_dirty, read_granules, read_registers};
use byteorder::{ByteOrder, LittleEndian};
use heap_core::Heap;
use heap_machine::Machine;
use host_memory::Global;
use sweep_pool::Cutting;
use tag_memory::{Memory, REGISTERS, Registers, is_base, is_size};

// Where the heap lies, how many pages it has, and whether an epoch is open.
#[derive(Clone, Copy)]
struct Head {
    base: u64,
    pages: u32,
    is_open: bool,
}

/// The machine of whose state these are the bytes; its sweeps are cut into tasks of `cutting`'s pages, and made by no
/// more than its workers. All other bytes are refused.
pub fn decode(alloc: Global, cutting: Cutting, bytes: &[u8]) -> Result<Machine, BytesFault>
    ensures text { IfOk result (λ machine. text_of machine ≡ bytes.now) }
    ensures state { IfOk result IsState }
    ensures cutting { IfOk result (λ machine. machine.cutting ≡ cutting) }
    ensures same { IfOk result (λ machine. (m : MachineState) → HasInvariant m → text_of m ≡ bytes.now → IsSameState machine m) }
    ensures refused { IfErr result (λ why. why ≢ BytesFault.Memory → (m : MachineState) → IsState m → text_of m ≢ bytes.now) }
{
    one_text_law();
    let machine = match read(alloc, cutting, bytes) {
        Ok(machine) => machine,
        Err(why) => return Err(why),
    };
    if !is_text(bytes, &machine) {
        return Err(BytesFault::Spelling);
    }
    Ok(machine)
}

// A machine as the bytes say. Whether they are its own shows when they are compared.
fn read(alloc: Global, cutting: Cutting, bytes: &[u8]) -> Result<Machine, BytesFault>
    ensures exact { IfOk result (λ machine. AreExact machine.state.heap) }
    ensures cutting { IfOk result (λ machine. machine.cutting ≡ cutting) }
    ensures read { IfOk result (λ machine. AreReadFrom bytes.now machine.state.granules) }
    ensures same { IfOk result (λ machine. (m : MachineState) → IsState m → text_of m ≡ bytes.now → IsSameState machine m) }
    ensures refused { IfErr result (λ why. why ≢ BytesFault.Memory → (m : MachineState) → IsState m → text_of m ≢ bytes.now) }
{
    let head = read_head(bytes)?;
    let Ok(mut heap) = Heap::new(alloc, head.base, head.pages) else {
        return Err(BytesFault::Memory);
    };
    let Ok(mut memory) = Memory::new(alloc, head.base, head.pages) else {
        return Err(BytesFault::Memory);
    };
    if !read_blocks(&mut heap, bytes, head.is_open) {
        return Err(BytesFault::Blocks);
    }
    let registers = read_words(&mut memory, bytes);
    machine_of(heap, memory, registers, cutting)
}

// What stands first, where the bytes are as many as they must be then, and a heap can lie there.
fn read_head(bytes: &[u8]) -> Result<Head, BytesFault>
    ensures length { IfOk result (λ head. length bytes.now ≡ text.text_length head.pages) }
    ensures head { IfOk result (λ head. (m : MachineState) → IsState m → text_of m ≡ bytes.now → HasHead m head) }
    ensures refused { IfErr result (λ why. (m : MachineState) → IsState m → text_of m ≢ bytes.now) }
{
    one_text_law();
    if bytes.len() < HEAD {
        return Err(BytesFault::Length);
    }
    let head = head_in(bytes);
    if bytes.len() != text_length(head.pages) {
        return Err(BytesFault::Length);
    }
    if !is_size(u64::from(head.pages)) {
        return Err(BytesFault::Head);
    }
    if !is_base(head.base, u64::from(head.pages)) {
        return Err(BytesFault::Head);
    }
    Ok(head)
}

fn head_in(bytes: &[u8]) -> Head
    requires { 13 ≤ length bytes.now }
    ensures base { result.base ≡ little_number 8 bytes.now }
    ensures pages { result.pages ≡ little_number 4 (drop 8 bytes.now) }
    ensures is_open { result.is_open ≡ (slice_index_or bytes.now 12 0 == 1) }
{
    Head {
        base: LittleEndian::read_u64(bytes),
        pages: LittleEndian::read_u32(&bytes[PAGES..]),
        is_open: bytes[OPEN] == 1,
    }
}

// The granules, the dirty pages and the registers.
fn read_words(memory: &mut Memory, bytes: &[u8]) -> Registers
    requires length { length bytes.now ≡ text.text_length (length memory.old.dirty) }
    requires zero { (k : ℕ) → slice_index_or memory.old.granules k (0, false) ≡ (0, false) }
    ensures base { memory.new.base ≡ memory.old.base }
    ensures memory { (m : MachineState) → IsState m → text_of m ≡ bytes.now → length m.dirty ≡ length memory.old.dirty
        → (memory.new.granules ≡ m.state.granules) × (memory.new.dirty ≡ m.dirty) }
    ensures registers { (m : MachineState) → IsState m → text_of m ≡ bytes.now → length m.dirty ≡ length memory.old.dirty
        → result ≡ m.state.registers }
    ensures read { AreReadFrom bytes.now memory.new.granules }
{
    memory.invariant();
    let registers = HEAD + ROW * memory.granules();
    read_granules(memory, bytes);
    read_dirty(memory, bytes, registers + REGISTER * REGISTERS as usize);
    read_registers(bytes, registers)
}

// The machine of these parts, where they are one's.
fn machine_of(
    heap: Heap,
    memory: Memory,
    registers: Registers,
    cutting: Cutting,
) -> Result<Machine, BytesFault>
    ensures made { IfOk result (λ machine. machine ≡ machine_of_fields heap memory registers cutting) }
    ensures refused { IfErr result (λ why. (m : MachineState) → HasInvariant m → HasParts m heap memory registers → ⊥) }
{
    match Machine::of(heap, memory, registers, cutting) {
        Ok(machine) => Ok(machine),
        Err(_) => Err(BytesFault::Words),
    }
}
