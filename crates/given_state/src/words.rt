//! The registers and granules that lines give.

ghost use Rattle.std.specs.Prelude.{◌≡◌, ◌<◌, All, IfErr, OnOk};
ghost use Rattle.log_text.specs.Log.{IsListedGiven, IsValidGiven};
ghost use Rattle.tag_memory.specs.Cells.{register_count, registers_with};
ghost use Rattle.heap_machine.specs.Making.{LieTogether};
ghost use Rattle.machine_steps.specs.Safety.{IsGuarded};
ghost use Rattle.given_state.specs.Given.{HasGranule, KeepsNull, LacksGranule, LacksGuard, LacksRegister, LacksHold, LacksHoldFirst, MayAllHold, MayHold, cell_with, given_granules, given_registers, with_given_register};
ghost use Rattle.given_state.specs.Giving.{FitHeap, memory_with, with_given_memory};

use crate::fault::Lack;
use cap_codec::{Word, bounds, from_bytes};
use heap_core::Heap;
use heap_machine::is_guarded;
use log_text::Given;
use tag_memory::{Memory, Registers};

// Refuses a word with this tag that isn't guarded.
fn guard(heap: &Heap, word: Word, tag: bool) -> Result<(), Lack>
    ensures ok { OnOk result (IsGuarded heap.now (word, tag)) }
    ensures err { IfErr result (LacksGuard heap.now (word, tag)) }
{
    if is_guarded(heap, word, tag) {
        return Ok(());
    }
    let range = bounds(word);
    Err(Lack::Unguarded {
        base: range.base,
        top: range.top,
    })
}

// Writes a register, where its word is guarded.
fn hold_register(
    heap: &Heap,
    registers: &mut Registers,
    register: u8,
    tag: bool,
    bytes: [u8; 16],
) -> Result<(), Lack>
    requires { register < register_count }
    ensures null { OnOk result (KeepsNull register (cell_with tag bytes)) }
    ensures guarded { OnOk result (IsGuarded heap.now (cell_with tag bytes)) }
    ensures set { OnOk result (registers.new ≡ registers_with registers.old register (cell_with tag bytes)) }
    ensures err { IfErr result (LacksRegister heap.now register (cell_with tag bytes)) }
{
    let word = from_bytes(bytes);
    if register == 0 && (tag || word.bits != 0) {
        return Err(Lack::NotNull);
    }
    guard(heap, word, tag)?;
    registers.set(register, word, tag);
    Ok(())
}

// Writes the granule at this address, where there is one and its word is guarded.
fn hold_granule(
    heap: &Heap,
    memory: &mut Memory,
    address: u64,
    tag: bool,
    bytes: [u8; 16],
) -> Result<(), Lack>
    requires { LieTogether heap.now memory.old }
    ensures there { OnOk result (HasGranule heap.now address) }
    ensures guarded { OnOk result (IsGuarded heap.now (cell_with tag bytes)) }
    ensures put { OnOk result (memory.new ≡ memory_with memory.old address tag bytes) }
    ensures err { IfErr result (LacksGranule heap.now address (cell_with tag bytes)) }
{
    let Some(i) = memory.granule_at(address) else {
        return Err(Lack::NoGranule);
    };
    let word = from_bytes(bytes);
    if let Err(lack) = guard(heap, word, tag) {
        return Err(lack);
    }
    memory.put(i, word.bits, tag);
    Ok(())
}

// Writes the register or the granule that a line gives.
fn hold_given(
    heap: &Heap,
    memory: &mut Memory,
    registers: &mut Registers,
    given: Given,
) -> Result<(), Lack>
    requires valid { IsValidGiven given }
    requires together { LieTogether heap.now memory.old }
    ensures may { OnOk result (MayHold heap.now given) }
    ensures registers { OnOk result (registers.new ≡ with_given_register registers.old given) }
    ensures memory { OnOk result (memory.new ≡ with_given_memory memory.old given) }
    ensures lacks { IfErr result (LacksHold heap.now given) }
{
    match given {
        Given::Register {
            register,
            tag,
            bytes,
        } => hold_register(heap, registers, register, tag, bytes),
        Given::Granule {
            address,
            tag,
            bytes,
        } => hold_granule(heap, memory, address, tag, bytes),
        _ => Ok(()),
    }
}

/// Writes all registers and granules that lines give, or answers the first line whose may not be held.
pub fn hold_all(
    heap: &Heap,
    memory: &mut Memory,
    registers: &mut Registers,
    givens: &[(u32, Given)],
) -> Result<(), (u32, Lack)>
    requires givens { All IsListedGiven givens.now }
    requires fit { FitHeap heap.now memory.old registers.old }
    ensures may { OnOk result (MayAllHold heap.now givens.now) }
    ensures registers { OnOk result (registers.new ≡ given_registers registers.old givens.now) }
    ensures granules { OnOk result (memory.new.granules ≡ given_granules memory.old.base memory.old.granules givens.now) }
    ensures fit { OnOk result (FitHeap heap.now memory.new registers.new) }
    ensures first { IfErr result (λ flaw. LacksHoldFirst heap.now givens.now flaw.0 flaw.1) }
{
    for (line, given) in givens {
        if let Err(lack) = hold_given(heap, memory, registers, *given) {
            return Err((*line, lack));
        }
    }
    Ok(())
}
