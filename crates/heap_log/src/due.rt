//! The words whose tags a pass has to take.

ghost use Rattle.std.specs.Prelude.{◌≡◌, ◌<◌, ◌+◌, ◌*◌, ◌++◌, IfOk, false, length, slice_index_or};
ghost use Rattle.heap_model.specs.Heap.{due};
ghost use Rattle.tag_memory.specs.Cells.{cell_of, register_at, register_count};
ghost use Rattle.heap_log.specs.Due.{as_list, due_base, due_granules, due_registers, due_words, in_granule, in_register};

use cap_codec::{Word, bounds};
use heap_core::Heap;
use heap_machine::Machine;
use host_memory::Global;
use std::alloc::AllocError;
use tag_memory::{GRANULE, REGISTERS};

/// A word that is tagged, with its base in a block that is due, and where it stands.
#[derive(Debug, Clone, Copy, PartialEq, Eq)]
pub enum DueWord {
    Register { register: u8, base: u64 },
    Granule { address: u64, base: u64 },
}

// The base of a word, where it is due.
fn due_base(heap: &Heap, word: Word, tag: bool) -> Option<u64>
    ensures { result ≡ due_base (due heap.now) (word, tag) }
{
    let base = bounds(word).base;
    if tag && heap.is_due(base) {
        Some(base)
    } else {
        None
    }
}

fn in_register(machine: &Machine, register: u8) -> Option<DueWord>
    requires { register < register_count }
    ensures { result ≡ in_register register (due_base (due machine.now.state.heap) (register_at machine.now.state.registers register)) }
{
    let (word, tag) = machine.registers().get(register);
    let base = due_base(machine.heap(), word, tag)?;
    Some(DueWord::Register { register, base })
}

fn in_granule(machine: &Machine, i: usize) -> Option<DueWord>
    requires { i < length machine.now.state.granules }
    ensures { result ≡ in_granule (machine.now.state.heap.base + 16 * i)
        (due_base (due machine.now.state.heap) (cell_of (slice_index_or machine.now.state.granules i (0, false)))) }
{
    let memory = machine.memory();
    memory.invariant();
    let (bits, tag) = memory.cell(i);
    let base = due_base(machine.heap(), Word { bits }, tag)?;
    let address = memory.base() + GRANULE * i as u64;
    Some(DueWord::Granule { address, base })
}

fn push(words: &mut Vec<DueWord, Global>, word: Option<DueWord>) -> Result<(), AllocError>
    ensures { IfOk result (λ done. words.new.items ≡ words.old.items ++ as_list word) }
{
    let Some(word) = word else {
        return Ok(());
    };
    words.push(word)?;
    Ok(())
}

fn push_registers(words: &mut Vec<DueWord, Global>, machine: &Machine) -> Result<(), AllocError>
    ensures { IfOk result (λ done. words.new.items
        ≡ words.old.items ++ due_registers (due machine.now.state.heap) machine.now.state.registers register_count) }
{
    for register in 0..REGISTERS {
        push(words, in_register(machine, register))?;
    }
    Ok(())
}

fn push_granules(words: &mut Vec<DueWord, Global>, machine: &Machine) -> Result<(), AllocError>
    ensures { IfOk result (λ done. words.new.items
        ≡ words.old.items ++ due_granules (due machine.now.state.heap) machine.now.state.heap.base machine.now.state.granules (length machine.now.state.granules)) }
{
    for i in 0..machine.memory().granules() {
        push(words, in_granule(machine, i))?;
    }
    Ok(())
}

/// The words that are due now: those in registers where they count too, and those in memory by rising address.
pub fn due_words(
    alloc: Global,
    machine: &Machine,
    registers_too: bool,
) -> Result<Vec<DueWord, Global>, AllocError>
    ensures { IfOk result (λ words. words.items ≡ due_words registers_too machine.now.state) }
{
    let mut words = Vec::new(alloc);
    if registers_too {
        push_registers(&mut words, machine)?;
    }
    push_granules(&mut words, machine)?;
    Ok(words)
}
