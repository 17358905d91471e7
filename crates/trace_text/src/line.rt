//! A line as a command, and as the heap line.

ghost use Rattle.std.specs.Prelude.{◌≡◌, ◌<◌, ◌∷◌, IfOk, IfSome, IsTrue};
ghost use Rattle.trace_text.specs.Command.{IsValid};
ghost use Rattle.trace_text.specs.Heap.{IsHeap};
ghost use Rattle.trace_text.specs.Lines.{words_of};
ghost use Rattle.trace_text.specs.Reading.{command_of, command_at, data_in, heap_at, heap_of, is_heap, mask_in, none_of, number_in, one_of, register_in, three_of, two_of};
ghost use Rattle.tag_memory.specs.Cells.{register_count};

use crate::fault::{LineFault, TraceFault};
use crate::marked::Line;
use crate::operand::{data, mask, number, operand_number, register};
use crate::trace::Command;
use crate::words::{no_word, one_word, split_name, three_words, two_words};
use tag_memory::{is_base, is_size};

// No operands.
#[tactic(auto, unfolding(crate::specs::Reading::none_of))]
fn no_operands(operands: &Line<'_>) -> Result<(), LineFault>
    ensures { result ≡ none_of (words_of operands.now) }
{
    if no_word(operands) {
        Ok(())
    } else {
        Err(LineFault::BadCount)
    }
}

// A register and a number.
#[tactic(auto, unfolding(crate::specs::Reading::two_of))]
fn register_and_number(operands: &Line<'_>) -> Result<(u8, u64), LineFault>
    ensures value { result ≡ two_of register_in number_in (words_of operands.now) }
    ensures valid { IfOk result (λ read. read.0 < register_count) }
{
    let Some((first, second)) = two_words(operands) else {
        return Err(LineFault::BadCount);
    };
    let register = register(first)?;
    let number = operand_number(second)?;
    Ok((register, number))
}

// Two registers.
#[tactic(auto, unfolding(crate::specs::Reading::two_of))]
fn two_registers(operands: &Line<'_>) -> Result<(u8, u8), LineFault>
    ensures value { result ≡ two_of register_in register_in (words_of operands.now) }
    ensures valid { IfOk result (λ read. (read.0 < register_count) × (read.1 < register_count)) }
{
    let Some((first, second)) = two_words(operands) else {
        return Err(LineFault::BadCount);
    };
    let first = register(first)?;
    let second = register(second)?;
    Ok((first, second))
}

// Two registers and a number.
#[tactic(auto, unfolding(crate::specs::Reading::three_of))]
fn registers_and_number(operands: &Line<'_>) -> Result<(u8, u8, u64), LineFault>
    ensures value { result ≡ three_of register_in register_in number_in (words_of operands.now) }
    ensures valid { IfOk result (λ read. (read.0 < register_count) × (read.1 < register_count)) }
{
    let Some((first, second, third)) = three_words(operands) else {
        return Err(LineFault::BadCount);
    };
    let first = register(first)?;
    let second = register(second)?;
    let number = operand_number(third)?;
    Ok((first, second, number))
}

// Two registers and a mask.
#[tactic(auto, unfolding(crate::specs::Reading::three_of))]
fn registers_and_mask(operands: &Line<'_>) -> Result<(u8, u8, u16), LineFault>
    ensures value { result ≡ three_of register_in register_in mask_in (words_of operands.now) }
    ensures valid { IfOk result (λ read. (read.0 < register_count) × (read.1 < register_count)) }
{
    let Some((first, second, third)) = three_words(operands) else {
        return Err(LineFault::BadCount);
    };
    let first = register(first)?;
    let second = register(second)?;
    let mask = mask(third)?;
    Ok((first, second, mask))
}

// A register and data.
#[tactic(auto, unfolding(crate::specs::Reading::two_of))]
fn register_and_data(operands: &Line<'_>) -> Result<(u8, [u8; 16]), LineFault>
    ensures value { result ≡ two_of register_in data_in (words_of operands.now) }
    ensures valid { IfOk result (λ read. read.0 < register_count) }
{
    let Some((first, second)) = two_words(operands) else {
        return Err(LineFault::BadCount);
    };
    let register = register(first)?;
    let data = data(second)?;
    Ok((register, data))
}

// One register.
#[tactic(auto, unfolding(crate::specs::Reading::one_of))]
fn one_register(operands: &Line<'_>) -> Result<u8, LineFault>
    ensures value { result ≡ one_of register_in (words_of operands.now) }
    ensures valid { IfOk result (λ register. register < register_count) }
{
    let Some(word) = one_word(operands) else {
        return Err(LineFault::BadCount);
    };
    register(word)
}

/// The command with this name, whose operands follow it.
#[tactic(auto, unfolding(crate::specs::Reading::command_of))]
pub fn command(name: &[u8], operands: &Line<'_>) -> Result<Command, LineFault>
    ensures value { result ≡ command_of (name.now ∷ words_of operands.now) }
    ensures valid { IfOk result IsValid }
{
    if name == b"malloc".as_slice() {
        let (rd, size) = register_and_number(operands)?;
        return Ok(Command::Malloc { rd, size });
    }
    if name == b"free".as_slice() {
        let rs = one_register(operands)?;
        return Ok(Command::Free { rs });
    }
    if name == b"copy".as_slice() {
        let (rd, rs) = two_registers(operands)?;
        return Ok(Command::Copy { rd, rs });
    }
    if name == b"setaddr".as_slice() {
        let (rd, rs, address) = registers_and_number(operands)?;
        return Ok(Command::SetAddr { rd, rs, address });
    }
    if name == b"narrow".as_slice() {
        let (rd, rs, length) = registers_and_number(operands)?;
        return Ok(Command::Narrow { rd, rs, length });
    }
    if name == b"andperm".as_slice() {
        let (rd, rs, mask) = registers_and_mask(operands)?;
        return Ok(Command::AndPerm { rd, rs, mask });
    }
    if name == b"storecap".as_slice() {
        let (ra, rs) = two_registers(operands)?;
        return Ok(Command::StoreCap { ra, rs });
    }
    if name == b"loadcap".as_slice() {
        let (rd, ra) = two_registers(operands)?;
        return Ok(Command::LoadCap { rd, ra });
    }
    if name == b"write".as_slice() {
        let (ra, bytes) = register_and_data(operands)?;
        return Ok(Command::Write { ra, bytes });
    }
    if name == b"show".as_slice() {
        let rs = one_register(operands)?;
        return Ok(Command::Show { rs });
    }
    if name == b"sweep".as_slice() {
        no_operands(operands)?;
        return Ok(Command::Sweep);
    }
    if name == b"begin".as_slice() {
        no_operands(operands)?;
        return Ok(Command::Begin);
    }
    if name == b"end".as_slice() {
        no_operands(operands)?;
        return Ok(Command::End);
    }
    Err(LineFault::BadCommand)
}

/// What a line after the heap line means: a command, or nothing where it is passed over.
#[tactic(auto, unfolding(crate::specs::Reading::command_at))]
pub fn command_at(number: u32, line: &Line<'_>) -> Result<Option<Command>, TraceFault>
    ensures value { result ≡ command_at number (words_of line.now) }
    ensures valid { IfOk result (λ read. IfSome read IsValid) }
{
    let Some((name, operands)) = split_name(line) else {
        return Ok(None);
    };
    match command(name, &operands) {
        Ok(command) => Ok(Some(command)),
        Err(fault) => Err(fault.at_line(number)),
    }
}

fn is_heap_place(base: u64, pages: u64) -> bool
    ensures value { result ≡ is_heap base pages }
    ensures heap { IsTrue result → IsHeap base pages }
{
    is_size(pages) && is_base(base, pages)
}

// The heap with this base address and this many pages.
#[tactic(auto, unfolding(crate::specs::Reading::heap_of))]
fn heap(operands: &Line<'_>) -> Option<(u64, u32)>
    ensures value { result ≡ heap_of (words_of operands.now) }
    ensures heap { IfSome result (λ read. IsHeap read.0 read.1) }
{
    let (base, pages) = two_words(operands)?;
    let base = number(base)?;
    let pages = number(pages)?;
    if is_heap_place(base, pages) {
        Some((base, pages as u32))
    } else {
        None
    }
}

/// What a line up to the heap line means: the heap, or nothing where it is passed over.
#[tactic(auto, unfolding(crate::specs::Reading::heap_at))]
pub fn heap_at(number: u32, line: &Line<'_>) -> Result<Option<(u64, u32)>, TraceFault>
    ensures value { result ≡ heap_at number (words_of line.now) }
    ensures heap { IfOk result (λ read. IfSome read (λ read. IsHeap read.0 read.1)) }
{
    let Some((name, operands)) = split_name(line) else {
        return Ok(None);
    };
    if name != b"heap".as_slice() {
        return Err(TraceFault::NoHeap(number));
    }
    match heap(&operands) {
        Some(heap) => Ok(Some(heap)),
        None => Err(TraceFault::BadHeap(number)),
    }
}
