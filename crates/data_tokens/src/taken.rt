//! The tags that a pass took.

ghost use Rattle.std.specs.Prelude.{◌≡◌, [], ◌&&◌, ◌<◌, ◌≤◌, ◌+◌, ◌*◌, ◌^◌, ℕ, Bool, OnOk, codes, length, slice_index_or};
ghost use Rattle.data_tokens.specs.Changes.{below};
ghost use Rattle.data_tokens.specs.Line.{LineState, with_tokens, list_tokens};
ghost use Rattle.data_tokens.specs.Spans.{spans_of};
ghost use Rattle.data_tokens.specs.Taken.{is_register_taken, is_tag_gone, none_taken, number_if, register_numbers, taken_tokens};
ghost use Rattle.heap_model.specs.Sweep.{takes_tag};
ghost use Rattle.tag_memory.specs.Cells.{null_cell, register_count};

use crate::blocks::{HeldBlock, lies_in};
use crate::data_line::DataLine;
use cap_codec::{Word, bounds};
use std::alloc::AllocError;
use tag_memory::{Memory, REGISTERS, WORD_GRANULES, bit};

fn put_if(line: &mut DataLine, passes: bool, number: u64) -> Result<(), AllocError>
    ensures { (test : ℕ → Bool) → passes ≡ test number → OnOk result (line.new ≡ with_tokens line.old (number_if test number)) }
{
    if passes {
        return line.number(number);
    }
    Ok(())
}

// Whether a pass takes the tag of a cell while these blocks are due.
fn is_taken(due: &[HeldBlock], cell: (Word, bool)) -> bool
    ensures { result ≡ takes_tag (spans_of due.now) cell }
{
    cell.1 && lies_in(due, bounds(cell.0).base)
}

// The registers whose tags a pass took while these blocks were due, where it looked at registers: `registers` has all 32
// as they were.
fn put_taken_registers(
    line: &mut DataLine,
    looked: bool,
    due: &[HeldBlock],
    registers: &[(Word, bool)],
) -> Result<(), AllocError>
    requires count { length registers.now ≡ register_count }
    requires zero { slice_index_or registers.now 0 null_cell ≡ null_cell }
    ensures { OnOk result (line.new ≡ with_tokens line.old (register_numbers (λ k. looked && is_register_taken (spans_of due.now) registers.now k))) }
{
    for r in 0..REGISTERS {
        let is_taken = looked & is_taken(due, registers[usize::from(r)]);
        put_if(line, is_taken, u64::from(r))?;
    }
    Ok(())
}

// The granules of word `w` of the tags whose tags are gone, where those before are told.
fn put_gone_of_word(
    line: &mut DataLine,
    memory: &Memory,
    tags: &[u64],
    w: usize,
) -> Result<(), AllocError>
    requires inside { 64 * w + 64 ≤ length memory.now.granules }
    requires few { length memory.now.granules < 2 ^ 64 }
    requires tags { 64 * length tags.now ≡ length memory.now.granules }
    ensures { (start : LineState) → line.old ≡ with_tokens start (below (number_if (is_tag_gone tags.now memory.now.granules)) (64 * w))
        → OnOk result (line.new ≡ with_tokens start (below (number_if (is_tag_gone tags.now memory.now.granules)) (64 * w + 64))) }
{
    let now = memory.tag_word(w);
    if tags[w] == now {
        return Ok(());
    }
    for j in 0..WORD_GRANULES {
        let is_gone = bit(tags[w], j) & !bit(now, j);
        put_if(line, is_gone, (WORD_GRANULES * w + j) as u64)?;
    }
    Ok(())
}

// The granules that had a tag by these words, and have none now.
fn put_taken_granules(line: &mut DataLine, memory: &Memory, tags: &[u64]) -> Result<(), AllocError>
    requires { 64 * length tags.now ≡ length memory.now.granules }
    ensures { OnOk result (line.new ≡ with_tokens line.old (below (number_if (is_tag_gone tags.now memory.now.granules)) (length memory.now.granules))) }
{
    for w in 0..memory.granules() / WORD_GRANULES {
        put_gone_of_word(line, memory, tags, w)?;
    }
    Ok(())
}

fn put_register_list(
    line: &mut DataLine,
    looked: bool,
    due: &[HeldBlock],
    registers: &[(Word, bool)],
) -> Result<(), AllocError>
    requires count { length registers.now ≡ register_count }
    requires zero { slice_index_or registers.now 0 null_cell ≡ null_cell }
    ensures { OnOk result (line.new ≡ with_tokens line.old (list_tokens (codes "registers")
        (register_numbers (λ k. looked && is_register_taken (spans_of due.now) registers.now k)))) }
{
    line.open_list("registers")?;
    put_taken_registers(line, looked, due, registers)?;
    line.close_list()
}

fn put_granule_list(line: &mut DataLine, memory: &Memory, tags: &[u64]) -> Result<(), AllocError>
    requires { 64 * length tags.now ≡ length memory.now.granules }
    ensures { OnOk result (line.new ≡ with_tokens line.old (list_tokens (codes "granules")
        (below (number_if (is_tag_gone tags.now memory.now.granules)) (length memory.now.granules)))) }
{
    line.open_list("granules")?;
    put_taken_granules(line, memory, tags)?;
    line.close_list()
}

/// The tags that a pass took while these blocks were due. Before it the registers were these, and granules were tagged as
/// these words say; `looked` says whether it looked at registers.
pub fn put_taken(
    line: &mut DataLine,
    looked: bool,
    due: &[HeldBlock],
    registers: &[(Word, bool)],
    memory: &Memory,
    tags: &[u64],
) -> Result<(), AllocError>
    requires count { length registers.now ≡ register_count }
    requires zero { slice_index_or registers.now 0 null_cell ≡ null_cell }
    requires tags { 64 * length tags.now ≡ length memory.now.granules }
    ensures { OnOk result (line.new ≡ with_tokens line.old (taken_tokens (λ k. looked && is_register_taken (spans_of due.now) registers.now k)
        (is_tag_gone tags.now memory.now.granules) (length memory.now.granules))) }
{
    line.open_object("taken")?;
    put_register_list(line, looked, due, registers)?;
    put_granule_list(line, memory, tags)?;
    line.close()
}

fn put_empty_list(line: &mut DataLine, name: &str) -> Result<(), AllocError>
    ensures { OnOk result (line.new ≡ with_tokens line.old (list_tokens name.now [])) }
{
    line.open_list(name)?;
    line.close_list()
}

/// That a pass took no tag.
pub fn put_none_taken(line: &mut DataLine) -> Result<(), AllocError>
    ensures { OnOk result (line.new ≡ with_tokens line.old none_taken) }
{
    line.open_object("taken")?;
    put_empty_list(line, "registers")?;
    put_empty_list(line, "granules")?;
    line.close()
}
