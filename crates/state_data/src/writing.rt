//! The line of a command.

ghost use Rattle.std.specs.Prelude.{◌≡◌, ◌<◌, ◌≤◌, ◌+◌, ◌*◌, ◌-◌, ◌++◌, [], ◌∷◌, IfSome, None, OnOk, codes, false, filter, length, not, slice_index_or};
ghost use Rattle.heap_model.specs.Blocks.{has_bounds};
ghost use Rattle.heap_reply.specs.ReplyText.{text_of_reply};
ghost use Rattle.json.specs.Token.{key, string};
ghost use Rattle.data_tokens.specs.Text.{command_text};
ghost use Rattle.data_tokens.specs.Blocks.{named_blocks_tokens};
ghost use Rattle.data_tokens.specs.Changes.{StayBut, registers_tokens};
ghost use Rattle.data_tokens.specs.Line.{with_tokens, list_tokens};
ghost use Rattle.data_tokens.specs.Spans.{spans_of};
ghost use Rattle.state_data.specs.States as states;
ghost use Rattle.state_data.specs.States.{head_tokens};
ghost use Rattle.state_data.specs.Recording.{HasOrder, changed_blocks_tokens, changed_granules_tokens, taken_tags_tokens, step_tokens};
ghost use Rattle.tag_memory.specs.Cells.{null_cell};

use crate::replies::{takes_tags, tells_pass, tells_registers};
use crate::snapshot::{Before, Snapshot};
use data_tokens::{
    DataLine, HeldBlock, put_block, put_blocks, put_granule, put_none_taken, put_register,
    put_registers, put_span, put_tags, put_taken, spell,
};
use heap_machine::Machine;
use heap_reply::{Reply, ShortText, put_reply};
use std::alloc::AllocError;
use tag_memory::{Memory, Registers};
use trace_text::Command;

fn put_spelled(line: &mut DataLine, command: Command) -> Result<(), AllocError>
    ensures { OnOk result (line.new ≡ with_tokens line.old (key (codes "text") ∷ string (command_text command) ∷ [])) }
{
    let mut text = ShortText::new();
    spell(&mut text, command);
    line.text("text", text.as_str())
}

fn put_answer(line: &mut DataLine, reply: Reply) -> Result<(), AllocError>
    ensures { OnOk result (line.new ≡ with_tokens line.old (key (codes "reply") ∷ string (text_of_reply reply) ∷ [])) }
{
    let mut text = ShortText::new();
    put_reply(&mut text, reply);
    line.text("reply", text.as_str())
}

fn put_head(
    line: &mut DataLine,
    number: u32,
    command: Command,
    reply: Reply,
) -> Result<(), AllocError>
    ensures { OnOk result (line.new ≡ with_tokens line.old (head_tokens number command reply)) }
{
    line.open()?;
    line.count("line", u64::from(number))?;
    put_spelled(line, command)?;
    put_answer(line, reply)
}

// All registers are compared where a pass looked at them, and else the one that the command may change.
fn put_changed_registers(
    line: &mut DataLine,
    snapshot: &Snapshot,
    before: Before,
    reply: Reply,
    registers: &Registers,
) -> Result<(), AllocError>
    requires within { before.register < 32 }
    requires stay { states.tells_registers reply ≡ false → StayBut before.register snapshot.now.registers registers.now }
    ensures { OnOk result (line.new ≡ with_tokens line.old (registers_tokens snapshot.now.registers registers.now)) }
{
    if tells_registers(reply) {
        return put_registers(line, &snapshot.registers, registers);
    }
    put_register(line, &snapshot.registers, registers, before.register)
}

fn put_register_part(
    line: &mut DataLine,
    snapshot: &Snapshot,
    before: Before,
    reply: Reply,
    registers: &Registers,
) -> Result<(), AllocError>
    requires within { before.register < 32 }
    requires stay { states.tells_registers reply ≡ false → StayBut before.register snapshot.now.registers registers.now }
    ensures { OnOk result (line.new ≡ with_tokens line.old (list_tokens (codes "registers") (registers_tokens snapshot.now.registers registers.now))) }
{
    line.open_list("registers")?;
    put_changed_registers(line, snapshot, before, reply, registers)?;
    line.close_list()
}

fn put_changed_tags(
    line: &mut DataLine,
    snapshot: &Snapshot,
    reply: Reply,
    memory: &Memory,
) -> Result<(), AllocError>
    requires { 64 * length snapshot.now.tags.items ≡ length memory.now.granules }
    ensures { OnOk result (line.new ≡ with_tokens line.old (changed_granules_tokens None reply snapshot.now.tags.items memory.now.granules)) }
{
    if !takes_tags(reply) {
        return Ok(());
    }
    put_tags(line, memory, &snapshot.tags)
}

fn put_changed_granules(
    line: &mut DataLine,
    snapshot: &Snapshot,
    before: Before,
    reply: Reply,
    memory: &Memory,
) -> Result<(), AllocError>
    requires tags { 64 * length snapshot.now.tags.items ≡ length memory.now.granules }
    requires inside { IfSome before.granule (λ at. at.0 < length memory.now.granules) }
    ensures { OnOk result (line.new ≡ with_tokens line.old (changed_granules_tokens before.granule reply snapshot.now.tags.items memory.now.granules)) }
{
    match before.granule {
        Some((i, (bits, tag))) => put_granule(line, memory, i, bits, tag),
        None => put_changed_tags(line, snapshot, reply, memory),
    }
}

fn put_granule_part(
    line: &mut DataLine,
    snapshot: &Snapshot,
    before: Before,
    reply: Reply,
    memory: &Memory,
) -> Result<(), AllocError>
    requires tags { 64 * length snapshot.now.tags.items ≡ length memory.now.granules }
    requires inside { IfSome before.granule (λ at. at.0 < length memory.now.granules) }
    ensures { OnOk result (line.new ≡ with_tokens line.old (list_tokens (codes "granules") (changed_granules_tokens before.granule reply snapshot.now.tags.items memory.now.granules))) }
{
    line.open_list("granules")?;
    put_changed_granules(line, snapshot, before, reply, memory)?;
    line.close_list()
}

// The blocks that ended, of those that were due: all but one with these bounds, which lives now.
fn put_ended(line: &mut DataLine, due: &[HeldBlock], base: u64, top: u128) -> Result<(), AllocError>
    ensures { OnOk result (line.new ≡ with_tokens line.old (named_blocks_tokens (codes "free") (filter (λ block. not (has_bounds base top block)) (spans_of due.now)))) }
{
    for block in due {
        if block.base != base || block.top() != top {
            put_block(line, "free", *block)?;
        }
    }
    Ok(())
}

fn put_block_after(
    line: &mut DataLine,
    due: &[HeldBlock],
    base: u64,
    top: u128,
) -> Result<(), AllocError>
    requires { base ≤ top }
    ensures { OnOk result (line.new ≡ with_tokens line.old (named_blocks_tokens (codes "free") (filter (λ block. not (has_bounds base top block)) (spans_of due.now))
        ++ named_blocks_tokens (codes "live") ((base, top - base) ∷ []))) }
{
    put_ended(line, due, base, top)?;
    put_span(line, "live", base, top)
}

fn put_changed_blocks(
    line: &mut DataLine,
    reply: Reply,
    due: &[HeldBlock],
    start: u64,
) -> Result<(), AllocError>
    requires { HasOrder reply }
    ensures { OnOk result (line.new ≡ with_tokens line.old (changed_blocks_tokens reply (spans_of due.now) start)) }
{
    match reply {
        Reply::Block { base, top } => put_span(line, "live", base, top),
        Reply::BlockAfter { base, top, .. } => put_block_after(line, due, base, top),
        Reply::NoSpaceAfter { .. } => put_blocks(line, "free", due),
        Reply::Swept { .. } => put_blocks(line, "free", due),
        Reply::Begun { .. } => put_blocks(line, "painted", due),
        Reply::Held(length) => {
            let block = HeldBlock {
                base: start,
                length,
            };
            put_block(line, "waiting", block)
        }
        Reply::NoSpace | Reply::Done | Reply::Cleared | Reply::Shown(_) | Reply::Trap(_) => Ok(()),
    }
}

fn put_block_part(
    line: &mut DataLine,
    reply: Reply,
    due: &[HeldBlock],
    start: u64,
) -> Result<(), AllocError>
    requires { HasOrder reply }
    ensures { OnOk result (line.new ≡ with_tokens line.old (list_tokens (codes "blocks") (changed_blocks_tokens reply (spans_of due.now) start))) }
{
    line.open_list("blocks")?;
    put_changed_blocks(line, reply, due, start)?;
    line.close_list()
}

fn put_pass(
    line: &mut DataLine,
    snapshot: &Snapshot,
    reply: Reply,
    memory: &Memory,
) -> Result<(), AllocError>
    requires zero { slice_index_or snapshot.now.registers 0 null_cell ≡ null_cell }
    requires tags { 64 * length snapshot.now.tags.items ≡ length memory.now.granules }
    ensures { OnOk result (line.new ≡ with_tokens line.old (taken_tags_tokens reply snapshot.now memory.now.granules)) }
{
    if !tells_pass(reply) {
        return Ok(());
    }
    if !takes_tags(reply) {
        return put_none_taken(line);
    }
    put_taken(
        line,
        tells_registers(reply),
        snapshot.due(),
        &snapshot.registers,
        memory,
        &snapshot.tags,
    )
}

/// The object of a command at this line, by what was seen before it, its reply, and the machine after it.
pub fn put_command(
    line: &mut DataLine,
    snapshot: &Snapshot,
    before: Before,
    machine: &Machine,
    told: (u32, Command, Reply),
) -> Result<(), AllocError>
    requires zero { slice_index_or snapshot.now.registers 0 null_cell ≡ null_cell }
    requires tags { 64 * length snapshot.now.tags.items ≡ length machine.now.state.granules }
    requires inside { IfSome before.granule (λ at. at.0 < length machine.now.state.granules) }
    requires order { HasOrder told.2 }
    requires within { before.register < 32 }
    requires stay { states.tells_registers told.2 ≡ false → StayBut before.register snapshot.now.registers machine.now.state.registers }
    ensures { OnOk result (line.new ≡ with_tokens line.old (step_tokens told.0 told.1 told.2 snapshot.now before machine.now.state.registers machine.now.state.granules)) }
{
    let (number, command, reply) = told;
    let memory = machine.memory();
    put_head(line, number, command, reply)?;
    put_register_part(line, snapshot, before, reply, machine.registers())?;
    put_granule_part(line, snapshot, before, reply, memory)?;
    put_block_part(line, reply, snapshot.due(), before.base)?;
    put_pass(line, snapshot, reply, memory)?;
    line.close()
}
