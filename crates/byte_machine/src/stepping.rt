//! The first state, and commands, from bytes to bytes.

ghost use Rattle.std.specs.Prelude.{◌≡◌, ◌≢◌, ◌↔◌, IfErr, IfOk, MatchOption, OnErr, OnOk, Some, None, false, length, true};
ghost use Rattle.machine_steps.specs.Follow.{Follows};
ghost use Rattle.heap_reply.specs.declared.reply.Reply.{Reply};
ghost use Rattle.machine_steps.specs.Step.{Step};
ghost use Rattle.state_bytes.specs.State.{HasInvariant};
ghost use Rattle.state_bytes.specs.Text as text;
ghost use Rattle.tag_memory.specs.Extent as extent;
ghost use Rattle.trace_text.specs.Command.{IsValid};
ghost use Rattle.byte_machine.specs.Calls as calls;
ghost use Rattle.byte_machine.specs.Calls.{IsFirst, IsJudged, IsNotFirst, IsStep, IsUnreadable, LeadsTo};

use crate::fault::CallFault;
use crate::machines::machine_in;
use heap_machine::{Followed, Machine, Reply};
use host_memory::Global;
use state_bytes::{encode_into, encode_registers_into, exact_blocks_law, text_length};
use sweep_pool::{Cutting, Open};
use tag_memory::{is_base, is_size};
use trace_text::Command;

/// How many bytes a state of so many pages has; nothing where no heap has so many.
pub fn state_length(pages: u32) -> Option<usize>
    ensures { MatchOption result (extent.is_size pages ≡ false) (λ length. (extent.is_size pages ≡ true) × (length ≡ text.text_length pages)) }
{
    if is_size(u64::from(pages)) {
        Some(text_length(pages))
    } else {
        None
    }
}

/// Writes the first state of a heap of so many pages at `base` into a room of its length.
pub fn first(alloc: Global, base: u64, pages: u32, out: &mut [u8]) -> Result<(), CallFault>
    ensures first { OnOk result (IsFirst base pages out.new) }
    ensures still { OnErr result (out.new ≡ out.old) }
    ensures fault { IfErr result (IsNotFirst base pages (length out.old)) }
{
    exact_blocks_law();
    let Some(length) = state_length(pages) else {
        return Err(CallFault::BadSize);
    };
    if !is_base(base, u64::from(pages)) {
        return Err(CallFault::BadBase);
    }
    if out.len() != length {
        return Err(CallFault::Room);
    }
    let Ok(machine) = Machine::new(alloc, base, pages, Cutting::alone()) else {
        return Err(CallFault::Memory);
    };
    encode_into(&machine, out);
    Ok(())
}

// The machine after a step from a state, and the reply.
fn step_from(alloc: Global, state: &[u8], command: Command) -> Result<(Machine, Reply), CallFault>
    requires { IsValid command }
    ensures leads { IfOk result (λ done. LeadsTo Step state.now command done.1 done.0) }
    ensures room { IfOk result (λ done. text.text_length (length done.0.dirty) ≡ length state.now) }
    ensures fault { IfErr result (IsUnreadable state.now) }
{
    let mut machine = machine_in(alloc, state)?;
    let Ok(reply) = machine.step_alone(alloc, command, &Open) else {
        return Err(CallFault::Memory);
    };
    Ok((machine, reply))
}

// Whether a command changes registers alone, whatever it is answered.
fn is_of_registers(command: Command) -> bool
    ensures { result ≡ calls.is_of_registers command }
{
    match command {
        Command::Copy { .. } => true,
        Command::SetAddr { .. } => true,
        Command::Narrow { .. } => true,
        Command::AndPerm { .. } => true,
        Command::LoadCap { .. } => true,
        Command::Show { .. } => true,
        _ => false,
    }
}

// Writes the bytes of the machine that a command left: those of the state before with its registers, where it changes no more.
fn put_after(after: &Machine, state: &[u8], command: Command, out: &mut [u8])
    requires room { length out.old ≡ length state.now }
    requires after_room { text.text_length (length after.now.dirty) ≡ length state.now }
    ensures text { (reply : Reply) → LeadsTo Step state.now command reply after.now → out.new ≡ text.text_of after.now }
    ensures invariant { HasInvariant after.now }
{
    if !is_of_registers(command) {
        encode_into(after, out);
        return;
    }
    out.copy_from_slice(state);
    encode_registers_into(after, out);
}

/// Does a command in the state that these bytes tell of, and writes the bytes of the state that it leaves into a room that
/// is as long.
pub fn step(
    alloc: Global,
    state: &[u8],
    command: Command,
    out: &mut [u8],
) -> Result<Reply, CallFault>
    requires { IsValid command }
    ensures step { IfOk result (λ reply. IsStep state.now command reply out.new) }
    ensures still { OnErr result (out.new ≡ out.old) }
    ensures room { (result ≡ Err CallFault.Room) ↔ (length out.old ≢ length state.now) }
    ensures fault { IfErr result (λ fault. fault ≢ CallFault.Room → IsUnreadable state.now fault) }
{
    exact_blocks_law();
    if out.len() != state.len() {
        return Err(CallFault::Room);
    }
    let (after, reply) = step_from(alloc, state, command)?;
    put_after(&after, state, command, out);
    Ok(reply)
}
