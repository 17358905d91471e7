//! The machine, from the bytes of a state to those of the next.

ghost use Rattle.std.specs.Prelude.{◌≡◌, ◌≢◌, ◌↔◌, None, false, length, true};
ghost use Rattle.byte_machine.specs.Calls.{IsFirst, IsNotFirst, IsUnreadable};
ghost use Rattle.byte_machine.specs.LineCalls.{IsLineStep, IsNoLineStep};
ghost use Rattle.byte_machine.specs.Records.{IsRead, reply_of_record};
ghost use Rattle.state_bytes.specs.Text.{text_length};
ghost use Rattle.tag_memory.specs.Extent.{is_size};
ghost use Rattle.byte_machine.specs.Revoking.{IsRevoked, record_of_revoker_reply, revoker_of_record};
ghost use Rattle.revoker_steps.specs.declared.command.RevokerReply.{RevokerReply};
ghost use Rattle.revoker_steps.specs.Valid as revoker;
ghost use Rattle.kernelstint.specs.Calls.{HasFault, IsHostFollow, IsHostRefusal, IsHostStep, IsNoStep};
ghost use Rattle.kernelstint.specs.Codes.{bad_command, bad_reply, bad_room, differs, done};

use crate::codes::{BAD_COMMAND, BAD_REPLY, DIFFERS, DONE, code_of_fault};
use byte_machine::{
    CallFault, CommandRecord, ReplyRecord, WhyRecord, command_of, first, follow, reply_of,
    reply_record, revoke, revoker_command_of, revoker_reply_record, state_length, step, step_line,
    why_record,
};
use heap_machine::{Followed, RevokerCommand};
use host_memory::Global;

/// How many bytes a state of so many pages has: 0 where no heap has so many.
#[unsafe(no_mangle)]
pub extern "C" fn kernelstint_state_length(pages: u32) -> usize
    ensures length { is_size pages ≡ true → result ≡ text_length pages }
    ensures none { is_size pages ≡ false → result ≡ 0 }
{
    match state_length(pages) {
        Some(length) => length,
        None => 0,
    }
}

/// Writes the first state of a heap of so many pages at `base` into a room of its length.
#[unsafe(no_mangle)]
pub extern "C" fn kernelstint_proved_first(
    alloc: Global,
    base: u64,
    pages: u32,
    out: &mut [u8],
) -> u32
    ensures first { result ≡ done → IsFirst base pages out.new }
    ensures still { result ≢ done → out.new ≡ out.old }
    ensures fault { result ≢ done → HasFault (IsNotFirst base pages (length out.old)) result }
{
    match first(alloc, base, pages, out) {
        Ok(()) => DONE,
        Err(fault) => code_of_fault(fault),
    }
}

// Makes a revoker's step in the state that these bytes tell of.
fn revoke_told(
    alloc: Global,
    state: &[u8],
    command: RevokerCommand,
    out: &mut [u8],
    reply: &mut ReplyRecord,
) -> u32
    requires { revoker.IsValid command }
    ensures step { result ≡ done → (answer : RevokerReply) × (reply.new ≡ record_of_revoker_reply answer) × IsRevoked state.now command answer out.new }
    ensures still { result ≢ done → out.new ≡ out.old }
    ensures untold { result ≢ done → reply.new ≡ reply.old }
    ensures command { result ≢ bad_command }
    ensures room { result ≡ bad_room → length out.old ≢ length state.now }
    ensures measured { length out.old ≢ length state.now → result ≡ bad_room }
    ensures fits { result ≡ done → length out.old ≡ length state.now }
    ensures fault { result ≢ done → HasFault (λ fault. fault ≢ CallFault.Room → IsUnreadable state.now fault) result }
{
    match revoke(alloc, state, command, out) {
        Ok(told) => {
            *reply = revoker_reply_record(told);
            DONE
        }
        Err(fault) => code_of_fault(fault),
    }
}

/// Does the command of a record, or makes the revoker's step that it is, in the state that these bytes tell of, and writes the
/// bytes of the state that it leaves into a room that is as long, and the reply.
#[unsafe(no_mangle)]
pub extern "C" fn kernelstint_proved_step(
    alloc: Global,
    state: &[u8],
    command: CommandRecord,
    out: &mut [u8],
    reply: &mut ReplyRecord,
) -> u32
    ensures step { result ≡ done → IsHostStep state.now command reply.new out.new }
    ensures still { result ≢ done → out.new ≡ out.old }
    ensures untold { result ≢ done → reply.new ≡ reply.old }
    ensures command { (result ≡ bad_command) ↔ IsNoStep command }
    ensures room { result ≡ bad_room → length out.old ≢ length state.now }
    ensures measured { length out.old ≢ length state.now → result ≢ bad_command → result ≡ bad_room }
    ensures fits { result ≡ done → length out.old ≡ length state.now }
    ensures fault { result ≢ done → result ≢ bad_command → HasFault (λ fault. fault ≢ CallFault.Room → IsUnreadable state.now fault) result }
{
    if let Some(command) = revoker_command_of(command) {
        return revoke_told(alloc, state, command, out, reply);
    }
    let Some(command) = command_of(command) else {
        return BAD_COMMAND;
    };
    match step(alloc, state, command, out) {
        Ok(told) => {
            *reply = reply_record(told);
            DONE
        }
        Err(fault) => code_of_fault(fault),
    }
}

/// Judges what an allocator answered to a command in the state that these bytes tell of. Where the answer is allowed, the
/// bytes of the state that it leaves are written into a room that is as long; where it isn't, the reason.
#[unsafe(no_mangle)]
pub extern "C" fn kernelstint_proved_follow(
    alloc: Global,
    state: &[u8],
    command: CommandRecord,
    answer: ReplyRecord,
    out: &mut [u8],
    why: &mut WhyRecord,
) -> u32
    ensures allowed { result ≡ done → IsHostFollow state.now command answer out.new }
    ensures refused { result ≡ differs → IsHostRefusal state.now command answer why.new }
    ensures still { result ≢ done → out.new ≡ out.old }
    ensures untold { result ≢ differs → why.new ≡ why.old }
    ensures command { (result ≡ bad_command) ↔ IsRead command None }
    ensures reply { result ≢ bad_command → (result ≡ bad_reply) ↔ (reply_of_record answer ≡ None) }
    ensures room { result ≡ bad_room → length out.old ≢ length state.now }
    ensures measured { length out.old ≢ length state.now → result ≢ bad_command → result ≢ bad_reply → result ≡ bad_room }
    ensures fault { result ≢ done → result ≢ differs → result ≢ bad_command → result ≢ bad_reply
        → HasFault (λ fault. fault ≢ CallFault.Room → IsUnreadable state.now fault) result }
{
    let Some(command) = command_of(command) else {
        return BAD_COMMAND;
    };
    let Some(answer) = reply_of(answer) else {
        return BAD_REPLY;
    };
    match follow(alloc, state, command, answer, out) {
        Ok(Followed::Agrees) => DONE,
        Ok(Followed::Differs(reason)) => {
            *why = why_record(reason);
            DIFFERS
        }
        Err(fault) => code_of_fault(fault),
    }
}

/// Does the command of a line of a trace, without its line feed, and writes the text of the reply where `text` begins, which
/// has room for 200 bytes at least, and how many bytes that text has.
#[unsafe(no_mangle)]
pub extern "C" fn kernelstint_proved_step_line(
    alloc: Global,
    state: &[u8],
    line: &[u8],
    out: &mut [u8],
    text: &mut [u8],
    count: &mut usize,
) -> u32
    ensures step { result ≡ done → IsLineStep state.now line.now out.new text.old text.new count.new }
    ensures still { result ≢ done → out.new ≡ out.old }
    ensures untold { result ≢ done → text.new ≡ text.old }
    ensures count { result ≢ done → count.new ≡ count.old }
    ensures fault { result ≢ done → HasFault (IsNoLineStep state.now line.now (length out.old) (length text.old)) result }
{
    match step_line(alloc, state, line, out, text) {
        Ok(length) => {
            *count = length;
            DONE
        }
        Err(fault) => code_of_fault(fault),
    }
}
