//! Commands as lines of a trace, and replies as text.

ghost use Rattle.std.specs.Prelude.{◌≡◌, ◌≤◌, ◌<◌, ◌↔◌, ◌++◌, IfErr, IfOk, OnErr, drop, length};
ghost use Rattle.heap_reply.specs.ReplyText.{text_of_reply};
ghost use Rattle.trace_text.specs.Command.{IsValid};
ghost use Rattle.byte_machine.specs.LineCalls.{IsCommandOf, IsLineStep, IsNoCommand, IsNoLineStep};

use crate::fault::CallFault;
use crate::stepping::step;
use heap_reply::{Reply, ShortText, put_reply};
use host_memory::Global;
use trace_text::{Command, Line, command, split_name};

/// The most bytes that the text of a reply has.
pub const LONGEST_REPLY: usize = 200;

/// The command of a line of a trace, without its line feed; or that it is passed over, or what is wrong with it.
pub fn command_in(line: &[u8]) -> Result<Command, CallFault>
    ensures command { IfOk result (IsCommandOf line.now) }
    ensures valid { IfOk result IsValid }
    ensures fault { IfErr result (IsNoCommand line.now) }
{
    let line = Line::of_bytes(line);
    let Some((name, operands)) = split_name(&line) else {
        return Err(CallFault::PassedOver);
    };
    match command(name, &operands) {
        Ok(command) => Ok(command),
        Err(fault) => Err(CallFault::Line(fault)),
    }
}

// Writes the text of a reply where a text begins; the answer is how many bytes it has.
fn put_answer(reply: Reply, text: &mut [u8]) -> usize
    requires { 200 ≤ length text.old }
    ensures count { result ≡ length (text_of_reply reply) }
    ensures text { text.new ≡ text_of_reply reply ++ drop (length (text_of_reply reply)) text.old }
{
    let mut line = ShortText::new();
    put_reply(&mut line, reply);
    let bytes = line.as_bytes();
    text[..bytes.len()].copy_from_slice(bytes);
    bytes.len()
}

/// Does the command of a line of a trace, without its line feed, as `step` does, and writes the text of the reply, as a
/// report has it, where `text` begins, which has room for 200 bytes at least. The answer is how many bytes that text has.
/// The line is read before the state, and that after the room for it was measured.
pub fn step_line(
    alloc: Global,
    state: &[u8],
    line: &[u8],
    out: &mut [u8],
    text: &mut [u8],
) -> Result<usize, CallFault>
    ensures step { IfOk result (IsLineStep state.now line.now out.new text.old text.new) }
    ensures still { OnErr result (out.new ≡ out.old) }
    ensures untold { OnErr result (text.new ≡ text.old) }
    ensures text { (result ≡ Err CallFault.TextRoom) ↔ (length text.old < 200) }
    ensures fault { IfErr result (IsNoLineStep state.now line.now (length out.old) (length text.old)) }
{
    if text.len() < LONGEST_REPLY {
        return Err(CallFault::TextRoom);
    }
    let command = command_in(line)?;
    let reply = step(alloc, state, command, out)?;
    Ok(put_answer(reply, text))
}
