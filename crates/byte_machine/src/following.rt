//! Answers that an allocator gave to commands, from bytes to bytes.

ghost use Rattle.std.specs.Prelude.{◌≡◌, ◌≢◌, ◌↔◌, IfErr, IfOk, OnErr, length};
ghost use Rattle.trace_text.specs.Command.{IsValid};
ghost use Rattle.byte_machine.specs.Calls.{IsJudged, IsUnreadable};
ghost use Rattle.byte_machine.specs.Judged.{IsJudgedBy};

use crate::fault::CallFault;
use crate::machines::machine_in;
use heap_machine::{Followed, Machine, Reply, Why};
use host_memory::Global;
use state_bytes::{encode_into, exact_blocks_law};
use sweep_pool::Open;
use trace_text::Command;

// What became of an answer: the machine after it, or why it isn't allowed.
#[derive(Drop)]
enum Judged {
    Agrees(Machine),
    Differs(Why),
}

// Judges an answer to a command in a state.
fn judge(alloc: Global, state: &[u8], command: Command, answer: Reply) -> Result<Judged, CallFault>
    requires { IsValid command }
    ensures judged { IfOk result (IsJudgedBy state.now command answer) }
    ensures fault { IfErr result (IsUnreadable state.now) }
{
    let mut machine = machine_in(alloc, state)?;
    match machine.follow_alone(alloc, command, answer, &Open) {
        Ok(Followed::Agrees) => Ok(Judged::Agrees(machine)),
        Ok(Followed::Differs(why)) => Ok(Judged::Differs(why)),
        Err(_) => Err(CallFault::Memory),
    }
}

/// Judges what an allocator answered to a command, which may place blocks as it likes, in the state that these bytes tell
/// of. Where the answer is allowed, the bytes of the state that it leaves are written into a room that is as long; else the
/// room stays as it is.
pub fn follow(
    alloc: Global,
    state: &[u8],
    command: Command,
    answer: Reply,
    out: &mut [u8],
) -> Result<Followed, CallFault>
    requires { IsValid command }
    ensures judged { IfOk result (λ followed. IsJudged state.now command answer followed out.old out.new) }
    ensures still { OnErr result (out.new ≡ out.old) }
    ensures room { (result ≡ Err CallFault.Room) ↔ (length out.old ≢ length state.now) }
    ensures fault { IfErr result (λ fault. fault ≢ CallFault.Room → IsUnreadable state.now fault) }
{
    exact_blocks_law();
    if out.len() != state.len() {
        return Err(CallFault::Room);
    }
    match judge(alloc, state, command, answer)? {
        Judged::Agrees(machine) => {
            encode_into(&machine, out);
            Ok(Followed::Agrees)
        }
        Judged::Differs(why) => Ok(Followed::Differs(why)),
    }
}
