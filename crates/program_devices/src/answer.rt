//! What a program answers: its exit status, and what it writes with it.

ghost use Rattle.std.specs.Prelude.{◌≡◌, ◌≢◌, ◌↔◌, IfErr, IfOk, string_bytes, true, false};
ghost use Rattle.std.specs.Io.KnownBytes.{Appends};
ghost use Rattle.trace_text.specs.Fault.{line_of_fault};
ghost use Rattle.program_devices.specs.Answer.{refusal_line, refusal_status, status_of, text_of};
ghost use Rattle.program_devices.specs.Device.{AppendsBeginning};

use crate::devices::{Failed, Sink, send};
use command_line::Refusal;
use host_memory::Global;
use std::alloc::AllocError;
use trace_text::{TraceFault, fault_line};

const MEMORY: &[u8] = b"fault memory\n";

/// What is written, and the exit status that goes with it: 0 where it is done, 3 where the trace is faulty.
#[derive(Drop)]
pub struct Answer {
    pub status: u8,
    pub text: Vec<u8, Global>,
}

/// Writes what was answered, and answers its status, or 4 where a write failed. `usage` is the line of a program whose words
/// are refused.
pub fn give<O: Sink>(writer: &mut O, answered: Result<Answer, Refusal>, usage: &[u8]) -> u8
    requires writer { O.failed writer.old ≡ false }
    requires status { IfOk answered (λ answer. answer.status ≢ 4) }
    ensures complete { result ≢ 4 → (result ≡ status_of answered) × Appends (O.contents writer.old) (O.contents writer.new) (text_of usage.now answered) }
    ensures part { result ≡ 4 → AppendsBeginning (O.contents writer.old) (O.contents writer.new) (text_of usage.now answered) }
    ensures failed { (result ≡ 4) ↔ (O.failed writer.new ≡ true) }
{
    match answered {
        Ok(answer) => finish(writer, &answer.text, answer.status),
        Err(refusal) => refuse(writer, refusal, usage),
    }
}

/// Writes the line of a refusal, and answers its status, 1 for want of memory and 2 where the words are refused, or 4 where
/// a write failed.
pub fn refuse<O: Sink>(writer: &mut O, refusal: Refusal, usage: &[u8]) -> u8
    requires { O.failed writer.old ≡ false }
    ensures complete { result ≢ 4 → (result ≡ refusal_status refusal) × Appends (O.contents writer.old) (O.contents writer.new) (refusal_line usage.now refusal) }
    ensures part { result ≡ 4 → AppendsBeginning (O.contents writer.old) (O.contents writer.new) (refusal_line usage.now refusal) }
    ensures failed { (result ≡ 4) ↔ (O.failed writer.new ≡ true) }
{
    match refusal {
        Refusal::Memory => finish(writer, MEMORY, 1),
        Refusal::Words => finish(writer, usage, 2),
    }
}

// Writes the text, and answers the status, or 4 where a write failed.
fn finish<O: Sink>(writer: &mut O, text: &[u8], status: u8) -> u8
    requires writer { O.failed writer.old ≡ false }
    requires status { status ≢ 4 }
    ensures complete { result ≢ 4 → (result ≡ status) × Appends (O.contents writer.old) (O.contents writer.new) text.now }
    ensures part { result ≡ 4 → AppendsBeginning (O.contents writer.old) (O.contents writer.new) text.now }
    ensures failed { (result ≡ 4) ↔ (O.failed writer.new ≡ true) }
{
    match send(writer, text) {
        Ok(()) => status,
        Err(Failed) => 4,
    }
}

/// The answer for a text that is no trace: status 3 and the line of its fault.
pub fn fault_answer(alloc: Global, fault: &TraceFault) -> Result<Answer, Refusal>
    ensures ok { IfOk result (λ answer. (answer.status ≡ 3) × (answer.text.items ≡ line_of_fault fault.now)) }
    ensures err { IfErr result (λ refusal. refusal ≡ Refusal.Memory) }
{
    match fault_line(alloc, fault) {
        Ok(line) => Ok(Answer {
            status: 3,
            text: line.into_bytes(),
        }),
        Err(AllocError) => Err(Refusal::Memory),
    }
}
