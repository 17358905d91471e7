//! What is answered for a text, with what the words ask for.

ghost use Rattle.std.specs.Prelude.{◌≡◌, IfErr, IfOk};
ghost use Rattle.command_line.specs.Asked.{AreWithinLimits};
ghost use Rattle.log_answer.specs.Answer.{IsLogAnswer};

use command_line::{Options, Refusal};
use heap_machine::Workers;
use host_memory::Global;
use log_answer::log_answer;
use program_devices::{Answer, cutting_of};
use std::alloc::AllocError;
use std::thread::Threads;

/// The answer for the text of a log, or the line of its fault.
pub fn check_answer<R: Threads + Sync>(
    rt: &R,
    alloc: Global,
    text: &[u8],
    options: Options,
) -> Result<Answer, Refusal>
    requires limits { AreWithinLimits options }
    ensures ok { IfOk result (λ answer. IsLogAnswer text.now answer.status answer.text.items) }
    ensures memory { IfErr result (λ refusal. refusal ≡ Refusal.Memory) }
{
    match log_answer(&Workers { rt }, alloc, text, cutting_of(options)) {
        Ok(answer) => Ok(Answer {
            status: answer.status,
            text: answer.text,
        }),
        Err(AllocError) => Err(Refusal::Memory),
    }
}
