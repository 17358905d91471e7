//! What is answered for a trace.

ghost use Rattle.std.specs.Prelude.{◌≡◌, ◌++◌, IfErr, IfOk};
ghost use Rattle.command_line.specs.Asked.{AreWithinLimits};
ghost use Rattle.heap_command.specs.Answer.{IsRunAnswer, image_shown};
ghost use Rattle.trace_report.specs.Image.{image_of};

use command_line::{Options, Refusal};
use heap_trace::{Outcome, RunFault, image_text, run};
use host_memory::Global;
use program_devices::{Answer, cutting_of, fault_answer};
use std::thread::Threads;

/// The report of the trace that this text is, and the image if asked for, or the line of its fault.
pub fn run_answer<R: Threads + Sync>(
    rt: &R,
    alloc: Global,
    text: &[u8],
    options: Options,
) -> Result<Answer, Refusal>
    requires limits { AreWithinLimits options }
    ensures ok { IfOk result (λ answer. IsRunAnswer text.now options answer.status answer.text.items) }
    ensures err { IfErr result (λ refusal. refusal ≡ Refusal.Memory) }
{
    match run(rt, alloc, text, cutting_of(options)) {
        Ok(outcome) => outcome_answer(alloc, outcome, options),
        Err(RunFault::Memory) => Err(Refusal::Memory),
        Err(RunFault::Trace(fault)) => fault_answer(alloc, &fault),
    }
}

// The report that a run leaves, and the image after it if asked for.
fn outcome_answer(alloc: Global, outcome: Outcome, options: Options) -> Result<Answer, Refusal>
    ensures ok { IfOk result (λ answer. (answer.status ≡ 0)
        × (answer.text.items ≡ outcome.report.items ++ image_shown options (image_of outcome.memory.base outcome.memory.granules))) }
    ensures err { IfErr result (λ refusal. refusal ≡ Refusal.Memory) }
{
    let mut text = outcome.report;
    if options.image {
        let Ok(image) = image_text(alloc, &outcome.memory) else {
            return Err(Refusal::Memory);
        };
        let Ok(()) = text.extend_from_slice(&image) else {
            return Err(Refusal::Memory);
        };
    }
    Ok(Answer { status: 0, text })
}
