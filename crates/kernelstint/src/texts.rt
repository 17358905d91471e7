//! Whole traces, from their text to a report or to states.

ghost use Rattle.std.specs.Prelude.{◌≡◌, ◌≢◌, length};
ghost use Rattle.byte_machine.specs.Runs.{IsReportOf};
ghost use Rattle.state_data.specs.States.{IsDataOf};
ghost use Rattle.kernelstint.specs.Calls.{IsFaulty, IsTooLong, IsWritten};
ghost use Rattle.kernelstint.specs.Codes.{bad_trace, done, no_memory, short_text};

use crate::codes::{BAD_TRACE, DONE, NO_MEMORY, SHORT_TEXT};
use byte_machine::{run_report, run_states};
use heap_trace::RunFault;
use host_memory::Global;
use trace_report::put_all;

/// Writes the report of the trace that a text is where a room begins, and how long it is; the length alone where the room is
/// shorter.
#[unsafe(no_mangle)]
pub extern "C" fn kernelstint_proved_run(
    alloc: Global,
    trace: &[u8],
    out: &mut [u8],
    count: &mut usize,
) -> u32
    ensures written { result ≡ done → IsWritten (IsReportOf trace.now) out.old out.new count.new }
    ensures short { result ≡ short_text → IsTooLong (IsReportOf trace.now) (length out.old) count.new }
    ensures fault { result ≡ bad_trace → IsFaulty trace.now }
    ensures still { result ≢ done → out.new ≡ out.old }
    ensures other { result ≢ done → result ≢ short_text → count.new ≡ count.old }
    ensures memory { result ≢ done → result ≢ short_text → result ≢ bad_trace → result ≡ no_memory }
{
    match run_report(alloc, trace) {
        Ok(report) => match put_all(&report, out) {
            Ok(length) => {
                *count = length;
                DONE
            }
            Err(length) => {
                *count = length;
                SHORT_TEXT
            }
        },
        Err(RunFault::Memory) => NO_MEMORY,
        Err(RunFault::Trace(_)) => BAD_TRACE,
    }
}

/// The same of the states of the trace that a text is, as data.
#[unsafe(no_mangle)]
pub extern "C" fn kernelstint_proved_states(
    alloc: Global,
    trace: &[u8],
    out: &mut [u8],
    count: &mut usize,
) -> u32
    ensures written { result ≡ done → IsWritten (IsDataOf trace.now) out.old out.new count.new }
    ensures short { result ≡ short_text → IsTooLong (IsDataOf trace.now) (length out.old) count.new }
    ensures fault { result ≡ bad_trace → IsFaulty trace.now }
    ensures still { result ≢ done → out.new ≡ out.old }
    ensures other { result ≢ done → result ≢ short_text → count.new ≡ count.old }
    ensures memory { result ≢ done → result ≢ short_text → result ≢ bad_trace → result ≡ no_memory }
{
    match run_states(alloc, trace) {
        Ok(states) => match put_all(&states, out) {
            Ok(length) => {
                *count = length;
                DONE
            }
            Err(length) => {
                *count = length;
                SHORT_TEXT
            }
        },
        Err(RunFault::Memory) => NO_MEMORY,
        Err(RunFault::Trace(_)) => BAD_TRACE,
    }
}
