//! What is wrong with texts that are no traces, and lines that are no commands.

ghost use Rattle.std.specs.Prelude.{◌≡◌, ◌≢◌, true};
ghost use Rattle.kernelstint.specs.Calls.{HasFaultOfLine, HasFaultOfText, IsCommandLine, IsTraceText};
ghost use Rattle.kernelstint.specs.Codes.{bad_line, bad_trace, done, no_memory, passed_over};
ghost use Rattle.trace_text.specs.Lines.{is_passed_over, words_of};

use crate::codes::{BAD_LINE, BAD_TRACE, DONE, NO_MEMORY, PASSED_OVER};
use byte_machine::{CallFault, FaultRecord, command_in, fault_record};
use host_memory::Global;
use trace_text::{TraceFault, parse};

/// Writes the first fault of a text that is no trace.
#[unsafe(no_mangle)]
pub extern "C" fn kernelstint_proved_trace_fault(
    alloc: Global,
    trace: &[u8],
    told: &mut FaultRecord,
) -> u32
    ensures trace { result ≡ done → IsTraceText trace.now }
    ensures fault { result ≡ bad_trace → HasFaultOfText trace.now told.new }
    ensures still { result ≢ bad_trace → told.new ≡ told.old }
    ensures memory { result ≢ done → result ≢ bad_trace → result ≡ no_memory }
{
    match parse(alloc, trace) {
        Ok(_) => DONE,
        Err(TraceFault::Memory) => NO_MEMORY,
        Err(fault) => {
            *told = fault_record(&fault);
            BAD_TRACE
        }
    }
}

/// Writes what is wrong with a line that is no command, as with line 1 of a text.
#[unsafe(no_mangle)]
pub extern "C" fn kernelstint_proved_line_fault(line: &[u8], told: &mut FaultRecord) -> u32
    ensures command { result ≡ done → IsCommandLine line.now }
    ensures passed_over { result ≡ passed_over → is_passed_over (words_of line.now) ≡ true }
    ensures fault { result ≡ bad_line → HasFaultOfLine line.now told.new }
    ensures still { result ≢ bad_line → told.new ≡ told.old }
    ensures code { result ≢ done → result ≢ passed_over → result ≡ bad_line }
{
    match command_in(line) {
        Ok(_) => DONE,
        Err(CallFault::Line(fault)) => {
            *told = fault_record(&fault.at_line(1));
            BAD_LINE
        }
        Err(_) => PASSED_OVER,
    }
}
