//! Whole texts, run by the calling thread alone.

ghost use Rattle.std.specs.Prelude.{◌≡◌, ◌≢◌, Err, IfOk};
ghost use Rattle.state_data.specs.States.{IsDataOf};
ghost use Rattle.trace_text.specs.Reading.{trace_of};
ghost use Rattle.trace_text.specs.declared.fault.TraceFault.{TraceFault as TheTraceFault};
ghost use Rattle.byte_machine.specs.Runs.{IsReportOf};

use heap_trace::{Outcome, RunFault, TraceFault, run_alone};
use host_memory::Global;
use state_data::states_alone;
use sweep_pool::Cutting;

/// The report of the trace that a text is. Nothing runs where the text is faulty. Want of memory is `RunFault::Memory`, also
/// while the text is read.
pub fn run_report(alloc: Global, text: &[u8]) -> Result<Vec<u8, Global>, RunFault>
    ensures report { IfOk result (λ report. IsReportOf text.now report.items) }
    ensures fault { (fault : TheTraceFault) → result ≡ Err (RunFault.Trace fault) → trace_of text.now ≡ Err fault }
    ensures memory { result ≢ Err (RunFault.Trace TraceFault.Memory) }
{
    match run_alone(alloc, text, Cutting::alone()) {
        Ok(outcome) => {
            let Outcome { report, .. } = outcome;
            Ok(report)
        }
        Err(fault) => Err(fault),
    }
}

/// The states of the trace that a text is, as data. Nothing runs where the text is faulty. Want of memory is
/// `RunFault::Memory`, also while the text is read.
pub fn run_states(alloc: Global, text: &[u8]) -> Result<Vec<u8, Global>, RunFault>
    ensures states { IfOk result (λ told. IsDataOf text.now told.items) }
    ensures fault { (fault : TheTraceFault) → result ≡ Err (RunFault.Trace fault) → trace_of text.now ≡ Err fault }
    ensures memory { result ≢ Err (RunFault.Trace TraceFault.Memory) }
{
    states_alone(alloc, text, Cutting::alone())
}
