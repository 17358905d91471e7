//! Who runs traces.

ghost use Rattle.std.specs.Prelude.{◌≡◌, ◌≢◌, Err, IfOk};
ghost use Rattle.trace_text.specs.declared.fault.TraceFault.{TraceFault};
ghost use Rattle.trace_text.specs.Grammar.{IsFaulty, IsTrace};
ghost use Rattle.trace_text.specs.Reading.{Script};
ghost use Rattle.trace_report.specs.Outcome.{HasOutcome, IsOutcome};

use crate::outcome::{Outcome, RunFault};
use host_memory::Global;
use sweep_masks::Cutting;

/// Runs traces, so that what is above them is written once, and proved beside the machine.
pub trait Runner {
    /// What a call asks besides: of threads, that they may share the handle.
    ghost ready: { Type 0 };

    /// Runs a trace from its text to its report. Nothing runs where the text is faulty. Want of memory is
    /// `RunFault::Memory`, also while the text is read.
    fn run(&self, alloc: Global, text: &[u8], cutting: Cutting) -> Result<Outcome, RunFault>
        requires ready { ready }
        ensures answer { HasOutcome text.now result }
        // The same by the grammar.
        ensures trace { IfOk result (λ outcome. (script : Script) × IsTrace text.now script × IsOutcome script outcome) }
        ensures fault { (fault : TraceFault) → result ≡ Err (RunFault.Trace fault) → IsFaulty text.now fault }
        ensures memory { result ≢ Err (RunFault.Trace TraceFault.Memory) };
}
