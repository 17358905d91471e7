//! Runs of whole traces.

ghost use Rattle.std.specs.Prelude.{◌≡◌, ◌≢◌, Err, IfOk};
ghost use Rattle.trace_text.specs.declared.fault.TraceFault.{TraceFault as TheTraceFault};
ghost use Rattle.trace_text.specs.Grammar.{IsFaulty, IsTrace};
ghost use Rattle.trace_text.specs.Reading.{Script};
ghost use Rattle.trace_report.specs.Outcome.{HasOutcome, IsOutcome};

use heap_machine::{Alone, Workers};
use host_memory::Global;
use std::thread::Threads;
use sweep_pool::Cutting;
use trace_report::{Outcome, RunFault, Runner};
use trace_text::TraceFault;

/// Runs a trace from its text to its report. Nothing runs where the text is faulty. Want of memory is
/// `RunFault::Memory`, also while the text is read.
pub fn run<R: Threads + Sync>(
    rt: &R,
    alloc: Global,
    text: &[u8],
    cutting: Cutting,
) -> Result<Outcome, RunFault>
    ensures answer { HasOutcome text.now result }
    // The same by the grammar.
    ensures trace { IfOk result (λ outcome. (script : Script) × IsTrace text.now script × IsOutcome script outcome) }
    ensures fault { (fault : TheTraceFault) → result ≡ Err (RunFault.Trace fault) → IsFaulty text.now fault }
    ensures memory { result ≢ Err (RunFault.Trace TraceFault.Memory) }
{
    Workers { rt }.run(alloc, text, cutting)
}

/// Runs a trace as `run` does, by the calling thread alone, so without a runtime.
///
/// ```rust
/// use heap_trace::run_alone;
/// use sweep_pool::Cutting;
///
/// let text = b"heap 0x40000000 1\nmalloc c1 20\n";
/// let outcome = run_alone(alloc, text, Cutting::new(1, 16)?)?;
/// let report = b"2 malloc block 0x40000000 0x40000020\nend live 32 held 0 free 4064 tags 1\n";
/// assert_eq!(rt; outcome.report.as_slice(), report.as_slice());
/// ```
pub fn run_alone(alloc: Global, text: &[u8], cutting: Cutting) -> Result<Outcome, RunFault>
    ensures answer { HasOutcome text.now result }
    // The same by the grammar.
    ensures trace { IfOk result (λ outcome. (script : Script) × IsTrace text.now script × IsOutcome script outcome) }
    ensures fault { (fault : TheTraceFault) → result ≡ Err (RunFault.Trace fault) → IsFaulty text.now fault }
    ensures memory { result ≢ Err (RunFault.Trace TraceFault.Memory) }
{
    Alone.run(alloc, text, cutting)
}
