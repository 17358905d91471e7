//! The laws of runs: a trace has one outcome, and every run is safe.

ghost use Rattle.std.specs.Prelude.{◌≡◌, ℕ, All, List, Ok, true};
ghost use Rattle.trace_text.specs.declared.trace.Command.{Command as TheCommand};
ghost use Rattle.trace_text.specs.Reading.{Script};
ghost use Rattle.heap_reply.specs.declared.reply.Reply.{Reply as TheReply};
ghost use Rattle.machine_steps.specs.Safety.{FitsTypes};
ghost use Rattle.machine_steps.specs.State.{State, first_state};
ghost use Rattle.tag_memory.specs.Extent.{is_base, is_size};
ghost use Rattle.trace_report.specs.declared.outcome.Outcome.{Outcome as TheOutcome};
ghost use Rattle.trace_report.specs.Outcome.{HasOutcome, IsOutcome};
ghost use Rattle.trace_report.specs.Run.{IsSafeRun, Run};

use machine_steps::safe_reuse_law;

/// From each state commands have exactly one run, so a trace has one outcome at most. Every run from the
/// first state is safe.
pub fn one_run_law()
    ensures one { (first : State) (commands : List TheCommand) →
        (replies : List TheReply) × (last : State) × Run first commands replies last }
    ensures only { (first : State) (commands : List TheCommand) (replies others : List TheReply)
        (last left : State) → Run first commands replies last → Run first commands others left →
        (replies ≡ others) × (last ≡ left) }
    ensures safe { (base pages : ℕ) (commands : List TheCommand) (replies : List TheReply) (last : State)
        (run : Run (first_state base pages) commands replies last) → is_size pages ≡ true → is_base base pages ≡ true →
        All FitsTypes commands → IsSafeRun (first_state base pages) commands replies last run }
    ensures outcome { (script : Script) (a b : TheOutcome) → IsOutcome script a → IsOutcome script b →
        (a.report.items ≡ b.report.items) × (a.registers ≡ b.registers) × (a.memory.base ≡ b.memory.base) × (a.memory.granules ≡ b.memory.granules) }
    ensures answer { (text : List ℕ) (a b : TheOutcome) → HasOutcome text (Ok a) → HasOutcome text (Ok b) →
        (a.report.items ≡ b.report.items) × (a.registers ≡ b.registers) × (a.memory.base ≡ b.memory.base) × (a.memory.granules ≡ b.memory.granules) }
{
    safe_reuse_law();
}
