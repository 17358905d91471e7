//! The laws of logs.

ghost use Rattle.std.specs.Prelude.{◌≡◌, ℕ, All, List};
ghost use Rattle.log_text.specs.declared.log.Event.{Event as TheEvent};
ghost use Rattle.machine_steps.specs.Safety.{IsSafe};
ghost use Rattle.machine_steps.specs.State.{State};
ghost use Rattle.heap_log.specs.declared.verdict.Difference.{Difference as TheDifference};
ghost use Rattle.heap_log.specs.Judged.{AllFollow, DiffersAt, FitsListed, HandOutUnused};

use heap_machine::any_placement_law;
use revoker_steps::revoker_law;

/// A log's events leave one last state at most, and none where one of them differs. Where they all follow from a safe
/// state, each state on the way is safe, and what a command hands out is unused in the state before it: no register
/// and no granule is tagged then and has its base in the block that a malloc was answered with.
pub fn safe_log_law()
    ensures one { (first : State) (events : List (ℕ × TheEvent)) (last left : State) →
        AllFollow first events last → AllFollow first events left → last ≡ left }
    ensures never { (first : State) (events : List (ℕ × TheEvent)) (line count : ℕ) (difference : TheDifference) (mid last : State) →
        DiffersAt first events line count difference mid → AllFollow first events last → ⊥ }
    ensures safe { (first : State) (events : List (ℕ × TheEvent)) (last : State) →
        IsSafe first → All FitsListed events → AllFollow first events last → IsSafe last }
    ensures unused { (first : State) (events : List (ℕ × TheEvent)) (last : State) →
        IsSafe first → All FitsListed events → AllFollow first events last → HandOutUnused first events }
{
    any_placement_law();
    revoker_law();
}
