//! The laws of commands: each has one reply and leaves one state, and from a safe state a safe one.

ghost use Rattle.std.specs.Prelude.{◌≡◌, ℕ, Bool, List, true};
ghost use Rattle.tag_memory.specs.Extent.{is_base, is_size};
ghost use Rattle.trace_text.specs.declared.trace.Command.{Command as TheCommand};
ghost use Rattle.heap_reply.specs.declared.reply.Reply.{Reply as TheReply};
ghost use Rattle.machine_steps.specs.Dirty.{HasPages, IsDirtied, dirty_after};
ghost use Rattle.machine_steps.specs.Follow.{Follows};
ghost use Rattle.machine_steps.specs.Safety.{FitsTypes, IsSafe, IsUnused, LeavesInUse};
ghost use Rattle.machine_steps.specs.State.{State, first_state};
ghost use Rattle.machine_steps.specs.Step.{Step};

use cap_codec::derivation_law;
use heap_model::sound_heap_law;

/// In each state a command has exactly one reply and leaves exactly one state. The first state is safe, and
/// from a safe state a command leaves a safe state, hands out only what is unused, and leaves after a sweep
/// only words in use (Filardo et al. 2020, Cornucopia: heap temporal safety). And where each tagged word of memory
/// whose base lies in a painted block stands in a dirty page, it is so after each command.
pub fn safe_reuse_law()
    ensures one { (old : State) (command : TheCommand) →
        (reply : TheReply) × (new : State) × Step old command reply new }
    ensures only { (old : State) (command : TheCommand) (reply other : TheReply) (new left : State) →
        Step old command reply new → Step old command other left → (reply ≡ other) × (new ≡ left) }
    ensures first { (base pages : ℕ) → is_size pages ≡ true → is_base base pages ≡ true →
        IsSafe (first_state base pages) }
    ensures safe { (old : State) (command : TheCommand) (reply : TheReply) (new : State) →
        IsSafe old → FitsTypes command → Step old command reply new → IsSafe new }
    ensures unused { (old : State) (command : TheCommand) (reply : TheReply) (new : State) →
        IsSafe old → Step old command reply new → IsUnused old command reply }
    ensures revoked { (old : State) (command : TheCommand) (reply : TheReply) (new : State) →
        IsSafe old → FitsTypes command → Step old command reply new → LeavesInUse command reply new }
    ensures dirtied { (old : State) (command : TheCommand) (reply : TheReply) (new : State) (dirty : List Bool) →
        HasPages old dirty → IsDirtied old dirty → Step old command reply new → IsDirtied new (dirty_after old command dirty) }
{
    any_placement_law();
}

/// What a command may be answered by an allocator that places blocks as it likes: each step is such an answer, and each
/// leaves one state. From a safe state such an answer leaves a safe state, hands out only what is unused, and leaves
/// after a sweep only words in use, and dirty pages as a step does.
pub fn any_placement_law()
    ensures steps { (old : State) (command : TheCommand) (reply : TheReply) (new : State) →
        IsSafe old → Step old command reply new → Follows old command reply new }
    ensures one { (old : State) (command : TheCommand) (reply : TheReply) (new left : State) →
        Follows old command reply new → Follows old command reply left → new ≡ left }
    ensures safe { (old : State) (command : TheCommand) (reply : TheReply) (new : State) →
        IsSafe old → FitsTypes command → Follows old command reply new → IsSafe new }
    ensures unused { (old : State) (command : TheCommand) (reply : TheReply) (new : State) →
        IsSafe old → Follows old command reply new → IsUnused old command reply }
    ensures revoked { (old : State) (command : TheCommand) (reply : TheReply) (new : State) →
        IsSafe old → FitsTypes command → Follows old command reply new → LeavesInUse command reply new }
    ensures dirtied { (old : State) (command : TheCommand) (reply : TheReply) (new : State) (dirty : List Bool) →
        HasPages old dirty → IsDirtied old dirty → Follows old command reply new → IsDirtied new (dirty_after old command dirty) }
{
    derivation_law();
    sound_heap_law();
}
