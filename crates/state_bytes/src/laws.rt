//! The laws of texts, and of exact blocks.

ghost use Rattle.std.specs.Prelude.{◌≡◌, ℕ, length};
ghost use Rattle.machine_steps.specs.Follow.{Follows};
ghost use Rattle.heap_machine.specs.Storage.{MachineState};
ghost use Rattle.machine_steps.specs.Safety.{IsSafe};
ghost use Rattle.machine_steps.specs.State.{State, first_state};
ghost use Rattle.machine_steps.specs.Step.{Step};
ghost use Rattle.heap_reply.specs.declared.reply.Reply.{Reply};
ghost use Rattle.revoker_steps.specs.declared.command.RevokerCommand.{RevokerCommand};
ghost use Rattle.revoker_steps.specs.declared.command.RevokerReply.{RevokerReply};
ghost use Rattle.revoker_steps.specs.Revoker.{RevokerStep};
ghost use Rattle.trace_text.specs.declared.trace.Command.{Command};
ghost use Rattle.state_bytes.specs.State.{AreExact, IsSameState, HasInvariant};
ghost use Rattle.state_bytes.specs.Text.{text_length, text_of};

use heap_machine::any_placement_law;

/// Two machines have one text just where they have one state and the same dirty pages. How long a text is follows from
/// the number of pages.
pub fn one_text_law()
    ensures same { (m n : MachineState) → HasInvariant m → HasInvariant n → text_of m ≡ text_of n → IsSameState m n }
    ensures back { (m n : MachineState) → IsSameState m n → text_of m ≡ text_of n }
    ensures length { (m : MachineState) → HasInvariant m → length (text_of m) ≡ text_length (length m.dirty) }
{}

/// A capability can hold the bounds of each block of the first state, and of each state that a command leaves, whatever
/// it may be answered, or a revoker's step, where it can hold those of all blocks before.
pub fn exact_blocks_law()
    ensures first { (base pages : ℕ) → AreExact (first_state base pages).heap }
    ensures steps { (old : State) (command : Command) (reply : Reply) (new : State) →
        IsSafe old → AreExact old.heap → Step old command reply new → AreExact new.heap }
    ensures follows { (old : State) (command : Command) (reply : Reply) (new : State) →
        AreExact old.heap → Follows old command reply new → AreExact new.heap }
    ensures revoked { (old : State) (command : RevokerCommand) (reply : RevokerReply) (new : State) →
        AreExact old.heap → RevokerStep old command reply new → AreExact new.heap }
{
    any_placement_law();
}
