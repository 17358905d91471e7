//! What a revoker does, told one act after another.

ghost use Rattle.std.specs.Prelude.{◌≡◌, ◌++◌, ◌∷◌, []};
ghost use Rattle.revokers.specs.Acts.{HasRoom, Tells};

use heap_machine::{RevokerCommand, RevokerReply};
use host_memory::Global;

/// Something that a revoker did of its own, and what that was answered. That it found nothing to take in a register isn't told.
#[derive(Clone, Copy, Debug, PartialEq, Eq)]
pub struct Act {
    pub command: RevokerCommand,
    pub reply: RevokerReply,
}

/// The most acts that one call tells: a visit of each of 1,024 pages, an untag of each of 32 registers, and `paint` or
/// `release`.
pub const MOST_ACTS: usize = 1_057;

// Tells one more.
pub(crate) fn tell(acts: &mut Vec<Act, Global>, command: RevokerCommand, reply: RevokerReply)
    requires { HasRoom 1 acts.old }
    ensures items { acts.new.items ≡ acts.old.items ++ record { command = command; reply = reply } ∷ [] }
    ensures room { Tells 1 acts.old acts.new }
{
    acts.push_reserved(Act { command, reply });
}
