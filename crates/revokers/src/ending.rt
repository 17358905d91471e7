//! How an epoch ends: registers lose their tags, and the painted blocks are released.

ghost use Rattle.std.specs.Prelude.{◌≡◌, ◌<◌, ◌≤◌, ◌*◌, ◌^◌, ◌++◌, ◌∷◌, [], true};
ghost use Rattle.tag_memory.specs.Cells.{register_count};
ghost use Rattle.machine_steps.specs.Safety.{IsSafe};
ghost use Rattle.revoker_steps.specs.declared.command.RevokerCommand.TheVariants.{Release, UntagRegister};
ghost use Rattle.revoker_steps.specs.declared.command.RevokerReply.{RevokerReply as TheRevokerReply};
ghost use Rattle.revoker_steps.specs.declared.command.RevokerReply.TheVariants.{Released};
ghost use Rattle.revoker_steps.specs.Events.{cleared_by};
ghost use Rattle.revoker_steps.specs.Revoker.{RevokerStep};
ghost use Rattle.revokers.specs.Acts.{HasRoom, Tells, untag_act};
ghost use Rattle.revokers.specs.Ending.{HasUntagged, IsUntagged, MayRelease, Untags};
ghost use Rattle.revokers.specs.Replies.{released_by};

use crate::acts::{Act, tell};
use heap_machine::{Machine, RevokerCommand, RevokerReply};
use host_memory::Global;
use revoker_steps::revoker_law;
use tag_memory::REGISTERS;

/// What the end of an epoch came to.
#[derive(Clone, Copy, Debug, PartialEq, Eq)]
pub struct Finished {
    /// How many tags it took.
    pub cleared: u64,
    /// How many bytes are free again.
    pub bytes: u64,
}

// How many tags a reply says were taken.
pub(crate) fn cleared_of(reply: RevokerReply) -> u32
    ensures value { result ≡ cleared_by reply }
    ensures few { result < 2 ^ 32 }
{
    match reply {
        RevokerReply::Cleared { cleared } => cleared,
        _ => 0,
    }
}

// How many bytes it says are free again.
fn released_of(reply: RevokerReply) -> u64
    ensures { result ≡ released_by reply }
{
    match reply {
        RevokerReply::Released { bytes } => bytes,
        _ => 0,
    }
}

// Tells of an untag of a register, where it took the tag.
fn tell_untag(acts: &mut Vec<Act, Global>, register: u8, reply: RevokerReply)
    requires { HasRoom 1 acts.old }
    ensures told { acts.new.items ≡ acts.old.items ++ untag_act register reply }
    ensures room { Tells 1 acts.old acts.new }
{
    if matches!(reply, RevokerReply::Cleared { cleared: 0 }) {
        return;
    }
    tell(acts, RevokerCommand::UntagRegister { register }, reply);
}

// Takes the tag of a register, if its word's base lies in a painted block; answers how many tags that are.
fn untag_register(machine: &mut Machine, register: u8, acts: &mut Vec<Act, Global>) -> u64
    requires register { register < register_count }
    requires room { HasRoom 1 acts.old }
    ensures step { IsUntagged register machine.old.state acts.old.items result machine.new.state acts.new.items }
    ensures room { Tells 1 acts.old acts.new }
    ensures dirty { machine.new.dirty ≡ machine.old.dirty }
    ensures cutting { machine.new.cutting ≡ machine.old.cutting }
    ensures few { result < 2 ^ 32 }
{
    let command = RevokerCommand::UntagRegister { register };
    let reply = machine.revoke(command);
    let cleared = cleared_of(reply);
    tell_untag(acts, register, reply);
    u64::from(cleared)
}

// Takes those of all registers.
pub(crate) fn untag_registers(machine: &mut Machine, acts: &mut Vec<Act, Global>) -> u64
    requires open { machine.old.state.heap.is_open ≡ true }
    requires room { HasRoom 32 acts.old }
    ensures untags { Untags machine.old.state acts.old.items result machine.new.state acts.new.items }
    ensures room { Tells 32 acts.old acts.new }
    ensures untagged { HasUntagged machine.new.state }
    ensures open { machine.new.state.heap.is_open ≡ true }
    ensures dirty { machine.new.dirty ≡ machine.old.dirty }
    ensures cutting { machine.new.cutting ≡ machine.old.cutting }
    ensures few { result ≤ 32 * 2 ^ 32 }
{
    machine.invariant();
    let mut cleared = 0;
    for register in 0..REGISTERS {
        cleared += untag_register(machine, register, acts);
    }
    cleared
}

// Frees the painted blocks, into which no tagged word points any more; answers how many bytes.
pub(crate) fn release(machine: &mut Machine, acts: &mut Vec<Act, Global>) -> u64
    requires may { MayRelease machine.old.state }
    requires room { HasRoom 1 acts.old }
    ensures step { RevokerStep machine.old.state Release (Released result) machine.new.state }
    ensures told { acts.new.items ≡ acts.old.items ++ record { command = Release; reply = Released result } ∷ [] }
    ensures cutting { machine.new.cutting ≡ machine.old.cutting }
    ensures room { Tells 1 acts.old acts.new }
{
    revoker_law();
    let reply = machine.revoke(RevokerCommand::Release);
    tell(acts, RevokerCommand::Release, reply);
    released_of(reply)
}
