//! A revoker's own steps, from bytes to bytes.

ghost use Rattle.std.specs.Prelude.{◌≡◌, ◌≢◌, ◌↔◌, ◌^◌, Err, IfErr, IfOk, IfSome, OnErr, length, nat_lt};
ghost use Rattle.tag_memory.specs.Cells.{register_count};
ghost use Rattle.revoker_steps.specs.declared.command.RevokerCommand.TheVariants.{UntagRegister, Visit};
ghost use Rattle.revoker_steps.specs.declared.command.RevokerReply.TheVariants as reply;
ghost use Rattle.revoker_steps.specs.Valid.{IsValid};
ghost use Rattle.byte_machine.specs.Calls.{IsUnreadable};
ghost use Rattle.byte_machine.specs.Records as records;
ghost use Rattle.byte_machine.specs.Revoking as revoking;
ghost use Rattle.byte_machine.specs.Revoking.{IsRevoked, revoker_of_record};

use crate::commands::CommandRecord;
use crate::fault::CallFault;
use crate::machines::machine_in;
use crate::replies::{ReplyRecord, bare, with_bytes, with_cleared};
use host_memory::Global;
use revoker_steps::{RevokerCommand, RevokerReply, RevokerTrap};
use state_bytes::{encode_into, exact_blocks_law};
use tag_memory::REGISTERS;

// The visit of a page, where its number has 32 bits.
fn visit_from(number: u64) -> Option<RevokerCommand>
    ensures { result ≡ records.where_true (nat_lt number (2 ^ 32)) (Visit number) }
{
    if number < 1 << 32 {
        Some(RevokerCommand::Visit {
            page: number as u32,
        })
    } else {
        None
    }
}

// What takes the tag of a register, where there is one of this number.
fn untag_from(register: u8) -> Option<RevokerCommand>
    ensures { result ≡ records.where_true (nat_lt register register_count) (UntagRegister register) }
{
    if register < REGISTERS {
        Some(RevokerCommand::UntagRegister { register })
    } else {
        None
    }
}

/// The revoker's command of a record. Kinds go on behind those of commands: 13 is paint, 14 the visit of the page `number`, 15
/// the untag of the granule at the address `number`, 16 that of the register `first`, and 17 release. None for another kind, for a
/// page of 2^32 or more and for a register of 32 or more; what a kind doesn't use isn't looked at.
#[tactic(auto, unfolding(crate::specs::Revoking::revoker_of_record))]
pub fn revoker_command_of(given: CommandRecord) -> Option<RevokerCommand>
    ensures value { result ≡ revoker_of_record given }
    ensures valid { IfSome result IsValid }
{
    match given.kind {
        13 => Some(RevokerCommand::Paint),
        14 => visit_from(given.number),
        15 => Some(RevokerCommand::UntagGranule {
            address: given.number,
        }),
        16 => untag_from(given.first),
        17 => Some(RevokerCommand::Release),
        _ => None,
    }
}

fn trap_number(trap: RevokerTrap) -> u8
    ensures { result ≡ revoking.revoker_trap_number trap }
{
    match trap {
        RevokerTrap::Bounds => 2,
        RevokerTrap::Align => 3,
        RevokerTrap::Open => 8,
        RevokerTrap::NotOpen => 9,
        RevokerTrap::Left => 10,
    }
}

fn trap_record(trap: RevokerTrap) -> ReplyRecord
    ensures { result ≡ revoking.record_of_revoker_reply (reply.Trap trap) }
{
    ReplyRecord {
        trap: trap_number(trap),
        ..bare(10)
    }
}

/// The record of a reply to a revoker's command: done and tags that were taken are told as those of commands, kind 11 is
/// released, and trap 10 left. What a reply doesn't tell is 0.
pub fn revoker_reply_record(reply: RevokerReply) -> ReplyRecord
    ensures { result ≡ revoking.record_of_revoker_reply reply }
{
    match reply {
        RevokerReply::Done => bare(5),
        RevokerReply::Cleared { cleared } => with_cleared(bare(8), cleared),
        RevokerReply::Released { bytes } => with_bytes(bare(11), bytes),
        RevokerReply::Trap(trap) => trap_record(trap),
    }
}

/// Makes a revoker's step in the state that these bytes tell of, and writes the bytes of the state that it leaves into a room
/// that is as long.
pub fn revoke(
    alloc: Global,
    state: &[u8],
    command: RevokerCommand,
    out: &mut [u8],
) -> Result<RevokerReply, CallFault>
    requires { IsValid command }
    ensures step { IfOk result (λ reply. IsRevoked state.now command reply out.new) }
    ensures still { OnErr result (out.new ≡ out.old) }
    ensures room { (result ≡ Err CallFault.Room) ↔ (length out.old ≢ length state.now) }
    ensures fault { IfErr result (λ fault. fault ≢ CallFault.Room → IsUnreadable state.now fault) }
{
    exact_blocks_law();
    if out.len() != state.len() {
        return Err(CallFault::Room);
    }
    let mut machine = machine_in(alloc, state)?;
    let reply = machine.revoke(command);
    encode_into(&machine, out);
    Ok(reply)
}
