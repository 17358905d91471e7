//! Machines that C holds, for runs in which no state is wanted after each command.

ghost use Rattle.std.specs.Prelude.{◌≡◌, ◌≢◌, ◌↔◌, None, Some};
ghost use Rattle.byte_machine.specs.Calls.{IsUnreadable};
ghost use Rattle.byte_machine.specs.Revoking.{revoker_of_record};
ghost use Rattle.byte_machine.specs.declared.commands.CommandRecord.{CommandRecord as TheCommandRecord};
ghost use Rattle.revoker_steps.specs.Valid as revoker;
ghost use Rattle.kernelstint.specs.Calls.{HasFault, IsNoStep};
ghost use Rattle.kernelstint.specs.Codes.{bad_command, bad_room, done, no_memory};
ghost use Rattle.kernelstint.specs.Machines.{HasText, IsCopied, IsMachineRevoked, IsMachineStep, IsOpened};

use crate::codes::{BAD_COMMAND, BAD_ROOM, DONE, NO_MEMORY, code_of_fault};
use crate::handle::MachineHandle;
use byte_machine::{
    CommandRecord, ReplyRecord, command_of, machine_in, put_state, reply_record,
    revoker_command_of, revoker_reply_record,
};
use heap_machine::RevokerCommand;
use host_memory::Global;
use state_bytes::exact_blocks_law;
use sweep_pool::Open;

/// Makes the machine of these bytes behind a handle that has none.
#[unsafe(no_mangle)]
pub extern "C" fn kernelstint_proved_machine_open(
    alloc: Global,
    state: &[u8],
    machine: &mut MachineHandle,
) -> u32
    requires { machine.old.value ≡ None }
    ensures opened { result ≡ done → IsOpened machine.new.value state.now }
    ensures still { result ≢ done → machine.new.value ≡ None }
    ensures fault { result ≢ done → HasFault (IsUnreadable state.now) result }
{
    let made = match machine_in(alloc, state) {
        Ok(made) => made,
        Err(fault) => return code_of_fault(fault),
    };
    let Ok(boxed) = Box::new(alloc, made) else {
        return NO_MEMORY;
    };
    machine.put(boxed);
    DONE
}

// Makes a revoker's step, and writes the reply.
fn revoke_held(
    alloc: Global,
    machine: &mut MachineHandle,
    command: RevokerCommand,
    reply: &mut ReplyRecord,
)
    requires held { machine.old.value ≢ None }
    requires valid { revoker.IsValid command }
    ensures { (given : TheCommandRecord) → revoker_of_record given ≡ Some command → IsMachineRevoked machine.old.value given reply.new machine.new.value }
{
    exact_blocks_law();
    let mut held = machine.take(alloc);
    let told = held.revoke(command);
    machine.put(held);
    *reply = revoker_reply_record(told);
}

/// Does the command of a record, or makes the revoker's step that it is, and writes the reply.
#[unsafe(no_mangle)]
pub extern "C" fn kernelstint_proved_machine_step(
    alloc: Global,
    machine: &mut MachineHandle,
    command: CommandRecord,
    reply: &mut ReplyRecord,
) -> u32
    requires { machine.old.value ≢ None }
    ensures step { result ≡ done → IsMachineStep machine.old.value command reply.new machine.new.value }
    ensures still { result ≢ done → machine.new.value ≡ machine.old.value }
    ensures untold { result ≢ done → reply.new ≡ reply.old }
    ensures command { (result ≡ bad_command) ↔ IsNoStep command }
    ensures memory { result ≢ done → result ≢ bad_command → result ≡ no_memory }
{
    exact_blocks_law();
    if let Some(command) = revoker_command_of(command) {
        revoke_held(alloc, machine, command, reply);
        return DONE;
    }
    let Some(command) = command_of(command) else {
        return BAD_COMMAND;
    };
    let mut held = machine.take(alloc);
    held.invariant();
    let answered = held.step_alone(alloc, command, &Open);
    machine.put(held);
    match answered {
        Ok(told) => {
            *reply = reply_record(told);
            DONE
        }
        Err(_) => NO_MEMORY,
    }
}

/// Makes another machine in the same state, behind a handle that has none.
#[unsafe(no_mangle)]
pub extern "C" fn kernelstint_proved_machine_copy(
    alloc: Global,
    machine: &mut MachineHandle,
    copy: &mut MachineHandle,
) -> u32
    requires machine { machine.old.value ≢ None }
    requires copy { copy.old.value ≡ None }
    ensures copied { result ≡ done → IsCopied machine.old.value copy.new.value }
    ensures still { result ≢ done → copy.new.value ≡ None }
    ensures memory { result ≢ done → result ≡ no_memory }
    ensures kept { machine.new.value ≡ machine.old.value }
{
    let held = machine.take(alloc);
    let made = held.copy(alloc);
    machine.put(held);
    let Some(made) = made else {
        return NO_MEMORY;
    };
    let Ok(boxed) = Box::new(alloc, made) else {
        return NO_MEMORY;
    };
    copy.put(boxed);
    DONE
}

/// Writes the bytes of the machine's state into a room that is as long.
#[unsafe(no_mangle)]
pub extern "C" fn kernelstint_proved_machine_bytes(
    alloc: Global,
    machine: &mut MachineHandle,
    out: &mut [u8],
) -> u32
    requires { machine.old.value ≢ None }
    ensures text { result ≡ done → HasText machine.old.value out.new }
    ensures still { result ≢ done → out.new ≡ out.old }
    ensures room { result ≢ done → result ≡ bad_room }
    ensures kept { machine.new.value ≡ machine.old.value }
{
    let held = machine.take(alloc);
    let is_written = put_state(&held, out);
    machine.put(held);
    if is_written { DONE } else { BAD_ROOM }
}

/// Frees the machine, and leaves none.
#[unsafe(no_mangle)]
pub extern "C" fn kernelstint_proved_machine_close(alloc: Global, machine: &mut MachineHandle)
    requires { machine.old.value ≢ None }
    ensures { machine.new.value ≡ None }
{
    drop(machine.take(alloc));
}
