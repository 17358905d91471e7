//! Machines from bytes and into them.

ghost use Rattle.std.specs.Prelude.{◌≡◌, ◌≢◌, ◌↔◌, IfErr, IfOk, false, length, true};
ghost use Rattle.state_bytes.specs.Text.{text_of};
ghost use Rattle.state_bytes.specs.Text as text;
ghost use Rattle.byte_machine.specs.Calls.{IsTextOf, IsUnreadable};

use crate::fault::CallFault;
use heap_machine::Machine;
use host_memory::Global;
use state_bytes::{BytesFault, decode, encode_into, one_text_law, text_length};
use sweep_pool::Cutting;

/// The machine of these bytes. Its passes are made by the calling thread.
pub fn machine_in(alloc: Global, state: &[u8]) -> Result<Machine, CallFault>
    ensures told { IfOk result (λ machine. IsTextOf state.now machine) }
    ensures room { IfOk result (λ machine. text.text_length (length machine.dirty) ≡ length state.now) }
    ensures fault { IfErr result (IsUnreadable state.now) }
{
    one_text_law();
    match decode(alloc, Cutting::alone(), state) {
        Ok(machine) => Ok(machine),
        Err(BytesFault::Memory) => Err(CallFault::Memory),
        Err(why) => Err(CallFault::State(why)),
    }
}

/// Writes the bytes of a machine's state into a room that is as long, and answers whether it was.
pub fn put_state(machine: &Machine, out: &mut [u8]) -> bool
    ensures text { result ≡ true → out.new ≡ text_of machine.now }
    ensures still { result ≡ false → out.new ≡ out.old }
    ensures room { (result ≡ false) ↔ (length out.old ≢ text.text_length (length machine.now.dirty)) }
{
    machine.memory().invariant();
    if out.len() != text_length(machine.memory().pages()) {
        return false;
    }
    encode_into(machine, out);
    true
}
