//! Looks at the state that bytes tell of.

ghost use Rattle.std.specs.Prelude.{◌≡◌, ◌≢◌, ◌≤◌};
ghost use Rattle.byte_machine.specs.Calls.{AreCounts, IsGranule, IsNoGranule, IsRegister, IsUnreadable};
ghost use Rattle.tag_memory.specs.Cells.{register_count};
ghost use Rattle.kernelstint.specs.Calls.{HasFault};
ghost use Rattle.kernelstint.specs.Codes.{bad_register, done};

use crate::codes::{DONE, code_of_fault};
use byte_machine::{CallFault, CountRecord, WordRecord, counts, granule, register};
use host_memory::Global;

/// Writes the counts of the state that these bytes tell of.
#[unsafe(no_mangle)]
pub extern "C" fn kernelstint_proved_counts(
    alloc: Global,
    state: &[u8],
    told: &mut CountRecord,
) -> u32
    ensures counts { result ≡ done → AreCounts state.now told.new }
    ensures still { result ≢ done → told.new ≡ told.old }
    ensures fault { result ≢ done → HasFault (IsUnreadable state.now) result }
{
    match counts(alloc, state) {
        Ok(found) => {
            *told = found;
            DONE
        }
        Err(fault) => code_of_fault(fault),
    }
}

/// Writes what a register holds in the state that these bytes tell of.
#[unsafe(no_mangle)]
pub extern "C" fn kernelstint_proved_register(
    alloc: Global,
    state: &[u8],
    number: u8,
    word: &mut WordRecord,
) -> u32
    ensures register { result ≡ done → IsRegister state.now number word.new }
    ensures still { result ≢ done → word.new ≡ word.old }
    ensures none { register_count ≤ number → result ≡ bad_register }
    ensures only { result ≡ bad_register → register_count ≤ number }
    ensures fault { result ≢ done → HasFault (λ fault. fault ≢ CallFault.Register → IsUnreadable state.now fault) result }
{
    match register(alloc, state, number) {
        Ok(found) => {
            *word = found;
            DONE
        }
        Err(fault) => code_of_fault(fault),
    }
}

/// Writes what the granule holds that starts at an address, in the state that these bytes tell of.
#[unsafe(no_mangle)]
pub extern "C" fn kernelstint_proved_granule(
    alloc: Global,
    state: &[u8],
    address: u64,
    word: &mut WordRecord,
) -> u32
    ensures granule { result ≡ done → IsGranule state.now address word.new }
    ensures still { result ≢ done → word.new ≡ word.old }
    ensures fault { result ≢ done → HasFault (IsNoGranule state.now address) result }
{
    match granule(alloc, state, address) {
        Ok(found) => {
            *word = found;
            DONE
        }
        Err(fault) => code_of_fault(fault),
    }
}
