//! Looks at the state that bytes tell of.

ghost use Rattle.std.specs.Prelude.{◌≡◌, ◌≤◌, ◌↔◌, ◌≢◌, IfErr, IfOk, MatchOption, ℕ};
ghost use Rattle.tag_memory.specs.Cells.{register_count};
ghost use Rattle.byte_machine.specs.Calls.{AreCounts, IsGranule, IsNoGranule, IsRegister, IsUnreadable, StartsAt, record_of_word};

use crate::fault::CallFault;
use crate::halves::{flag, high_half, low_half};
use crate::machines::machine_in;
use heap_machine::Machine;
use host_memory::Global;
use tag_memory::{GRANULE, REGISTERS};

/// How many bytes lie in live blocks, in held blocks and in none, and 1 where an epoch is open, else 0.
#[repr(C)]
#[derive(Debug, Clone, Copy, PartialEq, Eq)]
pub struct CountRecord {
    pub live: u64,
    pub held: u64,
    pub free: u64,
    pub is_open: u8,
}

/// 16 bytes with a tag, which is 0 or 1: the number that the first eight bytes hold, little endian, and the last eight.
#[repr(C)]
#[derive(Debug, Clone, Copy, PartialEq, Eq)]
pub struct WordRecord {
    pub low: u64,
    pub high: u64,
    pub tag: u8,
}

fn word_of(bits: u128, tag: bool) -> WordRecord
    ensures { result ≡ record_of_word bits tag }
{
    WordRecord {
        low: low_half(bits),
        high: high_half(bits),
        tag: flag(tag),
    }
}

/// The counts of the state that these bytes tell of.
pub fn counts(alloc: Global, state: &[u8]) -> Result<CountRecord, CallFault>
    ensures counts { IfOk result (AreCounts state.now) }
    ensures fault { IfErr result (IsUnreadable state.now) }
{
    let machine = machine_in(alloc, state)?;
    Ok(CountRecord {
        live: machine.live_bytes(),
        held: machine.held_bytes(),
        free: machine.free_bytes(),
        is_open: flag(machine.heap().is_open()),
    })
}

/// What a register holds in the state that these bytes tell of.
pub fn register(alloc: Global, state: &[u8], number: u8) -> Result<WordRecord, CallFault>
    ensures register { IfOk result (IsRegister state.now number) }
    ensures none { (result ≡ Err CallFault.Register) ↔ (register_count ≤ number) }
    ensures fault { IfErr result (λ fault. fault ≢ CallFault.Register → IsUnreadable state.now fault) }
{
    if number >= REGISTERS {
        return Err(CallFault::Register);
    }
    let machine = machine_in(alloc, state)?;
    let (word, tag) = machine.registers().get(number);
    Ok(word_of(word.bits, tag))
}

// Which granule starts at an address.
fn granule_at(machine: &Machine, address: u64) -> Option<usize>
    ensures { MatchOption result ((i : ℕ) → StartsAt machine.now address i → ⊥) (StartsAt machine.now address) }
{
    let memory = machine.memory();
    let base = memory.base();
    if address < base || !(address - base).is_multiple_of(GRANULE) {
        return None;
    }
    let i = ((address - base) / GRANULE) as usize;
    if i < memory.granules() { Some(i) } else { None }
}

/// What the granule holds that starts at an address, in the state that these bytes tell of.
pub fn granule(alloc: Global, state: &[u8], address: u64) -> Result<WordRecord, CallFault>
    ensures granule { IfOk result (IsGranule state.now address) }
    ensures fault { IfErr result (IsNoGranule state.now address) }
{
    let machine = machine_in(alloc, state)?;
    let Some(i) = granule_at(&machine, address) else {
        return Err(CallFault::Address);
    };
    let (bits, tag) = machine.memory().cell(i);
    Ok(word_of(bits, tag))
}
