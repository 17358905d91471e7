//! Granules that a log saw.

ghost use Rattle.std.specs.Prelude.{MatchOption};
ghost use Rattle.log_text.specs.declared.log.Event.TheVariants as event;
ghost use Rattle.heap_log.specs.Judged.{IsRefusedEvent, IsSeen, SaysInstead};

use crate::verdict::Difference;
use cap_codec::{Word, from_bytes, to_bytes};
use heap_machine::Machine;

/// How the heap differs from a granule that was read.
pub fn see(machine: &Machine, address: u64, tag: bool, bytes: [u8; 16]) -> Option<Difference>
    ensures { MatchOption result
        (IsSeen machine.now.state address tag bytes)
        (λ difference. IsRefusedEvent machine.now.state (event.Seen address tag bytes)
        × SaysInstead machine.now.state (event.Seen address tag bytes) difference) }
{
    let memory = machine.memory();
    let Some(i) = memory.granule_at(address) else {
        return Some(Difference::NoGranule);
    };
    let (bits, held) = memory.cell(i);
    if bits == from_bytes(bytes).bits && held == tag {
        return None;
    }
    Some(Difference::Granule {
        tag: held,
        bytes: to_bytes(Word { bits }),
    })
}
