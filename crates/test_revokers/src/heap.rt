//! The heap before an epoch.

use heap_machine::{Machine, MachineFault};
use std::alloc::Global;
use sweep_pool::{Cutting, Open};
use trace_text::Command;

/// Two pages with a block of 32 bytes, at 0x4000_0000, and one of a page behind it. Register 5 has the second block's
/// capability with its address on the other page. The first block's lies in granule 2, where the second begins, in granule
/// 256, at register 5's address, and in register 1; and it is given up.
pub(crate) fn machine_before_an_epoch(alloc: Global) -> Result<Machine, MachineFault> {
    let Ok(cutting) = Cutting::new(1, 1) else {
        return Err(MachineFault::Memory);
    };
    let mut machine = Machine::new(alloc, 0x4000_0000, 2, cutting)?;
    for command in [
        Command::Malloc { rd: 1, size: 32 },
        Command::Malloc { rd: 2, size: 4096 },
        Command::SetAddr {
            rd: 5,
            rs: 2,
            address: 0x4000_1000,
        },
        Command::StoreCap { ra: 5, rs: 1 },
        Command::StoreCap { ra: 2, rs: 1 },
        Command::Free { rs: 1 },
    ] {
        let _ = machine.step_alone(alloc, command, &Open)?;
    }
    Ok(machine)
}
