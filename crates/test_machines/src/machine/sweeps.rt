//! A machine whose sweep is refused.

use heap_machine::{Machine, MachineFault, Reply};
use std::alloc::Global;
use std::thread::Threads;
use sweep_pool::{Cutting, Open};
use trace_text::Command;

// Tagged registers, tagged granules, and the bytes of live, held and free blocks.
pub type Sums = (usize, usize, u64, u64, u64);

pub(crate) fn sums(machine: &Machine) -> Sums {
    (
        machine.registers().tagged(),
        machine.memory().tagged(),
        machine.live_bytes(),
        machine.held_bytes(),
        machine.free_bytes(),
    )
}

// A machine with one held block, whose capability is in a register and in memory.
fn held_machine<R: Threads + Sync>(rt: &R, alloc: Global) -> Result<Machine, MachineFault> {
    let Ok(cutting) = Cutting::new(1, 16) else {
        return Err(MachineFault::Memory);
    };
    let mut machine = Machine::new(alloc, 0x4000_0000, 1, cutting)?;
    let commands = [
        Command::Malloc { rd: 1, size: 32 },
        Command::StoreCap { ra: 1, rs: 1 },
        Command::Free { rs: 1 },
    ];
    for command in commands {
        let _ = machine.step(rt, alloc, command, &Open)?;
    }
    Ok(machine)
}

// A refused sweep leaves the machine as it was, and is done when it is asked for again.
#[test]
fn a_refused_allocation_of_a_sweep_changes_nothing(rt: HostRuntime) {
    let Ok(mut machine) = held_machine(&rt, rt.alloc()) else {
        return;
    };
    let done = Ok(Reply::Swept {
        cleared: 2,
        released: 32,
    });
    let before = sums(&machine);
    assert_eq!(rt; before, (1, 1, 0, 32, 4064));
    let mut reply = machine.step(&rt, rt.alloc(), Command::Sweep, &Open);
    if reply == Err(MachineFault::Memory) {
        assert_eq!(rt; sums(&machine), before);
        reply = machine.step(&rt, rt.alloc(), Command::Sweep, &Open);
    }
    assert_eq!(rt; reply, done);
    assert_eq!(rt; sums(&machine), (0, 0, 0, 0, 4096));
}

// The same without a runtime, whose step takes memory for the shadow and for the masks.
#[test]
fn a_refused_allocation_of_a_sweep_alone_changes_nothing(rt: HostRuntime) {
    let Ok(mut machine) = held_machine(&rt, rt.alloc()) else {
        return;
    };
    let before = sums(&machine);
    assert_eq!(rt; before, (1, 1, 0, 32, 4064));
    let mut reply = machine.step_alone(rt.alloc(), Command::Sweep, &Open);
    if reply == Err(MachineFault::Memory) {
        assert_eq!(rt; sums(&machine), before);
        reply = machine.step_alone(rt.alloc(), Command::Sweep, &Open);
    }
    let done = Ok(Reply::Swept {
        cleared: 2,
        released: 32,
    });
    assert_eq!(rt; reply, done);
    assert_eq!(rt; sums(&machine), (0, 0, 0, 0, 4096));
}
