//! Commands that need no memory.

use crate::steps::Seen;
use heap_machine::{Machine, MachineFault, Reply};
use std::alloc::Global;
use std::process::Abort;
use std::thread::Threads;
use sweep_pool::{Cutting, Open};
use trace_text::Command;

// A machine with a live block and a held one; none where an allocation was refused.
fn machine<R: Threads + Sync>(rt: &R, alloc: Global) -> Option<Machine> {
    let cutting = Cutting::new(2, 1).ok()?;
    let mut machine = Machine::new(alloc, 0x4000_0000, 7, cutting).ok()?;
    for command in [
        Command::Malloc { rd: 1, size: 32 },
        Command::Malloc { rd: 2, size: 32 },
        Command::Free { rs: 2 },
    ] {
        let _ = machine.step(rt, alloc, command, &Open).ok()?;
    }
    Some(machine)
}

// Those commands, each of which succeeds on that machine after those before it.
const COMMANDS: [Command; 9] = [
    Command::Copy { rd: 3, rs: 1 },
    Command::SetAddr {
        rd: 4,
        rs: 1,
        address: 0x4000_0010,
    },
    Command::Narrow {
        rd: 5,
        rs: 4,
        length: 16,
    },
    Command::AndPerm {
        rd: 6,
        rs: 1,
        mask: 0xffff,
    },
    Command::StoreCap { ra: 1, rs: 5 },
    Command::LoadCap { rd: 7, ra: 1 },
    Command::Write {
        ra: 5,
        bytes: [1; 16],
    },
    Command::Show { rs: 7 },
    Command::Malloc { rd: 8, size: 32 },
];

// With the allocation after these refused, and all that come after it, the commands succeed, and a sweep
// wants memory: then it changes nothing.
#[test]
fn refused_allocations_leave_commands_that_need_none(rt: HostRuntime) {
    let Some(mut machine) = machine(&rt, rt.alloc()) else {
        return;
    };
    let Some(mut before) = Seen::of(rt.alloc(), &machine) else {
        return;
    };
    for command in COMMANDS {
        let reply = machine.step(&rt, rt.alloc(), command, &Open);
        let is_done = matches!(
            reply,
            Ok(Reply::Done | Reply::Shown(_) | Reply::Block { .. })
        );
        assert!(rt; is_done, "{command:?}: {reply:?}");
    }
    before.look(&machine);
    match machine.step(&rt, rt.alloc(), Command::Sweep, &Open) {
        Ok(reply) => {
            let swept = Reply::Swept {
                cleared: 1,
                released: 32,
            };
            assert_eq!(rt; reply, swept);
        }
        Err(fault) => {
            assert_eq!(rt; fault, MachineFault::Memory);
            before.is_still(&rt, &machine);
        }
    }
}
