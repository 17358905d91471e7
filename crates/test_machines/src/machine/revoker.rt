//! A revoker's own steps, between the commands of a program, with replies worked out by hand.

use heap_machine::{
    Machine, MachineFault, Reply, RevokerCommand, RevokerFollowed, RevokerReply, RevokerTrap,
};
use std::alloc::Global;
use sweep_pool::{Cutting, Open};
use trace_text::Command;

// Two pages with a block of 32 bytes and one of a page; the capability of the first lies in granule 2, where the second
// begins, and in register 1, and the first is given up.
fn machine_before_an_epoch(alloc: Global) -> Result<Machine, MachineFault> {
    let Ok(cutting) = Cutting::new(1, 1) else {
        return Err(MachineFault::Memory);
    };
    let mut machine = Machine::new(alloc, 0x4000_0000, 2, cutting)?;
    for command in [
        Command::Malloc { rd: 1, size: 32 },
        Command::Malloc { rd: 2, size: 4096 },
        Command::StoreCap { ra: 2, rs: 1 },
        Command::Free { rs: 1 },
    ] {
        let _ = machine.step_alone(alloc, command, &Open)?;
    }
    Ok(machine)
}

const LEFT: RevokerReply = RevokerReply::Trap(RevokerTrap::Left);

const BOUNDS: RevokerReply = RevokerReply::Trap(RevokerTrap::Bounds);

const NONE: RevokerReply = RevokerReply::Cleared { cleared: 0 };

const ONE: RevokerReply = RevokerReply::Cleared { cleared: 1 };

// What the revoker does first: page 0 loses its tag, and register 1 keeps its own.
const FIRST: [(RevokerCommand, RevokerReply); 11] = [
    (
        RevokerCommand::Visit { page: 0 },
        RevokerReply::Trap(RevokerTrap::NotOpen),
    ),
    (RevokerCommand::Paint, RevokerReply::Done),
    (RevokerCommand::Paint, RevokerReply::Trap(RevokerTrap::Open)),
    (RevokerCommand::Release, LEFT),
    (RevokerCommand::Visit { page: 2 }, BOUNDS),
    (
        RevokerCommand::UntagGranule {
            address: 0x3fff_fff0,
        },
        BOUNDS,
    ),
    (
        RevokerCommand::UntagGranule {
            address: 0x4000_2000,
        },
        BOUNDS,
    ),
    (
        RevokerCommand::UntagGranule {
            address: 0x4000_0028,
        },
        RevokerReply::Trap(RevokerTrap::Align),
    ),
    (RevokerCommand::Visit { page: 0 }, ONE),
    (RevokerCommand::Visit { page: 0 }, NONE),
    (RevokerCommand::Release, LEFT),
];

// And once the program has stored register 1 again. Register 2 has the block that is live.
const SECOND: [(RevokerCommand, RevokerReply); 8] = [
    (RevokerCommand::UntagRegister { register: 2 }, NONE),
    (RevokerCommand::UntagRegister { register: 1 }, ONE),
    (RevokerCommand::Release, LEFT),
    (
        RevokerCommand::UntagGranule {
            address: 0x4000_0020,
        },
        ONE,
    ),
    (
        RevokerCommand::UntagGranule {
            address: 0x4000_0020,
        },
        NONE,
    ),
    (
        RevokerCommand::Release,
        RevokerReply::Released { bytes: 32 },
    ),
    (
        RevokerCommand::Release,
        RevokerReply::Trap(RevokerTrap::NotOpen),
    ),
    (RevokerCommand::Paint, RevokerReply::Done),
];

#[test]
fn a_revoker_works_while_the_program_runs(rt: HostRuntime) {
    let alloc = rt.alloc();
    let mut machine = machine_before_an_epoch(alloc).expect(&rt, "there is memory");
    for (command, wanted) in FIRST {
        assert!(rt; command.is_valid());
        assert_eq!(rt; machine.revoke(command), wanted, "{command:?}");
    }
    assert_eq!(rt; (machine.held_bytes(), machine.memory().tagged()), (32, 0));
    assert!(rt; machine.memory().granules() > 256);
    assert!(rt; !machine.memory().dirty(0) && machine.memory().dirty(1));
    let stored = machine.step_alone(alloc, Command::StoreCap { ra: 2, rs: 1 }, &Open);
    assert_eq!(rt; stored, Ok(Reply::Done));
    assert!(rt; machine.memory().granules() > 256);
    assert!(rt; machine.memory().dirty(0));
    for (command, wanted) in SECOND {
        assert!(rt; command.is_valid());
        assert_eq!(rt; machine.revoke(command), wanted, "{command:?}");
    }
    assert_eq!(rt; (machine.held_bytes(), machine.memory().tagged()), (0, 0));
}

#[test]
fn a_revoker_is_followed(rt: HostRuntime) {
    let alloc = rt.alloc();
    let mut machine = machine_before_an_epoch(alloc).expect(&rt, "there is memory");
    for (command, wanted) in FIRST {
        assert!(rt; command.is_valid());
        let other = RevokerReply::Released { bytes: 16 };
        assert_eq!(rt;
            machine.revoke_as(command, other),
            RevokerFollowed::MustBe(wanted),
            "{command:?}"
        );
        assert_eq!(rt;
            machine.revoke_as(command, wanted),
            RevokerFollowed::Agrees,
            "{command:?}"
        );
    }
    assert_eq!(rt; machine.memory().tagged(), 0);
}
