//! A revoker without a barrier, with replies worked out by hand.

use crate::heap::machine_before_an_epoch;
use heap_machine::{Alone, Reply, RevokerCommand, RevokerReply, RevokerTrap, Trap};
use revokers::{Act, Cornucopia, Finished, MOST_ACTS};
use trace_text::Command;

#[test]
fn what_the_program_stores_again_is_taken_at_the_end(rt: HostRuntime) {
    let alloc = rt.alloc();
    let machine = machine_before_an_epoch(alloc).expect(&rt, "there is memory");
    let mut revoker = Cornucopia::new(machine);
    let mut acts = Vec::with_capacity(alloc, MOST_ACTS).expect(&rt, "there is memory");
    assert_eq!(rt; revoker.finish(&mut acts), None);
    assert_eq!(rt; revoker.start(), RevokerReply::Done);
    assert_eq!(rt; revoker.start(), RevokerReply::Trap(RevokerTrap::Open));
    for (page, wanted) in [
        (0, RevokerReply::Cleared { cleared: 1 }),
        (0, RevokerReply::Cleared { cleared: 0 }),
        (2, RevokerReply::Trap(RevokerTrap::Bounds)),
    ] {
        assert_eq!(rt; revoker.visit(page), wanted, "{page}");
    }
    for (command, wanted) in [
        (Command::Begin, Reply::Trap(Trap::Open)),
        (Command::Sweep, Reply::Trap(Trap::Open)),
        // Register 1 has the first block's capability still, and page 0 gets it back.
        (Command::StoreCap { ra: 2, rs: 1 }, Reply::Done),
    ] {
        assert!(rt; command.is_valid());
        assert_eq!(rt;
            revoker.step(&Alone, alloc, command),
            Ok(wanted),
            "{command:?}"
        );
    }
    // One in granule 2, one in granule 256, one in register 1.
    let finished = Finished {
        cleared: 3,
        bytes: 32,
    };
    acts.clear();
    assert_eq!(rt; revoker.finish(&mut acts), Some(finished));
    // Page 0 is dirty again, page 1 was never visited, and of the registers the first alone has such a word.
    let told = [
        (
            RevokerCommand::Visit { page: 0 },
            RevokerReply::Cleared { cleared: 1 },
        ),
        (
            RevokerCommand::Visit { page: 1 },
            RevokerReply::Cleared { cleared: 1 },
        ),
        (
            RevokerCommand::UntagRegister { register: 1 },
            RevokerReply::Cleared { cleared: 1 },
        ),
        (
            RevokerCommand::Release,
            RevokerReply::Released { bytes: 32 },
        ),
    ];
    assert_eq!(rt;
        acts.as_slice(),
        told.map(|(command, reply)| Act { command, reply })
            .as_slice()
    );
    acts.clear();
    assert_eq!(rt; revoker.finish(&mut acts), None);
    let machine = revoker.machine();
    assert_eq!(rt;
        (machine.memory().tagged(), machine.registers().tagged()),
        (0, 2)
    );
    assert_eq!(rt; (machine.live_bytes(), machine.held_bytes()), (4096, 0));
}

#[test]
fn what_was_visited_and_not_written_since_is_not_looked_at_again(rt: HostRuntime) {
    let alloc = rt.alloc();
    let machine = machine_before_an_epoch(alloc).expect(&rt, "there is memory");
    let mut revoker = Cornucopia::new(machine);
    let mut acts = Vec::with_capacity(alloc, MOST_ACTS).expect(&rt, "there is memory");
    assert_eq!(rt; revoker.start(), RevokerReply::Done);
    assert_eq!(rt; revoker.visit(1), RevokerReply::Cleared { cleared: 1 });
    assert_eq!(rt; revoker.visit(0), RevokerReply::Cleared { cleared: 1 });
    // The block that is freed now waits for the next epoch.
    let free = Command::Free { rs: 2 };
    assert_eq!(rt; revoker.step(&Alone, alloc, free), Ok(Reply::Held(4096)));
    let finished = Finished {
        cleared: 1,
        bytes: 32,
    };
    assert_eq!(rt; revoker.finish(&mut acts), Some(finished));
    assert_eq!(rt; revoker.machine().held_bytes(), 4096);
}
