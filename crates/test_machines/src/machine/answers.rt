//! A machine that does commands as an allocator answered them, which places blocks elsewhere.

use heap_machine::{Block, Followed, Machine, Obstacle, Reply, Trap, Why};
use std::alloc::Global;
use std::process::Abort;
use std::thread::Threads;
use sweep_pool::{Cutting, Open};
use trace_text::Command;

// A command, what it was answered, and what becomes of that.
type Row = (Command, Reply, Followed);

const AGREES: Followed = Followed::Agrees;

fn must_be(reply: Reply) -> Followed {
    Followed::Differs(Why::MustBe(reply))
}

fn must_trap(trap: Trap) -> Followed {
    must_be(Reply::Trap(trap))
}

// By a machine of which nothing is in use, and by another one without a runtime.
fn are_followed<R: Abort + Threads + Sync>(
    rt: &R,
    alloc: Global,
    machine: &mut Machine,
    rows: &[Row],
) {
    let mut alone = empty_machine(rt, alloc);
    for (command, answer, followed) in rows {
        assert!(rt; command.is_valid());
        let done = machine.follow(rt, alloc, *command, *answer, &Open);
        assert_eq!(rt; done, Ok(*followed), "{command:?} answered {answer:?}");
        let done_alone = alone.follow_alone(alloc, *command, *answer, &Open);
        assert_eq!(rt; done_alone, done, "{command:?} answered {answer:?}");
    }
    assert_eq!(rt; sums(&alone), sums(machine));
}

// The bytes of live and held blocks, and how many registers and granules are tagged.
fn sums(machine: &Machine) -> (u64, u64, usize, usize) {
    (
        machine.live_bytes(),
        machine.held_bytes(),
        machine.registers().tagged(),
        machine.memory().tagged(),
    )
}

// 64 KiB, of which nothing is in use.
fn empty_machine(rt: &impl Abort, alloc: Global) -> Machine {
    let cutting = Cutting::new(1, 16).expect(rt, "it is a cutting");
    Machine::new(alloc, 0x4000_0000, 16, cutting).expect(rt, "there is memory")
}

// The block of 32 bytes that the rows below hand out first.
const FIRST: Reply = Reply::Block {
    base: 0x4000_0100,
    top: 0x4000_0120,
};

const MALLOC: Command = Command::Malloc { rd: 1, size: 20 };

const SECOND: Command = Command::Malloc { rd: 2, size: 16 };

const WRITE: Command = Command::Write {
    ra: 1,
    bytes: [7; 16],
};

// A block in its upper half, after a sweep.
fn after(cleared: u32) -> Reply {
    Reply::BlockAfter {
        base: 0x4000_0110,
        top: 0x4000_0120,
        cleared,
    }
}

fn swept(cleared: u32, released: u64) -> Reply {
    Reply::Swept { cleared, released }
}

fn begun(cleared: u32) -> Reply {
    Reply::Begun { cleared }
}

fn narrow(length: u64) -> Command {
    Command::Narrow {
        rd: 3,
        rs: 1,
        length,
    }
}

fn with_address(address: u64) -> Command {
    Command::SetAddr {
        rd: 2,
        rs: 1,
        address,
    }
}

#[test]
fn a_block_goes_wherever_it_is_free(rt: HostRuntime) {
    let alloc = rt.alloc();
    let mut machine = empty_machine(&rt, alloc);
    let over = Block {
        base: 0x4000_0100,
        top: 0x4000_0120,
    };
    let there = Reply::Block {
        base: 0x4000_0110,
        top: 0x4000_0120,
    };
    let short = Reply::Block {
        base: 0x4000_0200,
        top: 0x4000_0200,
    };
    let uneven = Reply::Block {
        base: 0x4000_0200,
        top: 0x4000_0218,
    };
    let rows = [
        (MALLOC, FIRST, AGREES),
        (
            SECOND,
            there,
            Followed::Differs(Why::Refused(Obstacle::OverLive(over))),
        ),
        (
            Command::Free { rs: 1 },
            Reply::Held(16),
            must_be(Reply::Held(32)),
        ),
        (Command::Free { rs: 1 }, Reply::Held(32), AGREES),
        (
            SECOND,
            there,
            Followed::Differs(Why::Refused(Obstacle::OverHeld(over))),
        ),
        (SECOND, short, Followed::Differs(Why::TooShort)),
        (
            SECOND,
            uneven,
            Followed::Differs(Why::Refused(Obstacle::Uneven)),
        ),
        (SECOND, Reply::Done, Followed::Differs(Why::NotOfMalloc)),
        (SECOND, Reply::NoSpace, AGREES),
    ];
    are_followed(&rt, alloc, &mut machine, &rows);
    let sums = (machine.live_bytes(), machine.held_bytes());
    assert_eq!(rt; sums, (0, 32));
    // The capability of the first block is in its register still.
    assert_eq!(rt; machine.registers().tagged(), 1);
}

#[test]
fn a_sweep_takes_just_the_tags_that_it_should(rt: HostRuntime) {
    let alloc = rt.alloc();
    let mut machine = empty_machine(&rt, alloc);
    let rows = [
        (SECOND, after(0), Followed::Differs(Why::MayNotSweep)),
        (
            SECOND,
            Reply::NoSpaceAfter { cleared: 0 },
            Followed::Differs(Why::MayNotSweep),
        ),
        (Command::Sweep, swept(1, 0), must_be(swept(0, 0))),
        (MALLOC, FIRST, AGREES),
        (Command::StoreCap { ra: 1, rs: 1 }, Reply::Done, AGREES),
        (Command::Free { rs: 1 }, Reply::Held(32), AGREES),
        (SECOND, after(1), Followed::Differs(Why::Takes(2))),
        (SECOND, after(3), Followed::Differs(Why::Takes(2))),
        (
            SECOND,
            Reply::NoSpaceAfter { cleared: 0 },
            Followed::Differs(Why::Takes(2)),
        ),
        (Command::Sweep, swept(2, 16), must_be(swept(2, 32))),
        (SECOND, after(2), AGREES),
        (Command::Sweep, swept(0, 0), AGREES),
    ];
    are_followed(&rt, alloc, &mut machine, &rows);
    let sums = (machine.live_bytes(), machine.held_bytes());
    assert_eq!(rt; sums, (16, 0));
    assert_eq!(rt;
        (machine.registers().tagged(), machine.memory().tagged()),
        (1, 0)
    );
}

#[test]
fn an_epoch_is_followed_too(rt: HostRuntime) {
    let alloc = rt.alloc();
    let mut machine = empty_machine(&rt, alloc);
    let open = Reply::Trap(Trap::Open);
    let not_open = Reply::Trap(Trap::NotOpen);
    let rows = [
        (Command::Begin, begun(1), must_be(begun(0))),
        (Command::End, swept(0, 0), must_be(not_open)),
        (MALLOC, FIRST, AGREES),
        (Command::StoreCap { ra: 1, rs: 1 }, Reply::Done, AGREES),
        (Command::Free { rs: 1 }, Reply::Held(32), AGREES),
        (Command::Begin, begun(2), must_be(begun(1))),
        (Command::Begin, begun(1), AGREES),
        (Command::Begin, begun(0), must_be(open)),
        (Command::Sweep, open, AGREES),
        // Stored once more, into a page that is dirty from then on.
        (Command::StoreCap { ra: 1, rs: 1 }, Reply::Done, AGREES),
        (Command::End, swept(1, 32), must_be(swept(2, 32))),
        (Command::End, swept(2, 32), AGREES),
        (Command::End, not_open, AGREES),
        // An epoch in which no page is dirty.
        (MALLOC, FIRST, AGREES),
        (Command::Free { rs: 1 }, Reply::Held(32), AGREES),
        (Command::Begin, begun(0), AGREES),
        (Command::End, swept(0, 32), must_be(swept(1, 32))),
        (Command::End, swept(1, 32), AGREES),
    ];
    are_followed(&rt, alloc, &mut machine, &rows);
    assert_eq!(rt; machine.free_bytes(), 0x1_0000);
}

#[test]
fn other_commands_have_one_answer(rt: HostRuntime) {
    let alloc = rt.alloc();
    let mut machine = empty_machine(&rt, alloc);
    let rows = [
        (
            Command::Free { rs: 1 },
            Reply::Held(32),
            must_trap(Trap::Tag),
        ),
        (MALLOC, FIRST, AGREES),
        (
            with_address(0x4000_0110),
            Reply::Cleared,
            must_be(Reply::Done),
        ),
        (with_address(0), Reply::Done, must_be(Reply::Cleared)),
        (narrow(0), Reply::Done, must_trap(Trap::Empty)),
        (narrow(33), Reply::Done, must_trap(Trap::Bounds)),
        (narrow(16), Reply::Done, AGREES),
        (
            Command::Free { rs: 3 },
            Reply::Held(16),
            must_trap(Trap::NotBlock),
        ),
        (
            Command::LoadCap { rd: 4, ra: 0 },
            Reply::Done,
            must_trap(Trap::Tag),
        ),
        (WRITE, Reply::Trap(Trap::Perm), must_be(Reply::Done)),
        (
            Command::AndPerm {
                rd: 5,
                rs: 1,
                mask: 0,
            },
            Reply::Cleared,
            must_be(Reply::Done),
        ),
        (
            Command::Copy { rd: 5, rs: 1 },
            Reply::Held(0),
            must_be(Reply::Done),
        ),
    ];
    are_followed(&rt, alloc, &mut machine, &rows);
    // What was answered wrongly changed nothing: the granule is zero, and only registers 1 and 3 are tagged.
    assert_eq!(rt;
        (machine.registers().tagged(), machine.memory().cell(16)),
        (2, (0, false))
    );
}
