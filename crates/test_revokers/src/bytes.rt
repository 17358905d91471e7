//! A revoker's steps from bytes to bytes, and as records.

use byte_machine::{
    CallFault, CommandRecord, ReplyRecord, command_of, first, revoke, revoker_command_of,
    revoker_reply_record, step,
};
use heap_machine::{Reply, RevokerCommand, RevokerReply};
use revoker_steps::RevokerTrap;
use state_bytes::BytesFault;
use std::alloc::Global;
use std::process::Abort;

// 13 bytes of a head, 21 for each of 256 granules, 17 for each of 32 registers, and one for the page.
const LENGTH: usize = 5_934;

fn record(kind: u8, first: u8, second: u8, number: u64) -> CommandRecord {
    CommandRecord {
        kind,
        first,
        second,
        number,
        low: 0,
        high: 0,
    }
}

// What a kind doesn't use isn't looked at; behind the kinds of commands come those of a revoker.
#[test]
fn revoker_commands_are_read(rt: HostRuntime) {
    let rows = [
        (record(12, 0, 0, 0), None),
        (record(13, 255, 255, 7), Some(RevokerCommand::Paint)),
        (
            record(14, 255, 255, 0xffff_ffff),
            Some(RevokerCommand::Visit { page: 0xffff_ffff }),
        ),
        (record(14, 0, 0, 0x1_0000_0000), None),
        (
            record(15, 255, 255, 0xffff_ffff_ffff_ffff),
            Some(RevokerCommand::UntagGranule {
                address: 0xffff_ffff_ffff_ffff,
            }),
        ),
        (
            record(16, 31, 255, 255),
            Some(RevokerCommand::UntagRegister { register: 31 }),
        ),
        (record(16, 32, 0, 0), None),
        (record(17, 255, 255, 7), Some(RevokerCommand::Release)),
        (record(18, 0, 0, 0), None),
    ];
    for (given, wanted) in rows {
        assert_eq!(rt; revoker_command_of(given), wanted);
    }
}

const BARE: ReplyRecord = ReplyRecord {
    kind: 0,
    trap: 0,
    tag: 0,
    exponent: 0,
    perms: 0,
    cleared: 0,
    otype: 0,
    base: 0,
    top: 0,
    top_high: 0,
    address: 0,
    bytes: 0,
};

fn trap_record(trap: u8) -> ReplyRecord {
    ReplyRecord {
        kind: 10,
        trap,
        ..BARE
    }
}

#[test]
fn revoker_replies_are_told(rt: HostRuntime) {
    let done = ReplyRecord { kind: 5, ..BARE };
    assert_eq!(rt; revoker_reply_record(RevokerReply::Done), done);
    let cleared = ReplyRecord {
        kind: 8,
        cleared: 7,
        ..BARE
    };
    assert_eq!(rt;
        revoker_reply_record(RevokerReply::Cleared { cleared: 7 }),
        cleared
    );
    let released = ReplyRecord {
        kind: 11,
        bytes: 48,
        ..BARE
    };
    assert_eq!(rt;
        revoker_reply_record(RevokerReply::Released { bytes: 48 }),
        released
    );
    let traps = [
        (RevokerTrap::Bounds, 2),
        (RevokerTrap::Align, 3),
        (RevokerTrap::Open, 8),
        (RevokerTrap::NotOpen, 9),
        (RevokerTrap::Left, 10),
    ];
    for (trap, number) in traps {
        assert_eq!(rt;
            revoker_reply_record(RevokerReply::Trap(trap)),
            trap_record(number)
        );
    }
}

fn room(rt: &impl Abort, alloc: Global) -> Vec<u8> {
    vec![in alloc; 0x55; LENGTH].expect(rt, "there is memory")
}

// The state after a command of the program.
fn after(rt: &impl Abort, alloc: Global, state: &[u8], given: CommandRecord) -> Vec<u8> {
    let mut out = room(rt, alloc);
    let Some(command) = command_of(given) else {
        assert!(rt; false);
        return out;
    };
    let told = step(alloc, state, command, &mut out);
    assert!(rt; !matches!(told, Ok(Reply::Trap(_)) | Err(_)));
    out
}

// A block of 32 bytes that was freed; its capability stands in register 1 and in its own first granule.
fn with_stale_words(rt: &impl Abort, alloc: Global) -> Vec<u8> {
    let mut state = room(rt, alloc);
    assert_eq!(rt; first(alloc, 0x4000_0000, 1, &mut state), Ok(()));
    let state = after(rt, alloc, &state, record(0, 1, 0, 20));
    let state = after(rt, alloc, &state, record(6, 1, 1, 0));
    after(rt, alloc, &state, record(1, 1, 0, 0))
}

// The state after a revoker's step, which is answered so.
fn revoked(
    rt: &impl Abort,
    alloc: Global,
    state: &[u8],
    command: RevokerCommand,
    wanted: RevokerReply,
) -> Vec<u8> {
    let mut out = room(rt, alloc);
    assert!(rt; command.is_valid());
    assert_eq!(rt; revoke(alloc, state, command, &mut out), Ok(wanted));
    out
}

// What state bytes have at this place.
fn at(state: &[u8], place: usize) -> Option<u8> {
    state.get(place).copied()
}

// Byte 12 says whether an epoch is open, 29 whether the first granule is tagged, and the last whether the page is dirty.
#[test]
fn a_page_is_visited(rt: HostRuntime) {
    let alloc = rt.alloc();
    let state = with_stale_words(&rt, alloc);
    let painted = revoked(
        &rt,
        alloc,
        &state,
        RevokerCommand::Paint,
        RevokerReply::Done,
    );
    assert_eq!(rt; (at(&painted, 12), at(&painted, 29)), (Some(1), Some(1)));
    let one = RevokerReply::Cleared { cleared: 1 };
    let visit = RevokerCommand::Visit { page: 0 };
    let visited = revoked(&rt, alloc, &painted, visit, one);
    assert_eq!(rt;
        (at(&visited, 29), at(&visited, LENGTH - 1)),
        (Some(0), Some(0))
    );
    let left = RevokerReply::Trap(RevokerTrap::Left);
    let same = revoked(&rt, alloc, &visited, RevokerCommand::Release, left);
    assert_eq!(rt; same.as_slice(), visited.as_slice());
}

#[test]
fn the_painted_block_is_released(rt: HostRuntime) {
    let alloc = rt.alloc();
    let state = with_stale_words(&rt, alloc);
    let state = revoked(
        &rt,
        alloc,
        &state,
        RevokerCommand::Paint,
        RevokerReply::Done,
    );
    let one = RevokerReply::Cleared { cleared: 1 };
    let granule = RevokerCommand::UntagGranule {
        address: 0x4000_0000,
    };
    let state = revoked(&rt, alloc, &state, granule, one);
    let register = RevokerCommand::UntagRegister { register: 1 };
    let state = revoked(&rt, alloc, &state, register, one);
    let released = RevokerReply::Released { bytes: 32 };
    let state = revoked(&rt, alloc, &state, RevokerCommand::Release, released);
    assert_eq!(rt; at(&state, 12), Some(0));
}

// The room is judged before the state, and nothing is written.
#[test]
fn rooms_and_states_of_a_revoker_are_judged(rt: HostRuntime) {
    let alloc = rt.alloc();
    let none = room(&rt, alloc);
    let mut short = vec![in alloc; 0x55; LENGTH - 1].expect(&rt, "there is memory");
    let told = revoke(alloc, &none, RevokerCommand::Paint, &mut short);
    assert_eq!(rt; told, Err(CallFault::Room));
    assert!(rt; short.iter().all(|byte| *byte == 0x55));
    let mut out = vec![in alloc; 0x55; LENGTH - 1].expect(&rt, "there is memory");
    let told = revoke(alloc, &short, RevokerCommand::Paint, &mut out);
    assert_eq!(rt; told, Err(CallFault::State(BytesFault::Length)));
    assert!(rt; out.iter().all(|byte| *byte == 0x55));
}
