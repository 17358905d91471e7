//! Records of commands, replies and reasons.

use super::record;
use byte_machine::{
    CommandRecord, ReplyRecord, command_of, record_of, reply_of, reply_record, why_record,
};
use heap_core::{Block, Obstacle};
use heap_machine::{Reply, Shown, Trap, Why};
use trace_text::Command;

#[test]
fn commands_are_read(rt: HostRuntime) {
    let rows = [
        // A second register isn't looked at where there is none.
        (
            record(0, 1, 255, 20),
            Some(Command::Malloc { rd: 1, size: 20 }),
        ),
        (record(0, 32, 0, 20), None),
        (record(2, 1, 32, 0), None),
        (
            record(5, 1, 2, 65_535),
            Some(Command::AndPerm {
                rd: 1,
                rs: 2,
                mask: 65_535,
            }),
        ),
        (record(5, 1, 2, 65_536), None),
        (record(12, 255, 255, 7), Some(Command::End)),
        (record(13, 1, 1, 0), None),
    ];
    for (given, wanted) in rows {
        assert_eq!(rt; command_of(given), wanted);
    }
}

#[test]
fn bytes_of_writes_are_little_endian(rt: HostRuntime) {
    let bytes = [0, 1, 2, 3, 4, 5, 6, 7, 8, 9, 10, 11, 12, 13, 14, 15];
    let written = CommandRecord {
        low: 0x0706_0504_0302_0100,
        high: 0x0f0e_0d0c_0b0a_0908,
        ..record(8, 1, 0, 0)
    };
    let command = Command::Write { ra: 1, bytes };
    assert_eq!(rt; record_of(command), written);
    assert_eq!(rt; command_of(written), Some(command));
}

const BARE: ReplyRecord = ReplyRecord {
    kind: 0,
    trap: 0,
    tag: 0,
    exponent: 0,
    perms: 0,
    cleared: 0,
    otype: 0,
    base: 0,
    top: 0,
    top_high: 0,
    address: 0,
    bytes: 0,
};

#[test]
fn replies_are_told(rt: HostRuntime) {
    let swept = Reply::Swept {
        cleared: 3,
        released: 48,
    };
    let told = ReplyRecord {
        kind: 7,
        cleared: 3,
        bytes: 48,
        ..BARE
    };
    assert_eq!(rt; reply_record(swept), told);
    let trapped = ReplyRecord {
        kind: 10,
        trap: 9,
        ..BARE
    };
    assert_eq!(rt; reply_record(Reply::Trap(Trap::NotOpen)), trapped);
    assert_eq!(rt; reply_of(trapped), Some(Reply::Trap(Trap::NotOpen)));
}

// The top of a null capability has 65 bits.
#[test]
fn tops_have_two_parts(rt: HostRuntime) {
    let null = Shown {
        tag: false,
        address: 0,
        base: 0,
        top: 1 << 64,
        perms: 0,
        otype: 0x3ffff,
        exponent: 52,
    };
    let told = ReplyRecord {
        kind: 9,
        exponent: 52,
        otype: 0x3ffff,
        top_high: 1,
        ..BARE
    };
    assert_eq!(rt; reply_record(Reply::Shown(null)), told);
    assert_eq!(rt; reply_of(told), Some(Reply::Shown(null)));
}

#[test]
fn other_replies_are_refused(rt: HostRuntime) {
    assert_eq!(rt; reply_of(ReplyRecord { kind: 11, ..BARE }), None);
    let trap = ReplyRecord {
        kind: 10,
        trap: 10,
        ..BARE
    };
    assert_eq!(rt; reply_of(trap), None);
    let tag = ReplyRecord {
        kind: 9,
        tag: 2,
        ..BARE
    };
    assert_eq!(rt; reply_of(tag), None);
    // A tag isn't looked at where none is told.
    let done = ReplyRecord {
        kind: 5,
        tag: 2,
        ..BARE
    };
    assert_eq!(rt; reply_of(done), Some(Reply::Done));
}

#[test]
fn reasons_are_told(rt: HostRuntime) {
    let told = why_record(Why::MustBe(Reply::Held(32)));
    assert_eq!(rt; (told.kind, told.reply.kind, told.reply.bytes), (0, 4, 32));
    let told = why_record(Why::Takes(7));
    assert_eq!(rt; (told.kind, told.count, told.claim), (4, 7, 0));
    let block = Block {
        base: 0x4000_0100,
        top: 0x4000_0140,
    };
    let told = why_record(Why::Refused(Obstacle::OverHeld(block)));
    assert_eq!(rt; (told.kind, told.claim), (5, 6));
    assert_eq!(rt;
        (told.base, told.top, told.top_high),
        (0x4000_0100, 0x4000_0140, 0)
    );
}
