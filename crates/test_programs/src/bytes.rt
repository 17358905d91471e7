//! The machine as calls on bytes: steps, answers of other allocators, lines, looks and whole texts.

mod looks;
mod records;

use byte_machine::{CallFault, CommandRecord, command_of, counts, first, follow, step, step_line};
use heap_core::{Block, Obstacle};
use heap_machine::{Followed, Reply, Shown, Why};
use state_bytes::BytesFault;
use std::alloc::Global;
use std::process::Abort;
use trace_text::LineFault;

const BASE: u64 = 0x4000_0000;

// 13 bytes of a head, 21 for each of 256 granules, 17 for each of 32 registers, and one for the page.
const LENGTH: usize = 5_934;

// Room for the state of a page.
fn room(rt: &impl Abort, alloc: Global) -> Vec<u8> {
    vec![in alloc; 0x55; LENGTH].expect(rt, "there is memory")
}

// The first state of a page.
fn first_state(rt: &impl Abort, alloc: Global) -> Vec<u8> {
    let mut out = room(rt, alloc);
    assert_eq!(rt; first(alloc, BASE, 1, &mut out), Ok(()));
    out
}

// A command's record, which has no bytes.
fn record(kind: u8, first: u8, second: u8, number: u64) -> CommandRecord {
    CommandRecord {
        kind,
        first,
        second,
        number,
        low: 0,
        high: 0,
    }
}

// The state after a command, which is answered so.
fn after(
    rt: &impl Abort,
    alloc: Global,
    state: &[u8],
    record: CommandRecord,
    wanted: Reply,
) -> Vec<u8> {
    let mut out = room(rt, alloc);
    let Some(command) = command_of(record) else {
        assert!(rt; false);
        return out;
    };
    assert_eq!(rt; step(alloc, state, command, &mut out), Ok(wanted));
    out
}

// A state with a block of 32 bytes, in register 1.
fn with_block(rt: &impl Abort, alloc: Global) -> Vec<u8> {
    let state = first_state(rt, alloc);
    let block = Reply::Block {
        base: BASE,
        top: 0x4000_0020,
    };
    after(rt, alloc, &state, record(0, 1, 0, 20), block)
}

// The README's example, up to what it shows of the copy.
#[test]
fn steps_are_those_of_a_run(rt: HostRuntime) {
    let alloc = rt.alloc();
    let state = with_block(&rt, alloc);
    let next = Reply::Block {
        base: 0x4000_0020,
        top: 0x4000_0030,
    };
    let state = after(&rt, alloc, &state, record(0, 2, 0, 16), next);
    let state = after(&rt, alloc, &state, record(2, 3, 1, 0), Reply::Done);
    let shown = Shown {
        tag: true,
        address: BASE,
        base: BASE,
        top: 0x4000_0020,
        perms: 0x3d,
        otype: 0x3ffff,
        exponent: 0,
    };
    let same = after(&rt, alloc, &state, record(9, 3, 0, 0), Reply::Shown(shown));
    assert_eq!(rt; same.as_slice(), state.as_slice());
}

// Its end: register 0 stays null, and the block is handed out.
#[test]
fn register_0_keeps_nothing(rt: HostRuntime) {
    let alloc = rt.alloc();
    let state = with_block(&rt, alloc);
    let block = Reply::Block {
        base: 0x4000_0020,
        top: 0x4000_0060,
    };
    let state = after(&rt, alloc, &state, record(0, 0, 0, 64), block);
    let shown = Shown {
        tag: false,
        address: 0,
        base: 0,
        top: 1 << 64,
        perms: 0,
        otype: 0x3ffff,
        exponent: 52,
    };
    after(&rt, alloc, &state, record(9, 0, 0, 0), Reply::Shown(shown));
    let told = counts(alloc, &state).map(|told| (told.live, told.held, told.free, told.is_open));
    assert_eq!(rt; told, Ok((96, 0, 4_000, 0)));
}

// What a step answers, of these bytes, into a room of so many, in which nothing is written.
fn refused(rt: &impl Abort, alloc: Global, state: &[u8], length: usize) -> Option<CallFault> {
    let mut out = vec![in alloc; 0x55; length].expect(rt, "there is memory");
    let command = command_of(record(0, 1, 0, 20))?;
    let fault = step(alloc, state, command, &mut out).err();
    assert!(rt; out.iter().all(|byte| *byte == 0x55));
    fault
}

#[test]
fn lengths_off_by_one_are_refused(rt: HostRuntime) {
    let alloc = rt.alloc();
    let state = first_state(&rt, alloc);
    let faults = [
        (LENGTH, LENGTH - 1, CallFault::Room),
        (LENGTH, LENGTH + 1, CallFault::Room),
        (LENGTH - 1, LENGTH, CallFault::Room),
        (LENGTH - 1, LENGTH - 1, CallFault::State(BytesFault::Length)),
        (0, 0, CallFault::State(BytesFault::Length)),
    ];
    for (length, room, fault) in faults {
        if length <= state.len() {
            assert_eq!(rt; refused(&rt, alloc, &state[..length], room), Some(fault));
        }
    }
}

// Byte 12 says whether an epoch is open.
#[test]
fn other_bytes_are_no_state(rt: HostRuntime) {
    let alloc = rt.alloc();
    let mut state = first_state(&rt, alloc);
    if state.len() > 12 {
        state[12] = 2;
    }
    let spelling = CallFault::State(BytesFault::Spelling);
    assert_eq!(rt; refused(&rt, alloc, &state, LENGTH), Some(spelling));
}

#[test]
fn first_states_are_judged(rt: HostRuntime) {
    let alloc = rt.alloc();
    let mut out = room(&rt, alloc);
    assert_eq!(rt; first(alloc, BASE, 0, &mut out), Err(CallFault::BadSize));
    assert_eq!(rt;
        first(alloc, BASE, 1_025, &mut out),
        Err(CallFault::BadSize)
    );
    assert_eq!(rt;
        first(alloc, BASE + 1, 1, &mut out),
        Err(CallFault::BadBase)
    );
    assert_eq!(rt; first(alloc, BASE, 2, &mut out), Err(CallFault::Room));
    assert!(rt; out.iter().all(|byte| *byte == 0x55));
}

// A block that no first fit would choose, of more bytes than were asked for.
#[test]
fn other_places_are_followed(rt: HostRuntime) {
    let alloc = rt.alloc();
    let state = first_state(&rt, alloc);
    let mut out = room(&rt, alloc);
    let Some(command) = command_of(record(0, 1, 0, 20)) else {
        assert!(rt; false);
        return;
    };
    let block = Reply::Block {
        base: 0x4000_0100,
        top: 0x4000_0140,
    };
    let agrees = Ok(Followed::Agrees);
    assert_eq!(rt; follow(alloc, &state, command, block, &mut out), agrees);
    let live = counts(alloc, &out).map(|told| (told.live, told.free));
    assert_eq!(rt; live, Ok((64, 4_032)));
    // The same block again lies over the first.
    let mut last = room(&rt, alloc);
    let over = Block {
        base: 0x4000_0100,
        top: 0x4000_0140,
    };
    let differs = Ok(Followed::Differs(Why::Refused(Obstacle::OverLive(over))));
    assert_eq!(rt; follow(alloc, &out, command, block, &mut last), differs);
    assert!(rt; last.iter().all(|byte| *byte == 0x55));
}

#[test]
fn one_answer_is_told(rt: HostRuntime) {
    let alloc = rt.alloc();
    let state = first_state(&rt, alloc);
    let mut out = room(&rt, alloc);
    let Some(command) = command_of(record(2, 3, 1, 0)) else {
        assert!(rt; false);
        return;
    };
    let differs = Ok(Followed::Differs(Why::MustBe(Reply::Done)));
    assert_eq!(rt;
        follow(alloc, &state, command, Reply::NoSpace, &mut out),
        differs
    );
    let short = follow(alloc, &state, command, Reply::Done, &mut [0; 8]);
    assert_eq!(rt; short, Err(CallFault::Room));
}

#[test]
fn lines_are_stepped(rt: HostRuntime) {
    let alloc = rt.alloc();
    let state = first_state(&rt, alloc);
    let mut out = room(&rt, alloc);
    let mut text = [b'.'; 200];
    let count = step_line(alloc, &state, b"malloc c1 20", &mut out, &mut text);
    assert_eq!(rt; count, Ok(27));
    assert!(rt; text.starts_with(b"block 0x40000000 0x40000020.."));
    let wanted = with_block(&rt, alloc);
    assert_eq!(rt; out.as_slice(), wanted.as_slice());
}

#[test]
fn other_lines_are_refused(rt: HostRuntime) {
    let alloc = rt.alloc();
    let state = first_state(&rt, alloc);
    let mut out = room(&rt, alloc);
    let mut text = [b'.'; 200];
    let lines = [
        (
            b"malloc c1".as_slice(),
            CallFault::Line(LineFault::BadCount),
        ),
        (b"frob".as_slice(), CallFault::Line(LineFault::BadCommand)),
        (
            b"show c32".as_slice(),
            CallFault::Line(LineFault::BadRegister),
        ),
        (
            b"sweep\n".as_slice(),
            CallFault::Line(LineFault::BadCommand),
        ),
        (b" # sweep".as_slice(), CallFault::PassedOver),
        (b"".as_slice(), CallFault::PassedOver),
    ];
    for (line, fault) in lines {
        let told = step_line(alloc, &state, line, &mut out, &mut text);
        assert_eq!(rt; told, Err(fault));
    }
    let short = step_line(alloc, &state, b"sweep", &mut out, &mut [b'.'; 199]);
    assert_eq!(rt; short, Err(CallFault::TextRoom));
    assert!(rt; out.iter().all(|byte| *byte == 0x55));
    assert!(rt; text.iter().all(|byte| *byte == b'.'));
}

#[test]
fn a_line_is_read_before_the_room_and_that_before_the_state(rt: HostRuntime) {
    let alloc = rt.alloc();
    let state = first_state(&rt, alloc);
    let none = room(&rt, alloc);
    let mut out = room(&rt, alloc);
    let mut short = vec![in alloc; 0x55; LENGTH - 1].expect(&rt, "there is memory");
    let mut text = [b'.'; 200];
    let register = Err(CallFault::Line(LineFault::BadRegister));
    let told = step_line(alloc, &state, b"show c32", &mut short, &mut text);
    assert_eq!(rt; told, register);
    let told = step_line(alloc, &none, b"show c32", &mut out, &mut text);
    assert_eq!(rt; told, register);
    let told = step_line(alloc, &none, b"show c1", &mut short, &mut text);
    assert_eq!(rt; told, Err(CallFault::Room));
}
