//! What a state holds, and whole texts.

use super::{BASE, after, first_state, record, with_block};
use byte_machine::{
    CallFault, CommandRecord, WordRecord, granule, register, run_report, run_states, state_length,
};
use heap_machine::Reply;
use heap_trace::{RunFault, TraceFault};
use trace_report::put_all;

// The capability of the block of 32 bytes: its address, and its metadata as memory has it.
const BLOCK: WordRecord = WordRecord {
    low: BASE,
    high: 0x003d_0000_0409_8004,
    tag: 1,
};

const NULL: WordRecord = WordRecord {
    low: 0,
    high: 0,
    tag: 0,
};

#[test]
fn registers_are_told(rt: HostRuntime) {
    let alloc = rt.alloc();
    let state = with_block(&rt, alloc);
    assert_eq!(rt; register(alloc, &state, 1), Ok(BLOCK));
    assert_eq!(rt; register(alloc, &state, 0), Ok(NULL));
    assert_eq!(rt; register(alloc, &state, 31), Ok(NULL));
    assert_eq!(rt; register(alloc, &state, 32), Err(CallFault::Register));
}

#[test]
fn granules_are_told(rt: HostRuntime) {
    let alloc = rt.alloc();
    let state = with_block(&rt, alloc);
    let bytes = CommandRecord {
        low: 0x0706_0504_0302_0100,
        high: 0x0f0e_0d0c_0b0a_0908,
        ..record(8, 1, 0, 0)
    };
    let state = after(&rt, alloc, &state, bytes, Reply::Done);
    let written = WordRecord {
        low: 0x0706_0504_0302_0100,
        high: 0x0f0e_0d0c_0b0a_0908,
        tag: 0,
    };
    assert_eq!(rt; granule(alloc, &state, BASE), Ok(written));
    let state = after(&rt, alloc, &state, record(6, 1, 1, 0), Reply::Done);
    assert_eq!(rt; granule(alloc, &state, BASE), Ok(BLOCK));
}

#[test]
fn granules_start_at_their_addresses(rt: HostRuntime) {
    let alloc = rt.alloc();
    let state = first_state(&rt, alloc);
    let rows = [
        (BASE, Ok(NULL)),
        (0x4000_0ff0, Ok(NULL)),
        (0x4000_1000, Err(CallFault::Address)),
        (0x4000_0008, Err(CallFault::Address)),
        (0x3fff_fff0, Err(CallFault::Address)),
        (u64::MAX, Err(CallFault::Address)),
    ];
    for (address, wanted) in rows {
        assert_eq!(rt; granule(alloc, &state, address), wanted);
    }
}

#[test]
fn lengths_are_told(rt: HostRuntime) {
    assert_eq!(rt; state_length(0), None);
    assert_eq!(rt; state_length(1), Some(5_934));
    assert_eq!(rt; state_length(1_024), Some(5_506_605));
    assert_eq!(rt; state_length(1_025), None);
}

#[test]
fn texts_are_run(rt: HostRuntime) {
    let alloc = rt.alloc();
    let text = b"heap 0x40000000 1\nmalloc c1 20\n";
    let report = run_report(alloc, text).expect(&rt, "it is a trace");
    let wanted = "2 malloc block 0x40000000 0x40000020\nend live 32 held 0 free 4064 tags 1\n";
    assert_eq!(rt; report.as_slice(), wanted.as_bytes());
    let told = run_states(alloc, b"heap 0x40000000 1\n").expect(&rt, "it is a trace");
    let wanted =
        "{\"heap\":{\"base\":\"0x40000000\",\"pages\":1}}\n{\"end\":{\"live\":0,\"held\":0,\"free\":4096,\"tags\":0}}\n";
    assert_eq!(rt; told.as_slice(), wanted.as_bytes());
}

#[test]
fn faults_of_texts_are_told(rt: HostRuntime) {
    let alloc = rt.alloc();
    let text = b"heap 0x40000000 1\nfrob\n";
    let wanted = RunFault::Trace(TraceFault::BadCommand(2));
    assert_eq!(rt; run_report(alloc, text).err(), Some(wanted));
    let wanted = RunFault::Trace(TraceFault::BadCommand(2));
    assert_eq!(rt; run_states(alloc, text).err(), Some(wanted));
}

#[test]
fn texts_are_copied_whole(rt: HostRuntime) {
    let mut out = [b'.'; 4];
    assert_eq!(rt; put_all(b"abcde", &mut out), Err(5));
    assert_eq!(rt; out, *b"....");
    assert_eq!(rt; put_all(b"abc", &mut out), Ok(3));
    assert_eq!(rt; out, *b"abc.");
    assert_eq!(rt; put_all(b"defg", &mut out), Ok(4));
    assert_eq!(rt; out, *b"defg");
}
