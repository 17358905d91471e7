//! Words that the program is called with. It reads nothing for them.

use crate::devices::{Broken, Fixed, Short};
use heap_command::tool;
use std::alloc::Global;
use std::thread::Threads;

// What the program writes for these words through such a writer, after its exit status.
fn answer<R: Threads + Sync>(
    rt: &R,
    alloc: Global,
    words: &[&str],
    step: usize,
    room: usize,
) -> (u8, Vec<u8>) {
    let mut reader = Broken::new();
    let mut writer = Short {
        taken: Vec::new(alloc),
        step,
        room,
        has_failed: false,
    };
    let status = tool(rt, alloc, words, &mut reader, &mut writer);
    (status, writer.taken)
}

const USAGE: &str =
    "usage: heap_tool run [--workers N] [--cut N] [--image] or heap_tool word HEX\n";

const NULL: &str =
    "address 0x0 base 0x0 top 0x10000000000000000 perms 0x0 reserved 0 flag 0 type 0x3ffff internal 1 exponent 52 topfield 0x6 basefield 0x4\n";

#[test]
fn words_are_shown(rt: HostRuntime) {
    let rows = [
        ("00000000000000000000000000000000", NULL),
        (
            "00000040000000000480090400003d00",
            "address 0x40000000 base 0x40000000 top 0x40000020 perms 0x3d reserved 0 flag 0 type 0x3ffff internal 0 exponent 0 topfield 0x20 basefield 0x0\n",
        ),
        (
            "00000000000000000340000000000000",
            "address 0x0 base 0x0 top 0x10000000000000000 perms 0x0 reserved 0 flag 0 type 0x3ffff internal 1 exponent 52 topfield 0x7 basefield 0x7\n",
        ),
        (
            "ffffffffffffffffffffffffffffffff",
            "address 0xffffffffffffffff base 0xfffffffffffffffb top 0x10000000000000ff9 perms 0xffff reserved 3 flag 1 type 0x0 internal 0 exponent 0 topfield 0xff9 basefield 0x3ffb\n",
        ),
        (
            "00000040000000000480010000000000",
            "address 0x40000000 base 0x40000000 top 0x40001000 perms 0x0 reserved 0 flag 0 type 0x3ffff internal 1 exponent 0 topfield 0x0 basefield 0x0\n",
        ),
        (
            "00000040000000000480090400003D00",
            "address 0x40000000 base 0x40000000 top 0x40000020 perms 0x3d reserved 0 flag 0 type 0x3ffff internal 0 exponent 0 topfield 0x20 basefield 0x0\n",
        ),
    ];
    for (hex, line) in rows {
        let (status, text) = answer(&rt, rt.alloc(), &["heap_tool", "word", hex], 1000, 1000);
        assert_eq!(rt; status, 0);
        assert_eq!(rt; text.as_slice(), line.as_bytes());
    }
}

#[test]
fn other_words_are_refused(rt: HostRuntime) {
    let all: [&[&str]; 25] = [
        &[],
        &["heap_tool"],
        &["heap_tool", "00000000000000000000000000000000"],
        &["heap_tool", "frob"],
        &["heap_tool", "run", "trace"],
        &["heap_tool", "run", "--image", "--image"],
        &["heap_tool", "run", "--image=true"],
        &["heap_tool", "run", "run"],
        &["heap_tool", "run", "--help"],
        &["heap_tool", "--frob"],
        &["heap_tool", "--help"],
        &["heap_tool", "-h"],
        &["heap_tool", "--version"],
        &["heap_tool", "help"],
        &["heap_tool", "word"],
        &["heap_tool", "word", ""],
        &["heap_tool", "word", "00"],
        &["heap_tool", "word", "0000000000000000000000000000000"],
        &["heap_tool", "word", "000000000000000000000000000000000"],
        &["heap_tool", "word", "0000000000000000000000000000000g"],
        &["heap_tool", "word", "+0000000000000000000000000000000"],
        &["heap_tool", "word", "-0000000000000000000000000000000"],
        &["heap_tool", "word", "0x000000000000000000000000000000"],
        &["heap_tool", "word", " 000000000000000000000000000000 "],
        &[
            "heap_tool",
            "word",
            "--frob",
            "00000000000000000000000000000000",
        ],
    ];
    for words in all {
        let (status, text) = answer(&rt, rt.alloc(), words, 1000, 1000);
        assert_eq!(rt; status, 2);
        assert_eq!(rt; text.as_slice(), USAGE.as_bytes());
    }
}

#[test]
fn other_numbers_are_refused(rt: HostRuntime) {
    let rows = [
        ("--workers", "0"),
        ("--workers", "65"),
        ("--workers", "x"),
        ("--workers", "-1"),
        ("--workers", ""),
        ("--cut", "0"),
        ("--cut", "257"),
        ("--cut", "x"),
        ("--cut", "-1"),
        ("--cut", ""),
    ];
    for (option, value) in rows {
        let words = ["heap_tool", "run", option, value];
        let (status, text) = answer(&rt, rt.alloc(), &words, 1000, 1000);
        assert_eq!(rt; status, 2);
        assert_eq!(rt; text.as_slice(), USAGE.as_bytes());
    }
    let all: [&[&str]; 6] = [
        &["heap_tool", "run", "--workers"],
        &["heap_tool", "run", "--cut"],
        &["heap_tool", "run", "--workers", "--cut"],
        &["heap_tool", "run", "--workers", "2", "--workers", "2"],
        &["heap_tool", "run", "--cut", "2", "--cut", "2"],
        &["heap_tool", "--workers", "2", "run"],
    ];
    for words in all {
        let (status, text) = answer(&rt, rt.alloc(), words, 1000, 1000);
        assert_eq!(rt; status, 2);
        assert_eq!(rt; text.as_slice(), USAGE.as_bytes());
    }
}

#[test]
fn words_past_the_first_are_refused(rt: HostRuntime) {
    let hex = "00000000000000000000000000000000";
    let all: [&[&str]; 3] = [
        &["heap_tool", "word", hex, hex],
        &["heap_tool", "word", hex, "word", hex],
        &["heap_tool", "word", hex, "--help"],
    ];
    for words in all {
        let (status, text) = answer(&rt, rt.alloc(), words, 1000, 1000);
        assert_eq!(rt; status, 2);
        assert_eq!(rt; text.as_slice(), USAGE.as_bytes());
    }
}

#[test]
fn short_writes_are_continued(rt: HostRuntime) {
    let hex = "00000000000000000000000000000000";
    let (status, text) = answer(&rt, rt.alloc(), &["heap_tool", "word", hex], 1, 1000);
    assert_eq!(rt; status, 0);
    assert_eq!(rt; text.as_slice(), NULL.as_bytes());
    let (status, text) = answer(&rt, rt.alloc(), &["heap_tool"], 1, 1000);
    assert_eq!(rt; status, 2);
    assert_eq!(rt; text.as_slice(), USAGE.as_bytes());
}

#[test]
fn failed_writes_leave_a_beginning(rt: HostRuntime) {
    let hex = "00000000000000000000000000000000";
    for room in 0..NULL.len() {
        let (status, text) = answer(&rt, rt.alloc(), &["heap_tool", "word", hex], 7, room);
        assert_eq!(rt; status, 4);
        assert_eq!(rt; text.as_slice(), &NULL.as_bytes()[..room]);
    }
    for room in 0..USAGE.len() {
        let (status, text) = answer(&rt, rt.alloc(), &["heap_tool", "frob"], 1000, room);
        assert_eq!(rt; status, 4);
        assert_eq!(rt; text.as_slice(), &USAGE.as_bytes()[..room]);
    }
}

// Run with each allocation refused in turn, too.
#[test]
fn a_refused_allocation_is_told(rt: HostRuntime) {
    let words = ["heap_tool", "word", "00000000000000000000000000000000"];
    let mut reader = Broken::new();
    let mut writer = Fixed::new();
    let status = tool(&rt, rt.alloc(), &words, &mut reader, &mut writer);
    let text = writer.text();
    if status == 1 {
        assert_eq!(rt; text, b"fault memory\n".as_slice());
    } else {
        assert_eq!(rt; status, 0);
        assert_eq!(rt; text, NULL.as_bytes());
    }
}
