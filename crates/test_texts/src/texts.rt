//! Texts with the traces and the faults that the trace language gives them.

use std::alloc::{AllocError, Global};
use trace_text::{Command, Trace, TraceFault, parse};

#[test]
fn texts_without_a_heap_line(rt: HostRuntime) {
    let cases = [
        ("", TraceFault::NoHeap(1)),
        ("\n", TraceFault::NoHeap(2)),
        ("# x\n", TraceFault::NoHeap(2)),
        ("# x\n\n \t\r\n#y", TraceFault::NoHeap(5)),
        ("malloc c1 16\nheap 0x40000000 1\n", TraceFault::NoHeap(1)),
        ("# x\n\nheaps 0x40000000 1\n", TraceFault::NoHeap(3)),
    ];
    for (text, fault) in cases {
        let answer = parse(rt.alloc(), text.as_bytes()).err();
        assert_eq!(rt; answer, Some(fault), "{text:?}");
    }
}

#[test]
fn heap_lines_with_a_fault(rt: HostRuntime) {
    let cases = [
        "heap 0x40000008 1",
        "heap 0x40000000 0",
        "heap 0x40000000 1025",
        "heap 0xfffffffffffff000 2",
        "heap 0x40000000",
        "heap 0x40000000 1 1",
        "heap 0x40000000 c1",
        "heap",
    ];
    for text in cases {
        let answer = parse(rt.alloc(), text.as_bytes()).err();
        assert_eq!(rt; answer, Some(TraceFault::BadHeap(1)), "{text:?}");
    }
}

// What a text answers whose first line is a heap line.
fn after_heap(alloc: Global, lines: &[u8]) -> Result<Result<Trace, TraceFault>, AllocError> {
    let mut text = Vec::from_slice(alloc, b"heap 0x40000000 1\n")?;
    text.extend_from_slice(lines)?;
    Ok(parse(alloc, &text))
}

// The same where so much follows that one look takes in each of the lines with its end.
fn before_more_text(alloc: Global, lines: &[u8]) -> Result<Result<Trace, TraceFault>, AllocError> {
    let mut text = Vec::from_slice(alloc, b"heap 0x40000000 1\n")?;
    text.extend_from_slice(lines)?;
    text.extend_from_slice(
        b"\n# a comment that is longer than the 64 bytes that are looked at together\n",
    )?;
    Ok(parse(alloc, &text))
}

#[test]
fn command_lines_with_a_fault(rt: HostRuntime) {
    let cases = [
        ("frob", TraceFault::BadCommand(2)),
        ("MALLOC c1 16", TraceFault::BadCommand(2)),
        ("heap 0x40000000 1", TraceFault::BadCommand(2)),
        ("frees c1", TraceFault::BadCommand(2)),
        ("FREE c1", TraceFault::BadCommand(2)),
        ("swee", TraceFault::BadCommand(2)),
        ("Sweep", TraceFault::BadCommand(2)),
        ("malloc", TraceFault::BadCount(2)),
        ("malloc c1", TraceFault::BadCount(2)),
        ("malloc x", TraceFault::BadCount(2)),
        ("show c1 c2", TraceFault::BadCount(2)),
        ("free", TraceFault::BadCount(2)),
        ("free c1 c2", TraceFault::BadCount(2)),
        ("free x y", TraceFault::BadCount(2)),
        ("sweep now", TraceFault::BadCount(2)),
        ("sweep c1", TraceFault::BadCount(2)),
        ("sweep # all", TraceFault::BadCount(2)),
        ("begin now", TraceFault::BadCount(2)),
        ("end c1", TraceFault::BadCount(2)),
        ("Begin", TraceFault::BadCommand(2)),
        ("ends", TraceFault::BadCommand(2)),
        ("free x", TraceFault::BadRegister(2)),
        ("free 1", TraceFault::BadRegister(2)),
        ("free c32", TraceFault::BadRegister(2)),
        ("malloc x y", TraceFault::BadRegister(2)),
        ("malloc c01 16", TraceFault::BadRegister(2)),
        ("malloc c1 y", TraceFault::BadNumber(2)),
        ("copy c1 c32", TraceFault::BadRegister(2)),
        ("setaddr c1 c2", TraceFault::BadCount(2)),
        ("narrow c1 c2 3 4", TraceFault::BadCount(2)),
        ("setaddr c1 32 x", TraceFault::BadRegister(2)),
        ("narrow c1 c2 x", TraceFault::BadNumber(2)),
        ("andperm c32 c2 x", TraceFault::BadRegister(2)),
        ("andperm c1 c2 65536", TraceFault::BadNumber(2)),
        ("andperm c1 c1 65536", TraceFault::BadNumber(2)),
        ("andperm c1 c2 0x10000", TraceFault::BadNumber(2)),
        ("storecap c1", TraceFault::BadCount(2)),
        ("loadcap c1 c32", TraceFault::BadRegister(2)),
        ("write c1", TraceFault::BadCount(2)),
        ("write x y", TraceFault::BadRegister(2)),
        (
            "write c1 0x0102030405060708090a0b0c0d0e0f",
            TraceFault::BadData(2),
        ),
        (
            "write c1 000102030405060708090a0b0c0d0e0g",
            TraceFault::BadData(2),
        ),
        (
            "write c1 000102030405060708090a0b0c0d0e0f0",
            TraceFault::BadData(2),
        ),
    ];
    for (line, fault) in cases {
        let at_end = after_heap(rt.alloc(), line.as_bytes());
        let before = before_more_text(rt.alloc(), line.as_bytes());
        for read in [at_end, before] {
            let answer = read.expect(&rt, "there is memory").err();
            assert_eq!(rt; answer.as_ref(), Some(&fault), "{line:?}");
        }
    }
}

#[test]
fn the_first_faulty_line_decides(rt: HostRuntime) {
    let cases = [
        ("malloc c32 16\nfrob\n", TraceFault::BadRegister(2)),
        ("show c1\n# x\n\nmalloc c1", TraceFault::BadCount(5)),
        ("show c1\nmalloc c1 y\nshow\nfrob", TraceFault::BadNumber(3)),
    ];
    for (lines, fault) in cases {
        let answer = after_heap(rt.alloc(), lines.as_bytes())
            .expect(&rt, "there is memory")
            .err();
        assert_eq!(rt; answer, Some(fault), "{lines:?}");
    }
}

#[test]
fn words_that_are_no_register(rt: HostRuntime) {
    for word in [
        "c", "c01", "c00", "c32", "c99", "c100", "C1", "x1", "1", "c+1", "c1x",
    ] {
        let line = format!(in rt.alloc(); "show {word}").expect(&rt, "there is memory");
        let at_end = after_heap(rt.alloc(), line.as_bytes());
        let before = before_more_text(rt.alloc(), line.as_bytes());
        for read in [at_end, before] {
            let answer = read.expect(&rt, "there is memory").err();
            assert_eq!(rt; answer, Some(TraceFault::BadRegister(2)), "{word:?}");
        }
    }
}

#[test]
fn words_that_are_no_number(rt: HostRuntime) {
    let cases = [
        "18446744073709551616",
        "000000000000000000001",
        "0x",
        "0x00000000000000001",
        "0X10",
        "+1",
        "-1",
        "0x+1",
        "1a",
        "0xg",
        "0x1g",
    ];
    for word in cases {
        let line = format!(in rt.alloc(); "malloc c1 {word}").expect(&rt, "there is memory");
        let at_end = after_heap(rt.alloc(), line.as_bytes());
        let before = before_more_text(rt.alloc(), line.as_bytes());
        for read in [at_end, before] {
            let answer = read.expect(&rt, "there is memory").err();
            assert_eq!(rt; answer, Some(TraceFault::BadNumber(2)), "{word:?}");
        }
    }
}

#[test]
fn words_that_are_fine(rt: HostRuntime) {
    let cases = [
        ("malloc c0 0", Command::Malloc { rd: 0, size: 0 }),
        ("malloc c31 0xFf", Command::Malloc { rd: 31, size: 255 }),
        ("malloc c10 4080", Command::Malloc { rd: 10, size: 4080 }),
        (
            "malloc c1 00000000000000000016",
            Command::Malloc { rd: 1, size: 16 },
        ),
        (
            "malloc c1 0x0000000000000fF0",
            Command::Malloc { rd: 1, size: 4080 },
        ),
        ("\tmalloc c1 16\r", Command::Malloc { rd: 1, size: 16 }),
        (" copy \t c9\rc29 ", Command::Copy { rd: 9, rs: 29 }),
        ("show c2\n", Command::Show { rs: 2 }),
        ("free c3", Command::Free { rs: 3 }),
        ("\r free\t\tc31 \r\n", Command::Free { rs: 31 }),
        ("sweep", Command::Sweep),
        ("begin", Command::Begin),
        (" end \r", Command::End),
        ("sweep\n# all", Command::Sweep),
        (" \t\rsweep\t \r\n", Command::Sweep),
        ("storecap c5 c6", Command::StoreCap { ra: 5, rs: 6 }),
        ("loadcap c5 c6", Command::LoadCap { rd: 5, ra: 6 }),
        (
            "write c5 000102030405060708090A0b0c0d0e0f",
            Command::Write {
                ra: 5,
                bytes: [0, 1, 2, 3, 4, 5, 6, 7, 8, 9, 10, 11, 12, 13, 14, 15],
            },
        ),
        (
            "malloc c1 18446744073709551615",
            Command::Malloc {
                rd: 1,
                size: u64::MAX,
            },
        ),
        (
            "setaddr c3 c4 0xffffffffffffffff",
            Command::SetAddr {
                rd: 3,
                rs: 4,
                address: u64::MAX,
            },
        ),
        (
            "narrow c3 c4 0",
            Command::Narrow {
                rd: 3,
                rs: 4,
                length: 0,
            },
        ),
        (
            "andperm c3 c4 65535",
            Command::AndPerm {
                rd: 3,
                rs: 4,
                mask: u16::MAX,
            },
        ),
    ];
    for (line, command) in cases {
        let at_end = after_heap(rt.alloc(), line.as_bytes());
        let before = before_more_text(rt.alloc(), line.as_bytes());
        for read in [at_end, before] {
            let trace = read
                .expect(&rt, "there is memory")
                .expect(&rt, "it is a trace");
            assert_eq!(rt;
                trace.commands.as_slice(),
                [(2, command)].as_slice(),
                "{line:?}"
            );
        }
    }
}

// Two lines with so many blanks between the second word and the third, and an empty line between them.
fn wide_lines(alloc: Global, blanks: usize) -> Result<Vec<u8>, AllocError> {
    let mut lines = Vec::new(alloc);
    for _ in 0..2 {
        lines.extend_from_slice(b"malloc c1")?;
        for _ in 0..blanks {
            lines.push(b' ')?;
        }
        lines.extend_from_slice(b"16\n\n")?;
    }
    Ok(lines)
}

// Of 60 to 70 bytes, where one look takes in 64.
#[test]
fn lines_about_as_long_as_a_look(rt: HostRuntime) {
    let command = Command::Malloc { rd: 1, size: 16 };
    for blanks in 49..60 {
        let lines = wide_lines(rt.alloc(), blanks).expect(&rt, "there is memory");
        let at_end = after_heap(rt.alloc(), &lines);
        let before = before_more_text(rt.alloc(), &lines);
        for read in [at_end, before] {
            let trace = read
                .expect(&rt, "there is memory")
                .expect(&rt, "it is a trace");
            assert_eq!(rt;
                trace.commands.as_slice(),
                [(2, command), (4, command)].as_slice(),
                "{blanks} blanks"
            );
        }
    }
}

// Bytes 0, 8, 11 and 12, and those that would be blanks, feeds or digits without their highest bit.
#[test]
fn bytes_that_are_no_text(rt: HostRuntime) {
    let cases: [(&[u8], Option<TraceFault>); 19] = [
        (b"# \xff\x00\x0b\x8a", None),
        (b"sh\xffow c1", Some(TraceFault::BadCommand(2))),
        (b"show\x0bc1", Some(TraceFault::BadCommand(2))),
        (b"show\x00c1", Some(TraceFault::BadCommand(2))),
        (b"show\x08c1", Some(TraceFault::BadCommand(2))),
        (b"show\x0cc1", Some(TraceFault::BadCommand(2))),
        (b"show\xa0c1", Some(TraceFault::BadCommand(2))),
        (b"show\x89c1", Some(TraceFault::BadCommand(2))),
        (b"show\x8dc1", Some(TraceFault::BadCommand(2))),
        (b"show\x8ashow c1", Some(TraceFault::BadCommand(2))),
        (b"\x0bsweep", Some(TraceFault::BadCommand(2))),
        (b"sweep \x0b", Some(TraceFault::BadCount(2))),
        (b"sweep \x00", Some(TraceFault::BadCount(2))),
        (b"sweep \xff", Some(TraceFault::BadCount(2))),
        (b"show c\xff", Some(TraceFault::BadRegister(2))),
        (b"show c\xb1", Some(TraceFault::BadRegister(2))),
        (b"show c1\x0b", Some(TraceFault::BadRegister(2))),
        (b"malloc c1 \xb1", Some(TraceFault::BadNumber(2))),
        (b"malloc c1 0x\xb1", Some(TraceFault::BadNumber(2))),
    ];
    for (line, fault) in cases {
        let at_end = after_heap(rt.alloc(), line);
        let before = before_more_text(rt.alloc(), line);
        for read in [at_end, before] {
            let answer = read.expect(&rt, "there is memory").err();
            assert_eq!(rt; answer.as_ref(), fault.as_ref(), "{line:?}");
        }
    }
}

const SMALL: &[u8] =
    b"# a heap\n\nheap 0xfffffffffffff000 1\r\nmalloc c1 32\n # x\ncopy c2 c1\nshow c2";

fn is_small(trace: &Trace) -> bool {
    let commands = [
        (4, Command::Malloc { rd: 1, size: 32 }),
        (6, Command::Copy { rd: 2, rs: 1 }),
        (7, Command::Show { rs: 2 }),
    ];
    trace.base == 0xffff_ffff_ffff_f000
        && trace.pages == 1
        && trace.commands.as_slice() == commands.as_slice()
}

#[test]
fn a_trace_with_its_line_numbers(rt: HostRuntime) {
    let small = parse(rt.alloc(), SMALL).expect(&rt, "it is a trace");
    assert!(rt; is_small(&small), "{small:?}");
    let empty = parse(rt.alloc(), b"heap 4096 1024").expect(&rt, "it is a trace");
    assert_eq!(rt;
        (empty.base, empty.pages, empty.commands.len()),
        (4096, 1024, 0)
    );
}

#[test]
fn a_refused_allocation_is_told(rt: HostRuntime) {
    match parse(rt.alloc(), SMALL) {
        Ok(trace) => assert!(rt; is_small(&trace), "{trace:?}"),
        Err(fault) => assert_eq!(rt; fault, TraceFault::Memory),
    }
}

#[test]
fn a_text_that_is_too_long(rt: HostRuntime) {
    let mut text = vec![in rt.alloc(); b'#'; 4_194_304].expect(&rt, "there is memory");
    assert_eq!(rt; parse(rt.alloc(), &text).err(), Some(TraceFault::NoHeap(2)));
    text.push(b'\n').expect(&rt, "there is memory");
    assert_eq!(rt; parse(rt.alloc(), &text).err(), Some(TraceFault::TooLong));
}

#[test]
fn commands_that_are_valid(rt: HostRuntime) {
    let cases = [
        (
            Command::Malloc {
                rd: 31,
                size: u64::MAX,
            },
            true,
        ),
        (Command::Malloc { rd: 32, size: 1 }, false),
        (Command::Copy { rd: 0, rs: 31 }, true),
        (Command::Copy { rd: 32, rs: 0 }, false),
        (Command::Copy { rd: 0, rs: 32 }, false),
        (
            Command::SetAddr {
                rd: 31,
                rs: 0,
                address: u64::MAX,
            },
            true,
        ),
        (
            Command::SetAddr {
                rd: 0,
                rs: 32,
                address: 0,
            },
            false,
        ),
        (
            Command::Narrow {
                rd: 32,
                rs: 0,
                length: 1,
            },
            false,
        ),
        (
            Command::AndPerm {
                rd: 0,
                rs: 255,
                mask: 0,
            },
            false,
        ),
        (Command::StoreCap { ra: 32, rs: 0 }, false),
        (Command::LoadCap { rd: 0, ra: 32 }, false),
        (
            Command::Write {
                ra: 32,
                bytes: [0; 16],
            },
            false,
        ),
        (Command::Show { rs: 31 }, true),
        (Command::Show { rs: 32 }, false),
        (Command::Free { rs: 31 }, true),
        (Command::Free { rs: 32 }, false),
        (Command::Sweep, true),
        (Command::Begin, true),
        (Command::End, true),
    ];
    for (command, valid) in cases {
        assert_eq!(rt; command.is_valid(), valid, "{command:?}");
    }
}

#[test]
fn faults_by_their_names(rt: HostRuntime) {
    let cases = [
        (TraceFault::Memory, "memory"),
        (TraceFault::TooLong, "too-long"),
        (TraceFault::NoHeap(1), "no-heap 1"),
        (TraceFault::BadHeap(1), "bad-heap 1"),
        (TraceFault::BadCommand(2), "bad-command 2"),
        (TraceFault::BadCount(2), "bad-count 2"),
        (TraceFault::BadRegister(2), "bad-register 2"),
        (TraceFault::BadNumber(2), "bad-number 2"),
        (TraceFault::BadData(2), "bad-data 2"),
    ];
    for (fault, name) in cases {
        let message = format!(in rt.alloc(); "{fault}").expect(&rt, "there is memory");
        assert_eq!(rt; message.as_str(), name);
    }
}
