//! Texts with the logs and the faults that the language of logs gives them.

use heap_reply::{Reply, Shown, Trap};
use log_text::{Event, Given, Log, LogFault, parse};
use std::alloc::{AllocError, Global};
use trace_text::{Command, TraceFault};

const SMALL: &[u8] = b"heap 0x40000000 16
malloc c1 20 -> block 0x40000100 0x40000120
free c1 -> held 32
malloc c2 16 -> block 0x40000100 0x40000110
";

fn is_small(log: &Log) -> bool {
    let events = [
        (
            2,
            Event::Done {
                command: Command::Malloc { rd: 1, size: 20 },
                answer: Reply::Block {
                    base: 0x4000_0100,
                    top: 0x4000_0120,
                },
            },
        ),
        (
            3,
            Event::Done {
                command: Command::Free { rs: 1 },
                answer: Reply::Held(32),
            },
        ),
        (
            4,
            Event::Done {
                command: Command::Malloc { rd: 2, size: 16 },
                answer: Reply::Block {
                    base: 0x4000_0100,
                    top: 0x4000_0110,
                },
            },
        ),
    ];
    (log.base, log.pages) == (0x4000_0000, 16)
        && log.givens.is_empty()
        && &*log.events == events.as_slice()
}

#[test]
fn a_log_with_its_line_numbers(rt: HostRuntime) {
    let small = parse(rt.alloc(), SMALL).expect(&rt, "it is a log");
    assert!(rt; is_small(&small), "{small:?}");
}

// What a text answers whose first line is a heap line.
fn after_heap(alloc: Global, lines: &[u8]) -> Result<Result<Log, LogFault>, AllocError> {
    let mut text = Vec::from_slice(alloc, b"heap 0x40000000 1\n")?;
    text.extend_from_slice(lines)?;
    Ok(parse(alloc, &text))
}

// The same where so much follows that one look takes in each of the lines with its end.
fn before_more_text(alloc: Global, lines: &[u8]) -> Result<Result<Log, LogFault>, AllocError> {
    let mut text = Vec::from_slice(alloc, b"heap 0x40000000 1\n")?;
    text.extend_from_slice(lines)?;
    text.extend_from_slice(
        b"\n# a comment that is longer than the 64 bytes that are looked at together\n",
    )?;
    Ok(parse(alloc, &text))
}

// Whether the event of the only line says that a sweep was answered so.
fn is_answer(log: &Log, answer: Reply) -> bool {
    let event = Event::Done {
        command: Command::Sweep,
        answer,
    };
    &*log.events == [(2, event)].as_slice()
}

#[test]
fn answers_by_their_words(rt: HostRuntime) {
    let shown = Shown {
        top: 1 << 64,
        address: 0x4000_0000,
        base: 0,
        otype: 0x3_ffff,
        perms: 0x3d,
        exponent: 52,
        tag: true,
    };
    let cases = [
        ("sweep -> block 0x0 0x10", Reply::Block { base: 0, top: 16 }),
        (
            "sweep -> block 0xffffffffffffffff 0xffffffffffffffffffffffffffffffff",
            Reply::Block {
                base: u64::MAX,
                top: u128::MAX,
            },
        ),
        (
            "sweep -> block 0x40000100 0x40000110 swept 3",
            Reply::BlockAfter {
                base: 0x4000_0100,
                top: 0x4000_0110,
                cleared: 3,
            },
        ),
        ("sweep -> nospace", Reply::NoSpace),
        (
            "sweep -> nospace swept 0",
            Reply::NoSpaceAfter { cleared: 0 },
        ),
        ("sweep -> held 32", Reply::Held(32)),
        ("sweep -> held 18446744073709551615", Reply::Held(u64::MAX)),
        ("sweep -> ok", Reply::Done),
        ("sweep -> cleared", Reply::Cleared),
        (
            "sweep -> cleared 2 released 32",
            Reply::Swept {
                cleared: 2,
                released: 32,
            },
        ),
        ("sweep -> cleared 0", Reply::Begun { cleared: 0 }),
        (
            "sweep -> cleared 4294967295",
            Reply::Begun { cleared: u32::MAX },
        ),
        (
            "sweep -> tag 1 address 0x40000000 base 0x0 top 0x10000000000000000 perms 0x3d type 0x3ffff exponent 52",
            Reply::Shown(shown),
        ),
    ];
    for (line, reply) in cases {
        let at_end = after_heap(rt.alloc(), line.as_bytes());
        let before = before_more_text(rt.alloc(), line.as_bytes());
        for read in [at_end, before] {
            let log = read
                .expect(&rt, "there is memory")
                .expect(&rt, "it is a log");
            assert!(rt; is_answer(&log, reply), "{line:?}");
        }
    }
}

#[test]
fn traps_by_their_words(rt: HostRuntime) {
    let cases = [
        ("sweep -> trap tag", Trap::Tag),
        ("sweep -> trap perm", Trap::Perm),
        ("sweep -> trap bounds", Trap::Bounds),
        ("sweep -> trap align", Trap::Align),
        ("sweep -> trap empty", Trap::Empty),
        ("sweep -> trap inexact", Trap::Inexact),
        ("sweep -> trap freed", Trap::Freed),
        ("sweep -> trap notblock", Trap::NotBlock),
        ("sweep -> trap open", Trap::Open),
        ("sweep -> trap notopen", Trap::NotOpen),
    ];
    for (line, trap) in cases {
        let read = before_more_text(rt.alloc(), line.as_bytes());
        let log = read
            .expect(&rt, "there is memory")
            .expect(&rt, "it is a log");
        assert!(rt; is_answer(&log, Reply::Trap(trap)), "{line:?}");
    }
}

#[test]
fn lines_without_an_answer(rt: HostRuntime) {
    let cases = [
        "sweep -> block 0x00 0x10",
        "sweep -> block 0X0 0x10",
        "sweep -> block 0xA 0x10",
        "sweep -> block 16 32",
        "sweep -> block 0x10",
        "sweep -> block 0x10 0x20 swept",
        "sweep -> block 0x10 0x20 swept 1 2",
        "sweep -> block 0x10 0x20 1",
        "sweep -> block 0x 0x20",
        "sweep -> block 0x10000000000000000 0x20",
        "sweep -> block 0x0 0x100000000000000000000000000000000",
        "sweep -> held 032",
        "sweep -> held 0x20",
        "sweep -> held 18446744073709551616",
        "sweep -> cleared 4294967296",
        "sweep -> cleared 2 released",
        "sweep -> cleared 2 freed 32",
        "sweep -> nospace 3",
        "sweep -> trap",
        "sweep -> trap TAG",
        "sweep -> trap tag tag",
        "sweep -> ok ok",
        "sweep -> OK",
        "sweep -> ok # fine",
        "sweep -> tag 2 address 0x0 base 0x0 top 0x0 perms 0x0 type 0x0 exponent 0",
        "sweep -> tag 1 address 0x0 base 0x0 top 0x0 perms 0x10000 type 0x0 exponent 0",
        "sweep -> tag 1 address 0x0 base 0x0 top 0x0 perms 0x0 type 0x0 exponent 256",
        "sweep -> tag 1 address 0x0 base 0x0 top 0x0 perms 0x0 type 0x0 exponent",
        "sweep -> -> ok",
        "sweep ->",
        "sweep",
        "granule 0x40000000 -> 2 00000000000000000000000000000000",
        "granule 0x40000000 -> 1 0000000000000000000000000000000",
        "granule 0x40000000 -> 1",
        "granule 0x40000000 -> ok",
        "granule 0x40000000",
    ];
    for line in cases {
        let at_end = after_heap(rt.alloc(), line.as_bytes());
        let before = before_more_text(rt.alloc(), line.as_bytes());
        for read in [at_end, before] {
            let answer = read.expect(&rt, "there is memory").err();
            assert_eq!(rt; answer, Some(LogFault::BadAnswer(2)), "{line:?}");
        }
    }
}

#[test]
fn words_before_an_arrow_with_a_fault(rt: HostRuntime) {
    let cases = [
        ("-> ok", TraceFault::BadCommand(2)),
        ("frob -> ok", TraceFault::BadCommand(2)),
        ("Granule 0x0 -> ok", TraceFault::BadCommand(2)),
        ("heap 0x40000000 1 -> ok", TraceFault::BadCommand(2)),
        ("malloc -> nospace", TraceFault::BadCount(2)),
        (
            "malloc c1 20->block 0x40000100 0x40000120",
            TraceFault::BadCount(2),
        ),
        ("malloc c1 20->block", TraceFault::BadNumber(2)),
        ("malloc c1 1 1", TraceFault::BadCount(2)),
        ("malloc c32 1 -> nospace", TraceFault::BadRegister(2)),
        ("malloc c32 1 -> frob", TraceFault::BadRegister(2)),
        ("malloc c32 1", TraceFault::BadRegister(2)),
        ("andperm c1 c2 65536 -> ok", TraceFault::BadNumber(2)),
        ("write c1 00 -> ok", TraceFault::BadData(2)),
        ("granule", TraceFault::BadCount(2)),
        ("granule 0x0 0x0 -> 0 00", TraceFault::BadCount(2)),
        ("granule c1 -> 0 00", TraceFault::BadNumber(2)),
    ];
    for (line, fault) in cases {
        let read = before_more_text(rt.alloc(), line.as_bytes());
        let answer = read.expect(&rt, "there is memory").err();
        assert_eq!(rt; answer, Some(LogFault::Trace(fault)), "{line:?}");
    }
}

#[test]
fn granules_that_were_seen(rt: HostRuntime) {
    let lines =
        b"granule 0x40000010 -> 1 000102030405060708090A0b0c0d0e0f\r\n\tgranule 32  ->  0\t00000000000000000000000000000000 \r";
    let bytes = [0, 1, 2, 3, 4, 5, 6, 7, 8, 9, 10, 11, 12, 13, 14, 15];
    let first = Event::Seen {
        address: 0x4000_0010,
        tag: true,
        bytes,
    };
    let second = Event::Seen {
        address: 32,
        tag: false,
        bytes: [0; 16],
    };
    for read in [
        after_heap(rt.alloc(), lines),
        before_more_text(rt.alloc(), lines),
    ] {
        let log = read
            .expect(&rt, "there is memory")
            .expect(&rt, "it is a log");
        assert!(rt;
            &*log.events == [(2, first), (3, second)].as_slice(),
            "{log:?}"
        );
    }
}

#[test]
fn lines_that_say_how_it_was(rt: HostRuntime) {
    let cases = [
        ("given live 0 16", Given::Live { base: 0, top: 16 }),
        (
            "given waiting 0x10 0x10000000000000000",
            Given::Waiting {
                base: 16,
                top: 1 << 64,
            },
        ),
        (
            "given painted 18446744073709551615 0x20",
            Given::Painted {
                base: u64::MAX,
                top: 32,
            },
        ),
        ("given epoch", Given::Epoch),
        (
            "given register c31 1 00000000000000000000000000000000",
            Given::Register {
                register: 31,
                tag: true,
                bytes: [0; 16],
            },
        ),
        (
            "given granule 0x10 0 ffffffffffffffffffffffffffffffff",
            Given::Granule {
                address: 16,
                tag: false,
                bytes: [0xff; 16],
            },
        ),
    ];
    for (line, given) in cases {
        let read = before_more_text(rt.alloc(), line.as_bytes());
        let log = read
            .expect(&rt, "there is memory")
            .expect(&rt, "it is a log");
        assert!(rt;
            &*log.givens == [(2, given)].as_slice() && log.events.is_empty(),
            "{line:?}"
        );
    }
}

#[test]
fn given_lines_with_a_fault(rt: HostRuntime) {
    let cases = [
        ("given", TraceFault::BadCount(2)),
        ("given dead 0 16", TraceFault::BadCommand(2)),
        ("given -> ok", TraceFault::BadCommand(2)),
        ("given live 0", TraceFault::BadCount(2)),
        ("given live 0 16 -> ok", TraceFault::BadCount(2)),
        ("given live x 16", TraceFault::BadNumber(2)),
        ("given live 0 0x10000000000000001", TraceFault::BadNumber(2)),
        (
            "given live 0 18446744073709551616",
            TraceFault::BadNumber(2),
        ),
        ("given live 0x10000000000000000 0", TraceFault::BadNumber(2)),
        ("given epoch 1", TraceFault::BadCount(2)),
        ("given register c32 2 00", TraceFault::BadRegister(2)),
        ("given register c1 2 00", TraceFault::BadNumber(2)),
        ("given register c1 1 00", TraceFault::BadData(2)),
        ("given granule c1 1 00", TraceFault::BadNumber(2)),
        ("sweep -> ok\ngiven live 0 16", TraceFault::BadCommand(3)),
        ("sweep -> ok\ngiven", TraceFault::BadCommand(3)),
    ];
    for (line, fault) in cases {
        let read = before_more_text(rt.alloc(), line.as_bytes());
        let answer = read.expect(&rt, "there is memory").err();
        assert_eq!(rt; answer, Some(LogFault::Trace(fault)), "{line:?}");
    }
}

#[test]
fn lines_of_all_kinds_in_order(rt: HostRuntime) {
    let lines =
        b"\r\n# sweep -> ok\r\ngiven epoch\r\n\r\ngiven live 0 16\r\n# given\r\nsweep -> trap open\r\n#->\r\nend -> cleared 0 released 0\r";
    let log = after_heap(rt.alloc(), lines)
        .expect(&rt, "there is memory")
        .expect(&rt, "it is a log");
    let first = Event::Done {
        command: Command::Sweep,
        answer: Reply::Trap(Trap::Open),
    };
    let second = Event::Done {
        command: Command::End,
        answer: Reply::Swept {
            cleared: 0,
            released: 0,
        },
    };
    let givens = [(4, Given::Epoch), (6, Given::Live { base: 0, top: 16 })];
    assert!(rt; &*log.givens == givens.as_slice(), "{log:?}");
    assert!(rt;
        &*log.events == [(8, first), (10, second)].as_slice(),
        "{log:?}"
    );
}

#[test]
fn the_first_fault_of_a_log(rt: HostRuntime) {
    let cases = [
        ("", LogFault::Trace(TraceFault::NoHeap(1))),
        ("sweep -> ok\n", LogFault::Trace(TraceFault::NoHeap(1))),
        (
            "\ngiven epoch\nheap 0x0 1",
            LogFault::Trace(TraceFault::NoHeap(2)),
        ),
        ("heap 0x8 1\nsweep", LogFault::Trace(TraceFault::BadHeap(1))),
        (
            "heap 0x0 1\nsweep -> no\nfrob -> ok",
            LogFault::BadAnswer(2),
        ),
        (
            "heap 0x0 1\nfrob -> ok\nsweep -> no",
            LogFault::Trace(TraceFault::BadCommand(2)),
        ),
        (
            "heap 0x0 1\ngiven\nsweep -> no",
            LogFault::Trace(TraceFault::BadCount(2)),
        ),
    ];
    for (text, fault) in cases {
        let answer = parse(rt.alloc(), text.as_bytes()).err();
        assert_eq!(rt; answer, Some(fault), "{text:?}");
    }
}

#[test]
fn a_log_that_is_too_long(rt: HostRuntime) {
    let mut text = vec![in rt.alloc(); b'#'; 16_777_216].expect(&rt, "there is memory");
    let at_most = LogFault::Trace(TraceFault::NoHeap(2));
    assert_eq!(rt; parse(rt.alloc(), &text).err(), Some(at_most));
    text.push(b'\n').expect(&rt, "there is memory");
    let longer = LogFault::Trace(TraceFault::TooLong);
    assert_eq!(rt; parse(rt.alloc(), &text).err(), Some(longer));
}

#[test]
fn faults_of_logs_by_their_names(rt: HostRuntime) {
    let cases = [
        (LogFault::Trace(TraceFault::TooLong), "too-long"),
        (LogFault::Trace(TraceFault::BadCommand(2)), "bad-command 2"),
        (LogFault::BadAnswer(4), "bad-answer 4"),
    ];
    for (fault, name) in cases {
        let message = format!(in rt.alloc(); "{fault}").expect(&rt, "there is memory");
        assert_eq!(rt; message.as_str(), name);
    }
}
