//! What is said beside the answer: what a faulty line lacks, and that a log has a part of a run.

use crate::devices::{Fixed, Short, Slow};
use check_command::check_tool;
use std::alloc::Global;
use std::process::Abort;
use std::thread::Threads;

// What a program writes and says, and its status.
#[derive(Drop)]
struct Told {
    status: u8,
    written: Vec<u8>,
    said: Vec<u8>,
}

// What is written of a log, and what is said beside it to a device with so much room.
fn said_beside<R: Threads + Sync>(rt: &R, alloc: Global, log: &str, room: usize) -> Told {
    let mut reader = Slow {
        rest: log.as_bytes(),
        step: 1000,
        breaks: false,
        has_failed: false,
    };
    let mut writer = Short {
        taken: Vec::new(alloc),
        step: 100,
        room: 10_000,
        has_failed: false,
    };
    let mut errors = Short {
        taken: Vec::new(alloc),
        step: 100,
        room,
        has_failed: false,
    };
    let words = ["heap_check"];
    let status = check_tool(rt, alloc, &words, &mut reader, &mut writer, &mut errors);
    Told {
        status,
        written: writer.taken,
        said: errors.taken,
    }
}

// What is said of a log whose second line has no answer that is read.
fn said<R: Threads + Sync>(rt: &R, alloc: Global, log: &str, room: usize) -> (u8, Vec<u8>) {
    let told = said_beside(rt, alloc, log, room);
    let is_fault = told.written.as_slice() == b"fault bad-answer 2\n".as_slice();
    let status = if told.status != 3 || is_fault {
        told.status
    } else {
        0
    };
    (status, told.said)
}

#[test]
fn the_word_that_was_not_taken_is_named(rt: HostRuntime) {
    let alloc = rt.alloc();
    let rows = [
        ("malloc c1 16 -> block 0x40000000 0X40000010", "0X40000010"),
        ("malloc c1 16 -> block 0x4000000A 0x40000010", "0x4000000A"),
        ("malloc c1 16 -> block 1073741824 1073741840", "1073741824"),
        (
            "malloc c1 16 -> block 0x40000000 0x40000010 sweep 1",
            "sweep",
        ),
        ("malloc c1 16 -> block 0x40000000 0x40000010 swept 1 2", "2"),
        ("malloc c1 16 -> nospace swept 01", "01"),
        ("malloc c1 16 -> Block 0x40000000 0x40000010", "Block"),
        ("free c1 -> held 0x10", "0x10"),
        ("free c1 -> held 016\r", "016"),
        ("free c1 -> trap Tag", "Tag"),
        ("sweep -> ok junk", "junk"),
        ("sweep -> cleared 1 released -1", "-1"),
        ("sweep -> cleared 4294967296", "4294967296"),
        ("show c1 -> tag 1 address 0x0 base 0x0 bottom 0x0", "bottom"),
        ("show c1 -> tag 2", "2"),
        (
            "granule 0x40000000 -> 2 00000000000000000000000000000000",
            "2",
        ),
        ("granule 0x40000000 -> ok", "ok"),
        ("granule 0x40000000 -> 1 00", "00"),
        ("sweep -> \u{e9}\u{1}x", "???x"),
        (
            "sweep -> aaaaaaaaaabbbbbbbbbbaaaaaaaaaabbbbbbbbbbaaaaaaaaaabbbbbbbbbbccc",
            "aaaaaaaaaabbbbbbbbbbaaaaaaaaaabbbbbbbbbbaaaaaaaaaabbbbbbbbbb",
        ),
    ];
    for (line, word) in rows {
        let log = format!(in alloc; "heap 0x40000000 1\n{line}").expect(&rt, "there is memory");
        let (status, told) = said(&rt, alloc, &log, 10_000);
        let wanted = format!(in alloc;
            "heap_check: line 2: no answer has the word {word} there (docs/QUARANTINE.md: What it prints)\n"
        ).expect(&rt, "there is memory");
        assert_eq!(rt; status, 3);
        assert_eq!(rt; told.as_slice(), wanted.as_bytes(), "{line:?}");
    }
}

#[test]
fn an_answer_that_lacks_or_ends_too_early_is_told(rt: HostRuntime) {
    let lacks =
        "heap_check: line 2: it has no arrow -> between blanks (docs/QUARANTINE.md: What it prints)\n";
    let ends =
        "heap_check: line 2: its answer ends too early (docs/QUARANTINE.md: What it prints)\n";
    let rows = [
        ("sweep", lacks),
        ("malloc c1 16", lacks),
        ("sweep ->", ends),
        ("malloc c1 16 -> block 0x40000000", ends),
        ("malloc c1 16 -> nospace swept", ends),
        ("free c1 -> trap", ends),
        (
            "show c1 -> tag 1 address 0x0 base 0x0 top 0x0 perms 0x0 type 0x0 exponent",
            ends,
        ),
        ("granule 0x40000000 -> 1", ends),
    ];
    for (line, text) in rows {
        let log = format!(in rt.alloc(); "heap 0x40000000 1\n{line}").expect(
            &rt,
            "there is memory",
        );
        let (status, told) = said(&rt, rt.alloc(), &log, 10_000);
        assert_eq!(rt; status, 3);
        assert_eq!(rt; told.as_slice(), text.as_bytes(), "{line:?}");
    }
}

#[test]
fn an_arrow_without_blanks_is_told_as_none(rt: HostRuntime) {
    let lacks =
        "heap_check: line 2: it has no arrow -> between blanks (docs/QUARANTINE.md: What it prints)\n";
    let rows = [
        ("malloc c1 16->nospace", "fault bad-number 2\n"),
        ("malloc c1 16 ->nospace", "fault bad-count 2\n"),
        ("free c1->held 16", "fault bad-count 2\n"),
        ("free c1->trap", "fault bad-register 2\n"),
        ("granule 0x40000000 0 00", "fault bad-count 2\n"),
    ];
    for (line, fault) in rows {
        let log = format!(in rt.alloc(); "heap 0x40000000 1\n{line}").expect(
            &rt,
            "there is memory",
        );
        let told = said_beside(&rt, rt.alloc(), &log, 10_000);
        assert_eq!(rt; told.status, 3);
        assert_eq!(rt; told.written.as_slice(), fault.as_bytes());
        assert_eq!(rt; told.said.as_slice(), lacks.as_bytes(), "{line:?}");
    }
}

// What is said of a faulty line that names one of these.
const NAMES: &str =
    " there: it begins with malloc, free, copy, setaddr, narrow, andperm, storecap, loadcap, write, show, sweep, begin, end, paint, visit, untag, release, granule or #, or with given before all commands and granules";

const KINDS: &str = "after given stands live, waiting, painted, epoch, register or granule";

const NUMBER: &str = "a number, decimal or hexadecimal with 0x, below 2^64";

// Whether just this is said of a log, whose fault in this line is written.
fn is_told<R: Abort + Threads + Sync>(
    rt: &R,
    alloc: Global,
    log: &str,
    wanted: (&str, u32, &str),
) -> bool {
    let (fault, line, text) = wanted;
    let told = said_beside(rt, alloc, log, 10_000);
    let place = if text.starts_with("after given") || log.contains("\ngiven") {
        "From the middle of a run"
    } else {
        "What it prints"
    };
    let written = format!(in alloc; "fault {fault} {line}\n").expect(rt, "there is memory");
    let said = format!(in alloc;
        "heap_check: line {line}: {text} (docs/QUARANTINE.md: {place})\n"
    ).expect(rt, "there is memory");
    told.status == 3
        && told.written.as_slice() == written.as_bytes()
        && told.said.as_slice() == said.as_bytes()
}

// Logs whose third line is the faulty one, with others like it around it.
fn is_told_of_third<R: Abort + Threads + Sync>(
    rt: &R,
    alloc: Global,
    line: &str,
    fault: &str,
    text: &str,
) -> bool {
    let log = format!(in alloc;
        "heap 0x40000000 1\n# free c77 -> held 0x77\n{line}\nfree c99 -> held 0x99\n"
    ).expect(rt, "there is memory");
    is_told(rt, alloc, &log, (fault, 3, text))
}

#[test]
fn a_word_before_the_arrow_is_told_with_what_is_wanted(rt: HostRuntime) {
    let alloc = rt.alloc();
    let register = "a register, c0 to c31";
    let rows = [
        ("free c32 -> held 16", "c32", "free cS", register),
        ("free c32", "c32", "free cS", register),
        ("copy c01 c2 -> ok", "c01", "copy cD cS", register),
        ("copy c1 C2 -> ok", "C2", "copy cD cS", register),
        ("storecap c1 c -> ok", "c", "storecap cA cS", register),
        ("loadcap 1 c -> ok", "1", "loadcap cD cA", register),
        ("show cc -> ok", "cc", "show cS", register),
        (
            "setaddr c1 0x0 c2 -> ok",
            "0x0",
            "setaddr cD cS ADDRESS",
            register,
        ),
        (
            "given register c32 2 0",
            "c32",
            "given register cN TAG DATA",
            register,
        ),
    ];
    for (line, word, form, wanted) in rows {
        let text = format!(in alloc; "the word {word} stands where '{form}' wants {wanted}").expect(
            &rt,
            "there is memory",
        );
        assert!(rt;
            is_told_of_third(&rt, alloc, line, "bad-register", &text),
            "{line:?}"
        );
    }
}

#[test]
fn a_number_before_the_arrow_is_told_with_what_is_wanted(rt: HostRuntime) {
    let alloc = rt.alloc();
    let tag = "a tag, 0 or 1";
    let top = "a number, decimal or hexadecimal with 0x, below 2^64, or 0x10000000000000000";
    let rows = [
        ("malloc c1 0x -> nospace", "0x", "malloc cD SIZE", NUMBER),
        ("malloc c1 -1", "-1", "malloc cD SIZE", NUMBER),
        (
            "setaddr c1 c1 18446744073709551616 -> ok",
            "18446744073709551616",
            "setaddr cD cS ADDRESS",
            NUMBER,
        ),
        ("narrow c1 c1 1f -> ok", "1f", "narrow cD cS LENGTH", NUMBER),
        (
            "andperm c1 c1 65536 -> ok",
            "65536",
            "andperm cD cS MASK",
            "a mask, a number below 65536",
        ),
        (
            "andperm c1 c1 x -> ok",
            "x",
            "andperm cD cS MASK",
            "a mask, a number below 65536",
        ),
        ("granule c1 -> 0 00", "c1", "granule ADDRESS", NUMBER),
        (
            "given live 0y 0x10000000000000000",
            "0y",
            "given live BASE TOP",
            NUMBER,
        ),
        (
            "given waiting 0x10000000000000000 0",
            "0x10000000000000000",
            "given waiting BASE TOP",
            NUMBER,
        ),
        (
            "given painted 0 0x10000000000000001",
            "0x10000000000000001",
            "given painted BASE TOP",
            top,
        ),
        (
            "given painted 0 18446744073709551616",
            "18446744073709551616",
            "given painted BASE TOP",
            top,
        ),
        (
            "given register c1 2 00",
            "2",
            "given register cN TAG DATA",
            tag,
        ),
        (
            "given granule 0x40000000 01 00",
            "01",
            "given granule ADDRESS TAG DATA",
            tag,
        ),
        (
            "given granule c1 01 00",
            "c1",
            "given granule ADDRESS TAG DATA",
            NUMBER,
        ),
    ];
    for (line, word, form, wanted) in rows {
        let text = format!(in alloc; "the word {word} stands where '{form}' wants {wanted}").expect(
            &rt,
            "there is memory",
        );
        assert!(rt;
            is_told_of_third(&rt, alloc, line, "bad-number", &text),
            "{line:?}"
        );
    }
}

#[test]
fn data_before_the_arrow_is_told_with_what_is_wanted(rt: HostRuntime) {
    let alloc = rt.alloc();
    let rows = [
        ("write c1 00 -> ok", "00", "write cA DATA"),
        (
            "write c1 0x000000000000000000000000000000 -> ok",
            "0x000000000000000000000000000000",
            "write cA DATA",
        ),
        (
            "given register c1 0 0000000000000000000000000000000g",
            "0000000000000000000000000000000g",
            "given register cN TAG DATA",
        ),
        (
            "given granule 0x40000000 1 0",
            "0",
            "given granule ADDRESS TAG DATA",
        ),
    ];
    for (line, word, form) in rows {
        let text = format!(in alloc;
            "the word {word} stands where '{form}' wants data, exactly 32 hexadecimal digits"
        ).expect(&rt, "there is memory");
        assert!(rt;
            is_told_of_third(&rt, alloc, line, "bad-data", &text),
            "{line:?}"
        );
    }
}

#[test]
fn a_line_of_too_many_or_too_few_words_is_told_with_its_form(rt: HostRuntime) {
    let rows = [
        (
            "malloc c1 -> nospace",
            "it has more or fewer words before its arrow than 'malloc cD SIZE'",
        ),
        (
            "free -> held 16",
            "it has more or fewer words before its arrow than 'free cS'",
        ),
        (
            "sweep 1 -> cleared 0 released 0",
            "it has more or fewer words before its arrow than 'sweep'",
        ),
        (
            "begin c1 -> cleared 0",
            "it has more or fewer words before its arrow than 'begin'",
        ),
        (
            "end end -> cleared 0 released 0",
            "it has more or fewer words before its arrow than 'end'",
        ),
        (
            "granule -> 0 00",
            "it has more or fewer words before its arrow than 'granule ADDRESS'",
        ),
        (
            "given live 0x40000000",
            "it has more or fewer words than 'given live BASE TOP'",
        ),
        (
            "given epoch 1",
            "it has more or fewer words than 'given epoch'",
        ),
        (
            "given granule 0x40000000 -> 1 00",
            "it has more or fewer words than 'given granule ADDRESS TAG DATA'",
        ),
        ("given", KINDS),
    ];
    for (line, text) in rows {
        assert!(rt;
            is_told_of_third(&rt, rt.alloc(), line, "bad-count", text),
            "{line:?}"
        );
    }
}

#[test]
fn a_line_that_begins_with_no_name_is_told(rt: HostRuntime) {
    let alloc = rt.alloc();
    for (line, word) in [
        ("frob", "frob"),
        ("Malloc c1 16 -> nospace", "Malloc"),
        ("heap 0x40000000 1 -> ok", "heap"),
        ("-> ok", "->"),
        ("sweep# -> ok", "sweep#"),
    ] {
        let text = format!(in alloc; "no line begins with {word}{NAMES}").expect(
            &rt,
            "there is memory",
        );
        assert!(rt;
            is_told_of_third(&rt, alloc, line, "bad-command", &text),
            "{line:?}"
        );
    }
    assert!(rt; is_told_of_third(&rt, alloc, "given lives 0 16", "bad-command", KINDS));
    let late = "heap 0x40000000 1\nsweep -> cleared 0 released 0\ngiven epoch\n";
    let text = "what is given stands before all commands and granules";
    assert!(rt; is_told(&rt, alloc, late, ("bad-command", 3, text)));
}

#[test]
fn an_answer_of_a_later_line_is_told(rt: HostRuntime) {
    let rows = [
        ("free c1 -> held 0x10", "no answer has the word 0x10 there"),
        ("sweep ->", "its answer ends too early"),
        ("show c1", "it has no arrow -> between blanks"),
    ];
    for (line, text) in rows {
        assert!(rt;
            is_told_of_third(&rt, rt.alloc(), line, "bad-answer", text),
            "{line:?}"
        );
    }
}

#[test]
fn what_the_heap_line_wants_is_told(rt: HostRuntime) {
    let heap =
        "the first line is 'heap BASE PAGES': BASE a multiple of 4096, PAGES 1 to 1024, the end at most 2^64";
    let mark = "the text begins with a byte order mark: leave out its three bytes";
    let rows = [
        ("", "no-heap", 1, heap),
        ("# nothing\n\n", "no-heap", 3, heap),
        (
            "# first\nsweep -> cleared 0 released 0\nheap 0x40000000 1\n",
            "no-heap",
            2,
            heap,
        ),
        (
            "\u{feff}heap 0x40000000 1\nsweep -> cleared 0 released 0\n",
            "no-heap",
            1,
            mark,
        ),
        ("\u{feff}# first\nheap 0x40000000 1\n", "no-heap", 1, mark),
        (
            "# \u{feff}\n\u{feff}heap 0x40000000 1\n",
            "no-heap",
            2,
            heap,
        ),
        ("\n\nheap 0x40000008 1\n", "bad-heap", 3, heap),
        ("heap 0x40000000 1025", "bad-heap", 1, heap),
        ("heap 0x40000000\n", "bad-heap", 1, heap),
    ];
    for (log, fault, line, text) in rows {
        assert!(rt;
            is_told(&rt, rt.alloc(), log, (fault, line, text)),
            "{log:?}"
        );
    }
}

// Whatever is said of a log, that it has a part of a run is said after that.
#[test]
fn a_log_of_a_part_of_a_run_is_told(rt: HostRuntime) {
    let alloc = rt.alloc();
    let rows = [
        (
            "sweep -> cleared 0 released 0\n# Part: 3 of 7 calls\n",
            0,
            "3 of 7 calls",
        ),
        ("# Part: 0 of 7 calls", 0, "0 of 7 calls"),
        ("# Part: at first\nsweep -> ok\n# Part: \n", 5, ""),
        (
            "given live 0x40000008 0x40000010\n# Part:  # Part: 3\n",
            5,
            " # Part: 3",
        ),
        (
            "free c1 -> held 0x10\n# Part: ~\u{1b}[31m\tr\u{e9}d\u{7f}\r\n",
            3,
            "~?[31m?r??d??",
        ),
    ];
    for (lines, status, comment) in rows {
        let log = format!(in alloc; "heap 0x40000000 1\n{lines}").expect(&rt, "there is memory");
        let told = said_beside(&rt, alloc, &log, 10_000);
        let before = if status == 3 {
            "heap_check: line 2: no answer has the word 0x10 there (docs/QUARANTINE.md: What it prints)\n"
        } else {
            ""
        };
        let wanted = format!(in alloc;
            "{before}heap_check: the log has a part: {comment}\n"
        ).expect(&rt, "there is memory");
        assert_eq!(rt; told.status, status, "{lines:?}");
        assert_eq!(rt; told.said.as_slice(), wanted.as_bytes(), "{lines:?}");
    }
}

#[test]
fn as_much_as_600_bytes_of_a_comment_are_told(rt: HostRuntime) {
    let alloc = rt.alloc();
    for (length, told) in [(599usize, 599usize), (600, 600), (601, 600), (10_000, 600)] {
        let filler = vec![in alloc; b'x'; length].expect(&rt, "there is memory");
        let comment = str::from_utf8(&filler).unwrap_or("");
        let log = format!(in alloc; "heap 0x40000000 1\n# Part: {comment}\n").expect(
            &rt,
            "there is memory",
        );
        let said = said_beside(&rt, alloc, &log, 10_000).said;
        assert_eq!(rt;
            said.len(),
            "heap_check: the log has a part: \n".len() + told,
            "{length}"
        );
    }
}

// Nor is it where nothing is judged.
#[test]
fn nothing_is_said_where_nothing_is_judged(rt: HostRuntime) {
    let mut reader = Slow {
        rest: b"heap 0x40000000 1\n# Part: 3\n",
        step: 1000,
        breaks: false,
        has_failed: false,
    };
    let mut writer = Short {
        taken: Vec::new(rt.alloc()),
        step: 100,
        room: 20,
        has_failed: false,
    };
    let mut errors = Fixed::new();
    let words = ["heap_check"];
    let status = check_tool(
        &rt,
        rt.alloc(),
        &words,
        &mut reader,
        &mut writer,
        &mut errors,
    );
    assert_eq!(rt; status, 4);
    assert!(rt; errors.text().is_empty());
}

#[test]
fn nothing_else_is_said(rt: HostRuntime) {
    let rows = [
        ("sweep -> cleared 0 released 0", 0),
        ("sweep -> ok", 5),
        ("given live 0x40000008 0x40000010", 5),
        ("# Part", 0),
        ("# part: 3", 0),
        (
            "# Part: at its end a log says so\nsweep -> cleared 0 released 0",
            0,
        ),
        ("# Part: 3\n\n", 0),
        (" # Part: 3", 0),
    ];
    for (line, wanted) in rows {
        let log = format!(in rt.alloc(); "heap 0x40000000 1\n{line}").expect(
            &rt,
            "there is memory",
        );
        let told = said_beside(&rt, rt.alloc(), &log, 10_000);
        assert_eq!(rt; told.status, wanted, "{line:?}");
        assert!(rt; told.said.is_empty(), "{line:?}");
    }
}

#[test]
fn a_word_that_can_not_be_told_changes_nothing(rt: HostRuntime) {
    for room in [0, 20] {
        let log = "heap 0x40000000 1\nfree c1 -> held 0x10";
        let (status, told) = said(&rt, rt.alloc(), log, room);
        assert_eq!(rt; status, 3);
        assert_eq!(rt; told.len(), room);
    }
}
