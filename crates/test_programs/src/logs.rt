//! Logs that are judged, words that are refused, and devices that fail.

mod beside;

use crate::devices::{Failing, Fixed, Short, Slow};
use check_command::check_tool;
use std::alloc::{AllocError, Global};
use std::thread::Threads;

// What the program writes for these words and this text, read in pieces of so many bytes, to a writer with this room, after
// its status.
fn answer<R: Threads + Sync>(
    rt: &R,
    alloc: Global,
    words: &[&str],
    text: &[u8],
    pieces: (usize, usize),
) -> (u8, Vec<u8>) {
    let (step, room) = pieces;
    let mut reader = Slow {
        rest: text,
        step: step.max(1),
        breaks: false,
        has_failed: false,
    };
    let mut writer = Short {
        taken: Vec::new(alloc),
        step: 100,
        room,
        has_failed: false,
    };
    let status = check_tool(
        rt,
        alloc,
        words,
        &mut reader,
        &mut writer,
        &mut Fixed::new(),
    );
    (status, writer.taken)
}

// What it writes for a log, after its status.
fn judged<R: Threads + Sync>(rt: &R, alloc: Global, text: &str) -> (u8, Vec<u8>) {
    answer(rt, alloc, &["heap_check"], text.as_bytes(), (100, 10_000))
}

const EMPTY: &str = "agrees 0 commands, 0 blocks handed out, 0 passes, 0 tags taken\n";

const USAGE: &str = "usage: heap_check [--workers N] [--cut N]\n";

#[test]
fn words_are_judged(rt: HostRuntime) {
    let rows: [(&[&str], u8, &str); 7] = [
        (&["heap_check"], 0, EMPTY),
        (&["heap_check", "--workers", "64", "--cut=1"], 0, EMPTY),
        (&["heap_check", "--image"], 2, USAGE),
        (&["heap_check", "run"], 2, USAGE),
        (&["heap_check", "--workers", "65"], 2, USAGE),
        (&["heap_check", "--help"], 2, USAGE),
        (&[], 0, EMPTY),
    ];
    for (words, wanted, text) in rows {
        let (status, told) = answer(&rt, rt.alloc(), words, b"heap 0x40000000 1", (7, 1000));
        assert_eq!(rt; status, wanted);
        assert_eq!(rt; told.as_slice(), text.as_bytes());
    }
}

#[test]
fn nothing_is_read_for_refused_words(rt: HostRuntime) {
    let mut reader = Slow {
        rest: b"heap 0x40000000 1\n",
        step: 5,
        breaks: false,
        has_failed: false,
    };
    let mut writer = Fixed::new();
    let words = ["heap_check", "run"];
    let status = check_tool(
        &rt,
        rt.alloc(),
        &words,
        &mut reader,
        &mut writer,
        &mut Fixed::new(),
    );
    assert_eq!(rt; status, 2);
    assert_eq!(rt; writer.text(), USAGE.as_bytes());
    assert_eq!(rt; reader.rest.len(), 18);
}

// A pass by a malloc takes the tags of two words, one in a register and one in memory.
const AGREEING: &str = "heap 0x40000000 16
malloc c1 20 -> block 0x40000100 0x40000120
storecap c1 c1 -> ok
free c1 -> held 32

# both words that lead into the block lose their tags
malloc c2 16 -> block 0x40000100 0x40000110 swept 2
granule 0x40000100 -> 0 00010040000000000481490400003d00
malloc c3 65536 -> nospace
sweep -> cleared 0 released 0
begin -> cleared 0
end -> cleared 0 released 0
";

// One of each.
const ONE: &str = "heap 0x40000000 1
given waiting 0x40000200 0x40000210
given register c1 1 00020040000000000482850400003d00
malloc c2 16 -> block 0x40000100 0x40000110 swept 1
";

#[test]
fn what_is_counted_is_told_in_the_singular_where_it_is_one(rt: HostRuntime) {
    let (status, told) = judged(&rt, rt.alloc(), ONE);
    let line = "agrees 1 command, 1 block handed out, 1 pass, 1 tag taken\n";
    assert_eq!(rt; told.as_slice(), line.as_bytes());
    assert_eq!(rt; status, 0);
}

#[test]
fn a_log_agrees(rt: HostRuntime) {
    let line = "agrees 8 commands, 2 blocks handed out, 4 passes, 2 tags taken\n";
    let rows: [(&[&str], usize); 2] = [
        (&["heap_check"], 1),
        (&["heap_check", "--workers", "3", "--cut", "1"], 1000),
    ];
    for (words, step) in rows {
        let (status, told) = answer(&rt, rt.alloc(), words, AGREEING.as_bytes(), (step, 1000));
        assert_eq!(rt; status, 0);
        assert_eq!(rt; told.as_slice(), line.as_bytes());
    }
}

// The log of a lesson: a block is handed out that waits.
const LESSON: &str = "heap 0x40000000 16
malloc c1 20 -> block 0x40000100 0x40000120
free c1 -> held 32
malloc c2 16 -> block 0x40000100 0x40000110
";

const LESSON_LINE: &str =
    "differs 4: block 0x40000100 0x40000110 lies over the held block 0x40000100 0x40000120, freed at line 3\n";

#[test]
fn blocks_in_the_way_are_told_with_where_they_came_from(rt: HostRuntime) {
    let rows = [
        (LESSON, LESSON_LINE),
        (
            "heap 0x40000000 16
malloc c1 16 -> block 0x40000100 0x40000110
free c1 -> held 16
sweep -> cleared 1 released 16
malloc c1 16 -> block 0x40000100 0x40000110
free c1 -> held 16
malloc c2 16 -> block 0x40000100 0x40000110
",
            "differs 7: block 0x40000100 0x40000110 lies over the held block 0x40000100 0x40000110, freed at line 6\n",
        ),
        (
            "heap 0x40000000 16
malloc c1 16 -> block 0x40000100 0x40000110
malloc c2 32 -> block 0x400000f0 0x40000110
free c1 -> held 16
",
            "differs 3: block 0x400000f0 0x40000110 lies over the live block 0x40000100 0x40000110, handed out at line 2\n",
        ),
        (
            "heap 0x40000000 16
given epoch
given live 0x40000100 0x40000120
malloc c1 16 -> block 0x40000110 0x40000120
",
            "differs 4: block 0x40000110 0x40000120 lies over the live block 0x40000100 0x40000120, given at line 3\n",
        ),
        (
            "heap 0x40000000 16
given waiting 0x40000100 0x40000120
malloc c1 16 -> block 0x40000110 0x40000120
",
            "differs 3: block 0x40000110 0x40000120 lies over the held block 0x40000100 0x40000120, given at line 2\n",
        ),
        (
            "heap 0x40000000 16
given painted 0x40000100 0x40000120
malloc c1 16 -> block 0x40000110 0x40000120
",
            "differs 3: block 0x40000110 0x40000120 lies over the held block 0x40000100 0x40000120, given at line 2\n",
        ),
    ];
    for (text, line) in rows {
        let (status, told) = judged(&rt, rt.alloc(), text);
        assert_eq!(rt; told.as_slice(), line.as_bytes());
        assert_eq!(rt; status, 5);
    }
}

// The one event of each of these logs, in line 2.
#[test]
fn each_difference_has_its_text(rt: HostRuntime) {
    let rows = [
        (
            "heap 0x40000000 16\nshow c0 -> ok\n",
            "differs 2: the answer must be tag 0 address 0x0 base 0x0 top 0x10000000000000000 perms 0x0 type 0x3ffff exponent 52, and the log says ok\n",
        ),
        (
            "heap 0x40000000 16\nmalloc c1 16 -> ok\n",
            "differs 2: a malloc is answered by a block or by nospace, and the log says ok\n",
        ),
        (
            "heap 0x40000000 16\nmalloc c1 17 -> block 0x40000100 0x40000110\n",
            "differs 2: block 0x40000100 0x40000110 is shorter than the size asked for\n",
        ),
        (
            "heap 0x40000000 16\nmalloc c1 16 -> block 0x40000100 0x40000110 swept 0\n",
            "differs 2: no sweep may be told: no block waits\n",
        ),
        (
            "heap 0x40000000 16\nmalloc c1 16 -> block 0x40000108 0x40000118\n",
            "differs 2: block 0x40000108 0x40000118 is not whole granules\n",
        ),
        (
            "heap 0x40000000 16\nmalloc c1 16 -> block 0x40010000 0x40010010\n",
            "differs 2: block 0x40010000 0x40010010 lies outside the heap\n",
        ),
        (
            "heap 0x40000000 16\nmalloc c1 16 -> block 0x40000010 0x40004020\n",
            "differs 2: block 0x40000010 0x40004020 has bounds that no capability holds\n",
        ),
        (
            "heap 0x40000000 16\ngranule 0x40010000 -> 0 00000000000000000000000000000000\n",
            "differs 2: no granule of the heap lies at this address\n",
        ),
        (
            "heap 0x40000000 16\ngranule 0x4000fff0 -> 1 00000000000000000000000000000000\n",
            "differs 2: the granule holds 0 00000000000000000000000000000000, and the log says 1 00000000000000000000000000000000\n",
        ),
    ];
    for (text, line) in rows {
        let (status, told) = judged(&rt, rt.alloc(), text);
        assert_eq!(rt; told.as_slice(), line.as_bytes());
        assert_eq!(rt; status, 5);
    }
}

#[test]
fn differences_after_other_events_have_their_text(rt: HostRuntime) {
    let rows = [
        (
            "heap 0x40000000 16
malloc c1 16 -> block 0x40000100 0x40000110
free c1 -> held 32
",
            "differs 3: the answer must be held 16, and the log says held 32\n",
        ),
        (
            "heap 0x40000000 16
given epoch
given waiting 0x40000200 0x40000210
malloc c1 16 -> nospace swept 0
",
            "differs 4: no sweep may be told: an epoch is open\n",
        ),
        (
            "heap 0x40000000 16
given live 0x40000200 0x40000210
given granule 0x40000200 1 00020040000000000482850400003d00
granule 0x40000200 -> 0 00020040000000000482850400003d00
",
            "differs 4: the granule holds 1 00020040000000000482850400003d00, and the log says 0 00020040000000000482850400003d00\n",
        ),
    ];
    for (text, line) in rows {
        let (status, told) = judged(&rt, rt.alloc(), text);
        assert_eq!(rt; told.as_slice(), line.as_bytes());
        assert_eq!(rt; status, 5);
    }
}

// A block waits at 0x40000200, with words in registers 2 and 31, and in two granules of a live one.
const WAITING: &str = "heap 0x40000000 16
given live 0x40000100 0x40000120
given waiting 0x40000200 0x40000210
given register c1 1 00010040000000000481490400003d00
given register c2 1 00020040000000000482850400003d00
given register c31 1 00020040000000000482850400003d00
given granule 0x4000fff0 1 00020040000000000482850400003d00
given granule 0x40000100 1 00020040000000000482850400003d00
given granule 0x40000110 1 00010040000000000481490400003d00
given granule 0x40000120 0 00020040000000000482850400003d00
";

#[test]
fn words_that_are_due_are_told(rt: HostRuntime) {
    let alloc = rt.alloc();
    let rows = [
        (
            "sweep -> cleared 3 released 16\n",
            "differs 11: the answer must be cleared 4 released 16, and the log says cleared 3 released 16
c2 base 0x40000200
c31 base 0x40000200
granule 0x40000100 base 0x40000200
granule 0x4000fff0 base 0x40000200
4 words due
",
        ),
        (
            "malloc c3 16 -> nospace swept 5\n",
            "differs 11: the sweep takes 4 tags, and the log says nospace swept 5
c2 base 0x40000200
c31 base 0x40000200
granule 0x40000100 base 0x40000200
granule 0x4000fff0 base 0x40000200
4 words due
",
        ),
        (
            "begin -> cleared 4\n",
            "differs 11: the answer must be cleared 2, and the log says cleared 4
granule 0x40000100 base 0x40000200
granule 0x4000fff0 base 0x40000200
2 words due
",
        ),
        (
            "begin -> cleared 2\nend -> cleared 3 released 16\n",
            "differs 12: the answer must be cleared 2 released 16, and the log says cleared 3 released 16
c2 base 0x40000200
c31 base 0x40000200
2 words due
",
        ),
        // One word is due, and one tag, in the singular.
        (
            "write c1 00000000000000000000000000000000 -> ok\nbegin -> cleared 2\n",
            "differs 12: the answer must be cleared 1, and the log says cleared 2
granule 0x4000fff0 base 0x40000200
1 word due
",
        ),
        (
            "copy c2 c0 -> ok\ncopy c31 c0 -> ok\nwrite c1 00000000000000000000000000000000 -> ok\nmalloc c3 16 -> nospace swept 0\n",
            "differs 14: the sweep takes 1 tag, and the log says nospace swept 0
granule 0x4000fff0 base 0x40000200
1 word due
",
        ),
        // Here the tags are counted well.
        (
            "sweep -> cleared 4 released 32\n",
            "differs 11: the answer must be cleared 4 released 16, and the log says cleared 4 released 32\n",
        ),
        // No pass is told of.
        (
            "sweep -> ok\n",
            "differs 11: the answer must be cleared 4 released 16, and the log says ok\n",
        ),
    ];
    for (event, lines) in rows {
        let text = format!(in alloc; "{WAITING}{event}").expect(&rt, "there is memory");
        let (status, told) = judged(&rt, alloc, &text);
        assert_eq!(rt; told.as_slice(), lines.as_bytes());
        assert_eq!(rt; status, 5);
    }
}

// A log with so many words of a block that waits, in lines 3 to one more than the last, and a sweep that takes none of them.
fn with_words(alloc: Global, count: u64) -> Result<String, AllocError> {
    let mut text = String::new(alloc);
    text.push_str("heap 0x40000000 16\ngiven waiting 0x40000200 0x40000210\n")?;
    for i in 0..count.min(1000) {
        let address = 0x4000_1000 + 16 * i;
        let line = format!(in alloc;
            "given granule 0x{address:x} 1 00020040000000000482850400003d00\n"
        )?;
        text.push_str(&line)?;
    }
    text.push_str("sweep -> cleared 0 released 16\n")?;
    Ok(text)
}

// The lines of the first words of it.
fn first_words(alloc: Global, count: u64) -> Result<String, AllocError> {
    let mut text = String::new(alloc);
    for i in 0..count.min(1000) {
        let address = 0x4000_1000 + 16 * i;
        let line = format!(in alloc; "granule 0x{address:x} base 0x40000200\n")?;
        text.push_str(&line)?;
    }
    Ok(text)
}

#[test]
fn the_first_100_words_are_told(rt: HostRuntime) {
    let alloc = rt.alloc();
    let lines = first_words(alloc, 100).expect(&rt, "there is memory");
    for (count, line) in [(100u64, 103u64), (101, 104), (230, 233)] {
        let text = with_words(alloc, count).expect(&rt, "there is memory");
        let (status, told) = judged(&rt, alloc, &text);
        let wanted = format!(in alloc;
            "differs {line}: the answer must be cleared {count} released 16, and the log says cleared 0 released 16\n{lines}{count} words due\n"
        ).expect(&rt, "there is memory");
        assert_eq!(rt; told.as_slice(), wanted.as_bytes());
        assert_eq!(rt; status, 5);
    }
}

#[test]
fn flaws_of_given_lines_are_told(rt: HostRuntime) {
    let rows = [
        (
            "heap 0x40000000 16
given live 0x40000100 0x40000120
given waiting 0x40000110 0x40000120
",
            "unsafe 3: the block lies over the block 0x40000100 0x40000120, given at line 2\n",
        ),
        (
            "heap 0x40000000 16\ngiven live 0x40000108 0x40000120\n",
            "unsafe 2: the block is not whole granules\n",
        ),
        (
            "heap 0x40000000 16\ngiven waiting 0x40000100 0x40000100\n",
            "unsafe 2: the block is empty\n",
        ),
        (
            "heap 0x40000000 16\ngiven painted 0x40010000 0x40010010\n",
            "unsafe 2: the block lies outside the heap\n",
        ),
        (
            "heap 0x40000000 16\ngiven live 0x40000010 0x40004020\n",
            "unsafe 2: the block has bounds that no capability holds\n",
        ),
        (
            "heap 0x40000000 16\ngiven granule 0x40010000 0 00000000000000000000000000000000\n",
            "unsafe 2: no granule of the heap lies at this address\n",
        ),
        (
            "heap 0x40000000 16\n\ngiven register c1 1 00020040000000000482850400003d00\n",
            "unsafe 3: the word's bounds 0x40000200 0x40000210 lie in no block\n",
        ),
        (
            "heap 0x40000000 16\ngiven register c1 0 00020040000000000482850400003d00\ngiven register c1 0 00020040000000000482850400003d00\n",
            "unsafe 3: register c1 was given at line 2\n",
        ),
        (
            "heap 0x40000000 16\ngiven granule 0x40000000 0 00020040000000000482850400003d00\n\ngiven granule 1073741824 1 00020040000000000482850400003d00\n",
            "unsafe 4: granule 0x40000000 was given at line 2\n",
        ),
        (
            "heap 0x40000000 16\ngiven register c0 1 00000000000000000000000000000000\n",
            "unsafe 2: register c0 is always null\n",
        ),
    ];
    for (text, line) in rows {
        let (status, told) = judged(&rt, rt.alloc(), text);
        assert_eq!(rt; told.as_slice(), line.as_bytes());
        assert_eq!(rt; status, 5);
    }
}

#[test]
fn faults_are_named(rt: HostRuntime) {
    let rows = [
        ("", "fault no-heap 1\n"),
        ("heap 0x40000001 1", "fault bad-heap 1\n"),
        ("heap 0x40000000 1\nsweep", "fault bad-answer 2\n"),
        ("heap 0x40000000 1\n\nfrob -> ok", "fault bad-command 3\n"),
        (
            "heap 0x40000000 1\nfree c32 -> held 16",
            "fault bad-register 2\n",
        ),
    ];
    for (text, line) in rows {
        let (status, told) = judged(&rt, rt.alloc(), text);
        assert_eq!(rt; told.as_slice(), line.as_bytes());
        assert_eq!(rt; status, 3);
    }
}

// A log of so many bytes: a heap line, and a comment.
fn long_log(alloc: Global, length: usize) -> Result<Vec<u8>, AllocError> {
    let mut text = Vec::from_slice(alloc, b"heap 0x40000000 1\n#")?;
    text.resize(length, b'x')?;
    Ok(text)
}

#[test]
fn a_log_has_16777216_bytes_at_most(rt: HostRuntime) {
    let alloc = rt.alloc();
    let text = long_log(alloc, 16_777_216).expect(&rt, "there is memory");
    let (status, told) = answer(&rt, alloc, &["heap_check"], &text, (1_000_000, 1000));
    assert_eq!(rt; status, 0);
    assert_eq!(rt; told.as_slice(), EMPTY.as_bytes());
    let text = long_log(alloc, 16_777_217).expect(&rt, "there is memory");
    let mut reader = Slow {
        rest: &text,
        step: 1_000_000,
        breaks: false,
        has_failed: false,
    };
    let mut writer = Fixed::new();
    let mut errors = Fixed::new();
    let words = ["heap_check"];
    let status = check_tool(&rt, alloc, &words, &mut reader, &mut writer, &mut errors);
    let wanted =
        "heap_check: a log has at most 16777216 bytes (docs/QUARANTINE.md: What it prints)\n";
    assert_eq!(rt; status, 3);
    assert_eq!(rt; writer.text(), b"fault too-long\n".as_slice());
    assert_eq!(rt; errors.text(), wanted.as_bytes());
}

#[test]
fn a_writer_without_room_is_status_4(rt: HostRuntime) {
    let (status, told) = answer(
        &rt,
        rt.alloc(),
        &["heap_check"],
        LESSON.as_bytes(),
        (100, 20),
    );
    assert_eq!(rt; status, 4);
    assert_eq!(rt; told.as_slice(), &LESSON_LINE.as_bytes()[..20]);
}

#[test]
fn a_reader_that_breaks_is_status_4(rt: HostRuntime) {
    let mut reader = Slow {
        rest: LESSON.as_bytes(),
        step: 5,
        breaks: true,
        has_failed: false,
    };
    let mut writer = Fixed::new();
    let status = check_tool(
        &rt,
        rt.alloc(),
        &["heap_check"],
        &mut reader,
        &mut writer,
        &mut Fixed::new(),
    );
    assert_eq!(rt; status, 4);
    assert!(rt; writer.text().is_empty());
}

// The heap line's 17 bytes take 4 reads of up to 5 bytes, and the fifth finds the end.
const READS: usize = 5;

#[test]
fn each_read_that_fails_alone_is_status_4(rt: HostRuntime) {
    for number in 1..=READS + 1 {
        let mut reader = Failing::new(b"heap 0x40000000 1", 5, number);
        let mut writer = Fixed::new();
        let status = check_tool(
            &rt,
            rt.alloc(),
            &["heap_check"],
            &mut reader,
            &mut writer,
            &mut Fixed::new(),
        );
        if number <= READS {
            assert_eq!(rt; status, 4, "read {number}");
            assert_eq!(rt; writer.text().len(), 0, "read {number}");
        } else {
            assert_eq!(rt; status, 0);
            assert_eq!(rt; writer.text(), EMPTY.as_bytes());
        }
        assert_eq!(rt; reader.calls(), number.min(READS));
    }
}

// What the program answers to a log by devices that need no memory, or that memory ran out.
fn is_answered<R: Threads + Sync>(rt: &R, alloc: Global, log: &str, wanted: (u8, &str)) -> bool {
    let mut reader = Slow {
        rest: log.as_bytes(),
        step: 1000,
        breaks: false,
        has_failed: false,
    };
    let mut writer = Fixed::new();
    let status = check_tool(
        rt,
        alloc,
        &["heap_check"],
        &mut reader,
        &mut writer,
        &mut Fixed::new(),
    );
    let (whole, text) = wanted;
    if status == 1 {
        writer.text() == b"fault memory\n".as_slice()
    } else {
        status == whole && writer.text() == text.as_bytes()
    }
}

// These are run with each allocation refused in turn, too: the whole answer, or want of memory and nothing of the answer.
#[test]
fn a_refused_allocation_of_a_log_that_agrees_is_told(rt: HostRuntime) {
    let line = "agrees 8 commands, 2 blocks handed out, 4 passes, 2 tags taken\n";
    assert!(rt; is_answered(&rt, rt.alloc(), AGREEING, (0, line)));
}

#[test]
fn a_refused_allocation_of_a_log_that_differs_is_told(rt: HostRuntime) {
    assert!(rt; is_answered(&rt, rt.alloc(), LESSON, (5, LESSON_LINE)));
}

#[test]
fn a_refused_allocation_of_words_that_are_due_is_told(rt: HostRuntime) {
    let text = "heap 0x40000000 16
malloc c1 16 -> block 0x40000100 0x40000110
storecap c1 c1 -> ok
free c1 -> held 16
sweep -> cleared 0 released 16
";
    let lines =
        "differs 5: the answer must be cleared 2 released 16, and the log says cleared 0 released 16
c1 base 0x40000100
granule 0x40000100 base 0x40000100
2 words due
";
    assert!(rt; is_answered(&rt, rt.alloc(), text, (5, lines)));
}

#[test]
fn a_refused_allocation_of_an_unsafe_state_is_told(rt: HostRuntime) {
    let text = "heap 0x40000000 16\ngiven live 0x40000100 0x40000100\n";
    let line = "unsafe 2: the block is empty\n";
    assert!(rt; is_answered(&rt, rt.alloc(), text, (5, line)));
}

#[test]
fn a_refused_allocation_of_a_fault_is_told(rt: HostRuntime) {
    let text = "heap 0x40000000 16\nsweep\n";
    assert!(rt; is_answered(&rt, rt.alloc(), text, (3, "fault bad-answer 2\n")));
}
