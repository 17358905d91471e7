//! Traces that the program runs.

use crate::devices::{Failing, Fixed, Short, Slow};
use heap_command::tool;
use program_devices::{Failed, Source};
use std::alloc::Global;
use std::process::Abort;
use std::thread::Threads;

const WORDS: &[&str] = &["heap_tool", "run"];

// What the program writes for this text, read and written in pieces of so many bytes, after its status.
fn answer<R: Threads + Sync>(rt: &R, alloc: Global, text: &[u8], step: usize) -> (u8, Vec<u8>) {
    answer_for(rt, alloc, WORDS, text, step)
}

// The same for these words.
fn answer_for<R: Threads + Sync>(
    rt: &R,
    alloc: Global,
    words: &[&str],
    text: &[u8],
    step: usize,
) -> (u8, Vec<u8>) {
    let mut reader = Slow {
        rest: text,
        step: step.max(1),
        breaks: false,
        has_failed: false,
    };
    let mut writer = Short {
        taken: Vec::new(alloc),
        step,
        room: 10_000,
        has_failed: false,
    };
    let status = tool(rt, alloc, words, &mut reader, &mut writer);
    (status, writer.taken)
}

// Two blocks of which the second finds no room, and a third that does.
const TWO_BLOCKS: &str = "heap 0x40000000 1
malloc c1 4080
malloc c2 32
malloc c3 16
copy c4 c1
show c4
";

const TWO_BLOCKS_REPORT: &str = "2 malloc block 0x40000000 0x40000ff0
3 malloc nospace
4 malloc block 0x40000ff0 0x40001000
5 copy ok
6 show tag 1 address 0x40000000 base 0x40000000 top 0x40000ff0 perms 0x3d type 0x3ffff exponent 0
end live 4096 held 0 free 0 tags 3
";

#[test]
fn traces_are_run(rt: HostRuntime) {
    let rows = [
        (TWO_BLOCKS, TWO_BLOCKS_REPORT),
        ("heap 0x40000000 1", "end live 0 held 0 free 4096 tags 0\n"),
        (
            "heap 0x40000000 1\nmalloc c0 0\nshow c0",
            "2 malloc block 0x40000000 0x40000010\n3 show tag 0 address 0x0 base 0x0 top 0x10000000000000000 perms 0x0 type 0x3ffff exponent 52\nend live 16 held 0 free 4080 tags 0\n",
        ),
        (
            "# a comment, \u{e9}\n\n \t\r\nheap\t0x40000000 \r1\r\nmalloc c1 16 \n# c1\nshow c1",
            "5 malloc block 0x40000000 0x40000010\n7 show tag 1 address 0x40000000 base 0x40000000 top 0x40000010 perms 0x3d type 0x3ffff exponent 0\nend live 16 held 0 free 4080 tags 1\n",
        ),
    ];
    for (trace, report) in rows {
        let (status, text) = answer(&rt, rt.alloc(), trace.as_bytes(), 1000);
        assert_eq!(rt; status, 0);
        assert_eq!(rt; text.as_slice(), report.as_bytes());
    }
}

// A capability that data is written over, and one in the next granule that stays.
const OVERWRITTEN: &str = "heap 0x40000000 1
malloc c1 32
storecap c1 c1
setaddr c2 c1 0x40000010
storecap c2 c1
write c1 000102030405060708090a0b0c0d0e0f
";

const OVERWRITTEN_REPORT: &str = "2 malloc block 0x40000000 0x40000020
3 storecap ok
4 setaddr ok
5 storecap ok
6 write ok
end live 32 held 0 free 4064 tags 3
";

const OVERWRITTEN_IMAGE: &str = "0x40000000 0 000102030405060708090a0b0c0d0e0f
0x40000010 1 00000040000000000480090400003d00
";

#[test]
fn an_image_comes_after_the_report(rt: HostRuntime) {
    let words = ["heap_tool", "run", "--image"];
    for step in [5, 1000] {
        let (status, text) = answer_for(&rt, rt.alloc(), &words, OVERWRITTEN.as_bytes(), step);
        assert_eq!(rt; status, 0);
        let (report, image) = text.split_at(OVERWRITTEN_REPORT.len().min(text.len()));
        assert_eq!(rt; report, OVERWRITTEN_REPORT.as_bytes());
        assert_eq!(rt; image, OVERWRITTEN_IMAGE.as_bytes());
    }
    let (status, text) = answer(&rt, rt.alloc(), OVERWRITTEN.as_bytes(), 1000);
    assert_eq!(rt; status, 0);
    assert_eq!(rt; text.as_slice(), OVERWRITTEN_REPORT.as_bytes());
    let (status, text) = answer_for(&rt, rt.alloc(), &words, b"heap 0x40000000 0", 1000);
    assert_eq!(rt; status, 3);
    assert_eq!(rt; text.as_slice(), "fault bad-heap 1\n".as_bytes());
}

// A block whose addresses come back after the sweep, on seven pages.
const SWEPT: &str = "heap 0x40000000 7
malloc c1 32
copy c2 c1
free c1
malloc c3 32
sweep
malloc c4 32
";

const SWEPT_REPORT: &str = "2 malloc block 0x40000000 0x40000020
3 copy ok
4 free held 32
5 malloc block 0x40000020 0x40000040
6 sweep cleared 2 released 32
7 malloc block 0x40000000 0x40000020
end live 64 held 0 free 28608 tags 2
";

// A malloc without a place, which sweeps.
const FULL: &str = "heap 0x40000000 1
malloc c1 4096
free c1
malloc c2 32
malloc c3 8192
copy c4 c2
free c2
malloc c2 8192
show c4
";

const FULL_REPORT: &str = "2 malloc block 0x40000000 0x40001000
3 free held 4096
4 malloc block 0x40000000 0x40000020 swept 1
5 malloc nospace
6 copy ok
7 free held 32
8 malloc nospace swept 2
9 show tag 0 address 0x40000000 base 0x40000000 top 0x40000020 perms 0x3d type 0x3ffff exponent 0
end live 0 held 0 free 4096 tags 0
";

// The trace gives the report with each cutting, and no line of an image.
fn each_cutting_answers<R: Abort + Threads + Sync>(
    rt: &R,
    alloc: Global,
    trace: &str,
    report: &str,
) {
    for workers in ["1", "2", "64"] {
        for pages in ["1", "3", "256"] {
            let words = [
                "heap_tool",
                "run",
                "--workers",
                workers,
                "--cut",
                pages,
                "--image",
            ];
            let (status, text) = answer_for(rt, alloc, &words, trace.as_bytes(), 1000);
            assert_eq!(rt; status, 0);
            assert_eq!(rt; text.as_slice(), report.as_bytes());
        }
    }
}

#[test]
fn each_cutting_gives_one_answer(rt: HostRuntime) {
    each_cutting_answers(&rt, rt.alloc(), SWEPT, SWEPT_REPORT);
}

#[test]
fn each_cutting_gives_one_answer_where_malloc_sweeps(rt: HostRuntime) {
    each_cutting_answers(&rt, rt.alloc(), FULL, FULL_REPORT);
}

#[test]
fn numbers_may_come_in_any_order(rt: HostRuntime) {
    let all: [&[&str]; 4] = [
        &["heap_tool", "run", "--workers", "64", "--cut", "1"],
        &["heap_tool", "run", "--cut=1", "--workers=64"],
        &[
            "heap_tool",
            "run",
            "--image",
            "--cut",
            "256",
            "--workers",
            "3",
        ],
        &["heap_tool", "run", "--workers", "2"],
    ];
    for words in all {
        let (status, text) = answer_for(&rt, rt.alloc(), words, SWEPT.as_bytes(), 1000);
        assert_eq!(rt; status, 0);
        assert_eq!(rt; text.as_slice(), SWEPT_REPORT.as_bytes());
    }
}

#[test]
fn faulty_texts_are_not_run(rt: HostRuntime) {
    let rows = [
        ("", "fault no-heap 1\n"),
        ("# x\n", "fault no-heap 2\n"),
        ("# x\n\n# y", "fault no-heap 4\n"),
        ("heap 0x40000008 1", "fault bad-heap 1\n"),
        ("\nheap 0x40000000 1025", "fault bad-heap 2\n"),
        (
            "heap 0x40000000 1\nmalloc c32 16\nfrob",
            "fault bad-register 2\n",
        ),
        ("heap 0x40000000 1\nmalloc c1", "fault bad-count 2\n"),
        ("heap 0x40000000 1\nmalloc c1 x", "fault bad-number 2\n"),
        (
            "heap 0x40000000 1\nmalloc c1 16\nfrob c1",
            "fault bad-command 3\n",
        ),
        (
            "heap 0x40000000 1\nheap 0x40000000 1",
            "fault bad-command 2\n",
        ),
        ("heap 0x40000000 1\nsweep now", "fault bad-count 2\n"),
        (
            "heap 0x40000000 1\nmalloc c1 16\nwrite c1 0001",
            "fault bad-data 3\n",
        ),
    ];
    for (trace, line) in rows {
        let (status, text) = answer(&rt, rt.alloc(), trace.as_bytes(), 1000);
        assert_eq!(rt; status, 3);
        assert_eq!(rt; text.as_slice(), line.as_bytes());
    }
}

#[test]
fn words_that_are_no_utf_8_are_told_apart(rt: HostRuntime) {
    let rows: [(&[u8], u8, &str); 2] = [
        (
            b"# \xff\xfe\nheap 0x40000000 1",
            0,
            "end live 0 held 0 free 4096 tags 0\n",
        ),
        (b"heap 0x40000000 1\n\xff c1", 3, "fault bad-command 2\n"),
    ];
    for (trace, wanted, line) in rows {
        let (status, text) = answer(&rt, rt.alloc(), trace, 1000);
        assert_eq!(rt; status, wanted);
        assert_eq!(rt; text.as_slice(), line.as_bytes());
    }
}

#[test]
fn short_reads_and_writes_are_continued(rt: HostRuntime) {
    for step in [1, 7, 60] {
        let (status, text) = answer(&rt, rt.alloc(), TWO_BLOCKS.as_bytes(), step);
        assert_eq!(rt; status, 0);
        assert_eq!(rt; text.as_slice(), TWO_BLOCKS_REPORT.as_bytes());
    }
}

#[test]
fn a_failed_read_writes_nothing(rt: HostRuntime) {
    for room in 0..TWO_BLOCKS.len() {
        let mut reader = Slow {
            rest: &TWO_BLOCKS.as_bytes()[..room],
            step: 7,
            breaks: true,
            has_failed: false,
        };
        let mut writer = Fixed::new();
        let status = tool(&rt, rt.alloc(), WORDS, &mut reader, &mut writer);
        assert_eq!(rt; status, 4);
        assert!(rt; reader.has_failed());
        assert_eq!(rt; writer.text().len(), 0);
    }
}

// The trace's 78 bytes take 12 reads of up to 7 bytes, and the 13th finds the end.
const READS: usize = 13;

#[test]
fn each_read_that_fails_alone_is_status_4(rt: HostRuntime) {
    for number in 1..=READS {
        let mut reader = Failing::new(TWO_BLOCKS.as_bytes(), 7, number);
        let mut writer = Fixed::new();
        let status = tool(&rt, rt.alloc(), WORDS, &mut reader, &mut writer);
        assert_eq!(rt; status, 4, "read {number}");
        assert_eq!(rt; writer.text().len(), 0, "read {number}");
        assert_eq!(rt; reader.calls(), number);
    }
    let mut reader = Failing::new(TWO_BLOCKS.as_bytes(), 7, READS + 1);
    let mut writer = Short {
        taken: Vec::new(rt.alloc()),
        step: 1000,
        room: 1000,
        has_failed: false,
    };
    let status = tool(&rt, rt.alloc(), WORDS, &mut reader, &mut writer);
    assert_eq!(rt; status, 0);
    assert_eq!(rt; writer.taken.as_slice(), TWO_BLOCKS_REPORT.as_bytes());
    assert_eq!(rt; reader.calls(), READS);
}

#[test]
fn a_failed_write_leaves_a_beginning(rt: HostRuntime) {
    for room in 0..TWO_BLOCKS_REPORT.len() {
        let mut reader = Slow {
            rest: TWO_BLOCKS.as_bytes(),
            step: 1000,
            breaks: false,
            has_failed: false,
        };
        let mut writer = Short {
            taken: Vec::new(rt.alloc()),
            step: 50,
            room,
            has_failed: false,
        };
        let status = tool(&rt, rt.alloc(), WORDS, &mut reader, &mut writer);
        assert_eq!(rt; status, 4);
        assert_eq!(rt;
            writer.taken.as_slice(),
            &TWO_BLOCKS_REPORT.as_bytes()[..room]
        );
    }
}

/// A reader of a heap line, and of a comment after it that makes so many bytes of the whole.
#[derive(Drop)]
struct Comment {
    given: usize,
    length: usize,
    has_failed: bool,
}

const HEAP_LINE: &[u8] = b"heap 0x40000000 1\n";

impl Source for Comment {
    ghost failed = { λ source. source.has_failed };

    fn read(&mut self, buf: &mut [u8]) -> Result<usize, Failed> {
        let count = buf.len().min(self.length.saturating_sub(self.given));
        buf[..count].fill(b'#');
        if self.given == 0 && count >= HEAP_LINE.len() {
            buf[..HEAP_LINE.len()].copy_from_slice(HEAP_LINE);
        }
        self.given = self.given.saturating_add(count);
        Ok(count)
    }

    fn has_failed(&self) -> bool {
        self.has_failed
    }
}

#[test]
fn a_trace_has_so_many_bytes_at_most(rt: HostRuntime) {
    let rows = [
        (4_194_304, 0, "end live 0 held 0 free 4096 tags 0\n"),
        (4_194_305, 3, "fault too-long\n"),
        (5_000_000, 3, "fault too-long\n"),
    ];
    for (length, wanted, line) in rows {
        let mut reader = Comment {
            given: 0,
            length,
            has_failed: false,
        };
        let mut writer = Fixed::new();
        let status = tool(&rt, rt.alloc(), WORDS, &mut reader, &mut writer);
        assert_eq!(rt; status, wanted);
        assert_eq!(rt; writer.text(), line.as_bytes());
        assert_eq!(rt; reader.given, length.min(4_194_305));
    }
}

// Run with each allocation refused in turn, too.
#[test]
fn a_refused_allocation_of_a_run_is_told(rt: HostRuntime) {
    let mut reader = Slow {
        rest: b"heap 0x40000000 1\nmalloc c1 16\n",
        step: 1000,
        breaks: false,
        has_failed: false,
    };
    let mut writer = Fixed::new();
    let status = tool(&rt, rt.alloc(), WORDS, &mut reader, &mut writer);
    let report = "2 malloc block 0x40000000 0x40000010\nend live 16 held 0 free 4080 tags 1\n";
    if status == 1 {
        assert_eq!(rt; writer.text(), b"fault memory\n".as_slice());
    } else {
        assert_eq!(rt; status, 0);
        assert_eq!(rt; writer.text(), report.as_bytes());
    }
}

// As above, with the image.
#[test]
fn a_refused_allocation_of_an_image_is_told(rt: HostRuntime) {
    let mut reader = Slow {
        rest: b"heap 0x40000000 1\nmalloc c1 16\nstorecap c1 c0\nwrite c1 ff000000000000000000000000000000",
        step: 1000,
        breaks: false,
        has_failed: false,
    };
    let mut writer = Fixed::new();
    let words = ["heap_tool", "run", "--image"];
    let status = tool(&rt, rt.alloc(), &words, &mut reader, &mut writer);
    let text =
        "2 malloc block 0x40000000 0x40000010\n3 storecap ok\n4 write ok\nend live 16 held 0 free 4080 tags 1\n0x40000000 0 ff000000000000000000000000000000\n";
    if status == 1 {
        assert_eq!(rt; writer.text(), b"fault memory\n".as_slice());
    } else {
        assert_eq!(rt; status, 0);
        assert_eq!(rt; writer.text(), text.as_bytes());
    }
}

// As above, where the text is faulty.
#[test]
fn a_refused_allocation_of_a_fault_is_told(rt: HostRuntime) {
    let mut reader = Slow {
        rest: b"heap 0x40000000 1\nfrob\n",
        step: 1000,
        breaks: false,
        has_failed: false,
    };
    let mut writer = Fixed::new();
    let status = tool(&rt, rt.alloc(), WORDS, &mut reader, &mut writer);
    if status == 1 {
        assert_eq!(rt; writer.text(), b"fault memory\n".as_slice());
    } else {
        assert_eq!(rt; status, 3);
        assert_eq!(rt; writer.text(), b"fault bad-command 2\n".as_slice());
    }
}
