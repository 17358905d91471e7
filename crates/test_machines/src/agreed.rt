//! Logs that agree, found in one pass.

use agreed_log::agreed;
use heap_log::Tally;
use heap_machine::Workers;
use std::alloc::{AllocError, Global};
use std::process::Abort;
use std::thread::Threads;
use sweep_pool::Cutting;

fn found<R: Abort + Threads + Sync>(rt: &R, alloc: Global, text: &str) -> Option<Tally> {
    let cutting = Cutting::new(2, 3).expect(rt, "it is a cutting");
    agreed(&Workers { rt }, alloc, text.as_bytes(), cutting)
}

// Each kind of answer, and each kind of line.
const AGREEING: &str = "# how it was\r
heap 0x40000000 16
given live 0x40000000 0x40000010
given waiting 0x40000020 0x40000030

given register c9 0 00000000000000000000000000000000
malloc c1 20 -> block 0x40000100 0x40000120
show c1 -> tag 1 address 0x40000100 base 0x40000100 top 0x40000120 perms 0x3d type 0x3ffff exponent 0
\tcopy c2  c1 -> ok
setaddr c3 c1 0x50000000 -> cleared
storecap c1 c1 -> ok
storecap c3 c1 -> trap tag
  # three words lead into the block: two in registers, and one in memory
free c1 -> held 32
malloc c4 16 ->  block 0x40000200 0x40000210 swept 3
granule 0x40000100 ->\t0 00010040000000000481490400003d00
malloc c5 70000 -> nospace
free c4 -> held 16
malloc c6 70000 -> nospace swept 1
sweep -> cleared 0 released 0
begin -> cleared 0
sweep -> trap open
end -> cleared 0 released 0";

#[test]
fn a_log_with_every_kind_of_answer_is_found(rt: HostRuntime) {
    let tally = Tally {
        tags: 4,
        commands: 15,
        blocks: 2,
        passes: 5,
    };
    assert_eq!(rt; found(&rt, rt.alloc(), AGREEING), Some(tally));
}

#[test]
fn a_heap_alone_is_found(rt: HostRuntime) {
    let none = Tally {
        tags: 0,
        commands: 0,
        blocks: 0,
        passes: 0,
    };
    assert_eq!(rt; found(&rt, rt.alloc(), "heap 0x40000000 1"), Some(none));
    assert_eq!(rt;
        found(&rt, rt.alloc(), "heap 0x40000000 1\n# end\n"),
        Some(none)
    );
}

// A log of so many bytes: one event, and a comment before it that fills the rest.
fn long_log(alloc: Global, length: usize) -> Result<String, AllocError> {
    let start = "heap 0x40000000 1\n#";
    let event = "\nmalloc c1 16 -> block 0x40000000 0x40000010\n";
    let mut text = String::new(alloc);
    text.push_str(start)?;
    let filler = vec![in alloc; b'x'; length.saturating_sub(start.len() + event.len())]?;
    text.push_str(str::from_utf8(&filler).unwrap_or(""))?;
    text.push_str(event)?;
    Ok(text)
}

// However long a log is, it is found in one pass.
#[test]
fn long_logs_are_found(rt: HostRuntime) {
    let tally = Tally {
        tags: 0,
        commands: 1,
        blocks: 1,
        passes: 0,
    };
    for length in [65_536usize, 65_537, 1_000_000, 16_777_216] {
        let text = long_log(rt.alloc(), length).expect(&rt, "there is memory");
        assert_eq!(rt; text.len(), length);
        assert_eq!(rt; found(&rt, rt.alloc(), &text), Some(tally));
    }
    let text = long_log(rt.alloc(), 16_777_217).expect(&rt, "there is memory");
    assert_eq!(rt; found(&rt, rt.alloc(), &text), None);
}

// Nor does it matter how many lines it has.
#[test]
fn logs_of_many_lines_are_found(rt: HostRuntime) {
    let mut text = String::new(rt.alloc());
    text.push_str("heap 0x40000000 1\n")
        .expect(&rt, "there is memory");
    for _ in 0..100_000 {
        text.push_str("\ncopy c1 c2 -> ok\n")
            .expect(&rt, "there is memory");
    }
    let tally = Tally {
        tags: 0,
        commands: 100_000,
        blocks: 0,
        passes: 0,
    };
    assert_eq!(rt; found(&rt, rt.alloc(), &text), Some(tally));
}

// Logs that lack something, one thing each, and those that are spelled unusually.
#[test]
fn other_logs_are_declined(rt: HostRuntime) {
    let rows = [
        "",
        "heap 0x40000000 0\n",
        "heap 0x40000000 1\ngiven live 0x40000000 0x40000001\n",
        "heap 0x40000000 1\ngiven live 0x40000000 0x40000010\ngiven live 0x40000000 0x40000010\n",
        "heap 0x40000000 1\nsweep -> cleared 0 released 0\ngiven epoch\n",
        "heap 0x40000000 1\nsweep -> cleared 0 released 0\nsweep -> cleared 0 released 1\n",
        "heap 0x40000000 1\nsweep -> cleared 0 released 0\nsweep -> cleared 0 released\n",
        "heap 0x40000000 1\nsweep -> cleared 0 released 0\nsweep -> cleared 0 released 0 0\n",
        "heap 0x40000000 1\nsweep ->  cleared 0 released 0\n",
        "heap 0x40000000 1\nsweep -> cleared 0 released 0 \n",
        "heap 0x40000000 1\nsweep -> cleared 0 released 0\nsweep ->",
        "heap 0x40000000 1\nsweep -> cleared 0 released 0\nsweep",
        "heap 0x40000000 1\nsweep -> cleared 0 released 0\nswept -> cleared 0 released 0",
        "heap 0x40000000 1\nsweep c1 -> cleared 0 released 0\n",
        "heap 0x40000000 1\nmalloc c1 32 -> block 0x40000000 0x40000010\n",
        "heap 0x40000000 1\nmalloc c1 16 -> block 0x40001000 0x40001010\n",
        "heap 0x40000000 1\nmalloc c1 16 -> trap tag\n",
        "heap 0x40000000 1\ngranule 0x40000000 -> 1 00000000000000000000000000000000\n",
        "heap 0x40000000 1\ngranule 0x40001000 -> 0 00000000000000000000000000000000\n",
        "heap 0x40000000 1\ngranule 0x40000000 -> 0\n",
    ];
    for text in rows {
        assert_eq!(rt; found(&rt, rt.alloc(), text), None);
    }
}
