//! Traces whose states are told, words that are refused, and devices that fail.

use crate::devices::{Failing, Fixed, Short, Slow};
use heap_trace::{RunFault, TraceFault};
use state_data::{states, states_alone};
use states_command::states_tool;
use std::alloc::Global;
use std::thread::Threads;
use sweep_pool::Cutting;

// What the program writes for these words and this text, read in pieces of so many bytes, to a writer with this room, after
// its status.
fn answer<R: Threads + Sync>(
    rt: &R,
    alloc: Global,
    words: &[&str],
    text: &[u8],
    pieces: (usize, usize),
) -> (u8, Vec<u8>) {
    let (step, room) = pieces;
    let mut reader = Slow {
        rest: text,
        step: step.max(1),
        breaks: false,
        has_failed: false,
    };
    let mut writer = Short {
        taken: Vec::new(alloc),
        step: 100,
        room,
        has_failed: false,
    };
    let status = states_tool(rt, alloc, words, &mut reader, &mut writer);
    (status, writer.taken)
}

const EMPTY: &str = "{\"heap\":{\"base\":\"0x40000000\",\"pages\":1}}
{\"end\":{\"live\":0,\"held\":0,\"free\":4096,\"tags\":0}}
";

const USAGE: &str = "usage: heap_states [--workers N] [--cut N]\n";

#[test]
fn words_are_judged(rt: HostRuntime) {
    let rows: [(&[&str], u8, &str); 8] = [
        (&["heap_states"], 0, EMPTY),
        (&["heap_states", "--workers", "64", "--cut=1"], 0, EMPTY),
        (&["heap_states", "--image"], 2, USAGE),
        (&["heap_states", "run"], 2, USAGE),
        (&["heap_states", "word", "00"], 2, USAGE),
        (&["heap_states", "--workers", "65"], 2, USAGE),
        (&["heap_states", "--help"], 2, USAGE),
        (&[], 0, EMPTY),
    ];
    for (words, wanted, text) in rows {
        let (status, told) = answer(&rt, rt.alloc(), words, b"heap 0x40000000 1", (7, 1000));
        assert_eq!(rt; status, wanted);
        assert_eq!(rt; told.as_slice(), text.as_bytes());
    }
}

#[test]
fn faults_are_named_as_by_a_run(rt: HostRuntime) {
    let rows = [
        ("", "fault no-heap 1\n"),
        ("heap 0x40000001 1", "fault bad-heap 1\n"),
        ("heap 0x40000000 1\nfrob", "fault bad-command 2\n"),
        ("heap 0x40000000 1\n\nshow c32", "fault bad-register 3\n"),
    ];
    for (text, line) in rows {
        let (status, told) = answer(
            &rt,
            rt.alloc(),
            &["heap_states"],
            text.as_bytes(),
            (100, 1000),
        );
        assert_eq!(rt; status, 3);
        assert_eq!(rt; told.as_slice(), line.as_bytes());
    }
}

#[test]
fn a_writer_without_room_is_status_4(rt: HostRuntime) {
    let text = b"heap 0x40000000 1";
    let (status, told) = answer(&rt, rt.alloc(), &["heap_states"], text, (100, 20));
    assert_eq!(rt; status, 4);
    assert_eq!(rt; told.as_slice(), &EMPTY.as_bytes()[..20]);
}

#[test]
fn a_reader_that_breaks_is_status_4(rt: HostRuntime) {
    let mut reader = Slow {
        rest: b"heap 0x40000000 1\n",
        step: 5,
        breaks: true,
        has_failed: false,
    };
    let mut writer = Fixed::new();
    let status = states_tool(&rt, rt.alloc(), &["heap_states"], &mut reader, &mut writer);
    assert_eq!(rt; status, 4);
    assert!(rt; writer.text().is_empty());
}

// The heap line's 17 bytes take 4 reads of up to 5 bytes, and the fifth finds the end.
const READS: usize = 5;

#[test]
fn each_read_that_fails_alone_is_status_4(rt: HostRuntime) {
    for number in 1..=READS + 1 {
        let mut reader = Failing::new(b"heap 0x40000000 1", 5, number);
        let mut writer = Fixed::new();
        let status = states_tool(&rt, rt.alloc(), &["heap_states"], &mut reader, &mut writer);
        if number <= READS {
            assert_eq!(rt; status, 4, "read {number}");
            assert_eq!(rt; writer.text().len(), 0, "read {number}");
        } else {
            assert_eq!(rt; status, 0);
            assert_eq!(rt; writer.text(), EMPTY.as_bytes());
        }
        assert_eq!(rt; reader.calls(), number.min(READS));
    }
}

// Run with each allocation refused in turn, too: the whole data, or want of memory and nothing of the data.
#[test]
fn a_refused_allocation_of_told_states_is_told(rt: HostRuntime) {
    let mut reader = Slow {
        rest: b"heap 0x40000000 1\n",
        step: 100,
        breaks: false,
        has_failed: false,
    };
    let mut writer = Fixed::new();
    let status = states_tool(&rt, rt.alloc(), &["heap_states"], &mut reader, &mut writer);
    if status == 0 {
        assert_eq!(rt; writer.text(), EMPTY.as_bytes());
    } else {
        assert_eq!(rt; status, 1);
        assert_eq!(rt; writer.text(), b"fault memory\n".as_slice());
    }
}

// A block that is freed, and a sweep that finds its capability in a register.
const SWEPT: &str = "{\"heap\":{\"base\":\"0x40000000\",\"pages\":1}}
{\"line\":2,\"text\":\"malloc c1 16\",\"reply\":\"block 0x40000000 0x40000010\",\"registers\":[{\"r\":1,\"tag\":true,\"word\":\"00000040000000000480050400003d00\",\"address\":\"0x40000000\",\"base\":\"0x40000000\",\"top\":\"0x40000010\",\"perms\":61,\"type\":262143,\"exponent\":0}],\"granules\":[],\"blocks\":[{\"base\":\"0x40000000\",\"top\":\"0x40000010\",\"state\":\"live\"}]}
{\"line\":3,\"text\":\"free c1\",\"reply\":\"held 16\",\"registers\":[],\"granules\":[],\"blocks\":[{\"base\":\"0x40000000\",\"top\":\"0x40000010\",\"state\":\"waiting\"}]}
{\"line\":4,\"text\":\"sweep\",\"reply\":\"cleared 1 released 16\",\"registers\":[{\"r\":1,\"tag\":false,\"word\":\"00000040000000000480050400003d00\",\"address\":\"0x40000000\",\"base\":\"0x40000000\",\"top\":\"0x40000010\",\"perms\":61,\"type\":262143,\"exponent\":0}],\"granules\":[],\"blocks\":[{\"base\":\"0x40000000\",\"top\":\"0x40000010\",\"state\":\"free\"}],\"taken\":{\"registers\":[1],\"granules\":[]}}
{\"end\":{\"live\":0,\"held\":0,\"free\":4096,\"tags\":0}}
";

// Run with each allocation refused in turn, too.
#[test]
fn a_refused_allocation_of_states_is_told(rt: HostRuntime) {
    let text = b"heap 0x40000000 1\nmalloc c1 16\nfree c1\nsweep".as_slice();
    let cutting = Cutting::new(1, 16).expect(&rt, "it is a cutting");
    match states(&rt, rt.alloc(), text, cutting) {
        Ok(data) => assert_eq!(rt; data.as_slice(), SWEPT.as_bytes()),
        Err(fault) => assert_eq!(rt; fault, RunFault::Memory),
    }
}

// Traces that reach every command: passes of a sweep, of a malloc and of an epoch among them.
const TOLD: [&str; 3] = [
    "heap 0x40000000 1\nmalloc c1 16\nfree c1\nsweep",
    "heap 0x40000000 1
malloc c1 4064
copy c2 c1
setaddr c3 c1 0x40000020
narrow c3 c3 16
andperm c4 c3 0x5
storecap c1 c3
loadcap c5 c1
write c3 000102030405060708090a0b0c0d0e0f
free c1
malloc c6 64
show c2
",
    "heap 0x40000000 2
malloc c1 32
malloc c2 4096
malloc c3 32
storecap c2 c1
free c1
begin
storecap c3 c1
free c2
end
malloc c4 32
sweep
",
];

#[test]
fn states_are_told_without_a_runtime(rt: HostRuntime) {
    let cutting = Cutting::new(3, 1).expect(&rt, "it is a cutting");
    let data = states_alone(rt.alloc(), TOLD[0].as_bytes(), cutting).expect(&rt, "it is a trace");
    assert_eq!(rt; data.as_slice(), SWEPT.as_bytes());
    let refusal = states_alone(rt.alloc(), b"heap 0x40000000 1\nfrob", cutting).err();
    assert_eq!(rt; refusal, Some(RunFault::Trace(TraceFault::BadCommand(2))));
}

#[test]
fn states_alone_are_those_of_workers(rt: HostRuntime) {
    for workers in [1, 3] {
        let cutting = Cutting::new(workers, 1).expect(&rt, "it is a cutting");
        for text in TOLD {
            let one = states(&rt, rt.alloc(), text.as_bytes(), cutting).expect(
                &rt,
                "it is a trace",
            );
            let other = states_alone(rt.alloc(), text.as_bytes(), cutting).expect(
                &rt,
                "it is a trace",
            );
            assert_eq!(rt; one.as_slice(), other.as_slice(), "{text:?}");
        }
    }
}

// Run with each allocation refused in turn, too.
#[test]
fn a_refused_allocation_of_states_alone_is_told(rt: HostRuntime) {
    let cutting = Cutting::new(1, 16).expect(&rt, "it is a cutting");
    match states_alone(rt.alloc(), TOLD[0].as_bytes(), cutting) {
        Ok(data) => assert_eq!(rt; data.as_slice(), SWEPT.as_bytes()),
        Err(fault) => assert_eq!(rt; fault, RunFault::Memory),
    }
}
