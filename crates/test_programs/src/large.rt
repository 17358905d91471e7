//! Texts of megabytes, through the wrappers of the standard library's devices.

use heap_command::tool;
use program_devices::{FromRead, FromWrite};
use std::alloc::{AllocError, Global};
use std::thread::Threads;

const HEAP: &[u8] = b"heap 0x40000000 1\n";

const END: &[u8] = b"end live 0 held 0 free 4096 tags 0\n";

// What the program writes for these words and this text, after its status.
fn answer_to<R: Threads + Sync>(
    rt: &R,
    alloc: Global,
    words: &[&str],
    text: &[u8],
) -> (u8, Vec<u8>) {
    let mut taken = Vec::new(alloc);
    let mut reader = FromRead::new(text);
    let mut writer = FromWrite::new(&mut taken);
    let status = tool(rt, alloc, words, &mut reader, &mut writer);
    drop(writer);
    (status, taken)
}

fn answer<R: Threads + Sync>(rt: &R, alloc: Global, text: &[u8]) -> (u8, Vec<u8>) {
    answer_to(rt, alloc, &["heap_tool", "run"], text)
}

#[test]
fn a_trace_has_4194304_bytes_at_most(rt: HostRuntime) {
    let mut text = Vec::from_slice(rt.alloc(), HEAP).expect(&rt, "there is memory");
    text.push(b'#').expect(&rt, "there is memory");
    text.resize(4_194_304, b'x').expect(&rt, "there is memory");
    let (status, report) = answer(&rt, rt.alloc(), &text);
    assert_eq!(rt; status, 0);
    assert_eq!(rt; report.as_slice(), END);
    text.push(b'x').expect(&rt, "there is memory");
    let (status, report) = answer(&rt, rt.alloc(), &text);
    assert_eq!(rt; status, 3);
    assert_eq!(rt; report.as_slice(), b"fault too-long\n".as_slice());
}

// A trace that shows register 0 in lines 2 to 40,001.
fn shows(alloc: Global) -> Result<Vec<u8>, AllocError> {
    let mut text = Vec::from_slice(alloc, HEAP)?;
    for _ in 0..40_000 {
        text.extend_from_slice(b"show c0\n")?;
    }
    Ok(text)
}

// Whether this is the report of that trace.
fn is_report(alloc: Global, report: &[u8]) -> Result<bool, AllocError> {
    let mut rest = report;
    for number in 2..40_002 {
        let line = format!(in alloc;
            "{number} show tag 0 address 0x0 base 0x0 top 0x10000000000000000 perms 0x0 type 0x3ffff exponent 52\n"
        )?;
        match rest.strip_prefix(line.as_bytes()) {
            Some(after) => rest = after,
            None => return Ok(false),
        }
    }
    Ok(rest == END)
}

#[test]
fn a_report_of_megabytes_is_written_whole(rt: HostRuntime) {
    let text = shows(rt.alloc()).expect(&rt, "there is memory");
    let (status, report) = answer(&rt, rt.alloc(), &text);
    assert_eq!(rt; status, 0);
    assert!(rt; report.len() > 3_000_000);
    assert!(rt; is_report(rt.alloc(), &report).expect(&rt, "there is memory"));
}

// A trace of so many blocks, each of which holds its own capability. The first and the last are freed, so that the held
// granules lie all over the heap, and then it sweeps.
fn stores(alloc: Global, count: usize) -> Result<Vec<u8>, AllocError> {
    let mut text = Vec::from_slice(
        alloc,
        b"heap 0x40000000 512\nmalloc c2 16\nstorecap c2 c2\n",
    )?;
    for _ in 1..count {
        text.extend_from_slice(b"malloc c1 16\nstorecap c1 c1\n")?;
    }
    text.extend_from_slice(b"free c1\nfree c2\nsweep\n")?;
    Ok(text)
}

// The sweep has two workers, so one thread is started, and this is run with each start refused.
#[test]
fn a_refused_thread_of_a_tool_changes_nothing(rt: HostRuntime) {
    let text = stores(rt.alloc(), 90_002).expect(&rt, "there is memory");
    let (wanted, report) = answer(&rt, rt.alloc(), &text);
    let words = ["heap_tool", "run", "--workers", "3", "--cut", "2"];
    let (status, shared) = answer_to(&rt, rt.alloc(), &words, &text);
    assert_eq!(rt; wanted, 0);
    assert_eq!(rt; status, 0);
    assert!(rt;
        report.ends_with(
            b"sweep cleared 4 released 32\nend live 1440000 held 0 free 657152 tags 90000\n"
        )
    );
    assert!(rt; shared.as_slice() == report.as_slice());
}
