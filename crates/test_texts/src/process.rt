//! What a process is asked, by whatever name it was started.

use command_line::{Asked, Refusal, arguments, asked_by};
use std::alloc::Global;
use std::env::FillError;
use std::rt::Env;

// A process with these arguments, as bytes.
#[derive(Drop)]
struct Process<'a> {
    alloc: Global,
    words: &'a [&'a [u8]],
}

impl Alloc for Process<'_> {
    type A = Global;

    fn alloc(&self) -> Global {
        self.alloc
    }
}

impl Env for Process<'_> {
    fn arg(&self, i: usize, buf: &mut [u8]) -> Result<usize, FillError> {
        let Some(word) = self.words.get(i) else {
            return Err(FillError::NotPresent);
        };
        let Some(start) = buf.get_mut(..word.len()) else {
            return Err(FillError::TooLong);
        };
        start.copy_from_slice(word);
        Ok(word.len())
    }

    fn var(&self, _name: &str, _buf: &mut [u8]) -> Result<usize, FillError> {
        Err(FillError::NotPresent)
    }

    fn var_at(&self, _i: usize, _buf: &mut [u8]) -> Result<usize, FillError> {
        Err(FillError::NotPresent)
    }
}

const HEX: &str = "00000040000000000480090400003d00";

#[test]
fn a_name_that_is_no_text_is_no_wrong_word(rt: HostRuntime) {
    let names: [&[u8]; 4] = [b"\xff", b"/usr/bin/\xc3\x28", b"", b"heap_tool"];
    for name in names {
        let process = Process {
            alloc: rt.alloc(),
            words: &[name, b"word", HEX.as_bytes()],
        };
        let arguments = arguments(&process).expect(&rt, "there is memory");
        let words: Vec<&str> = arguments
            .iter()
            .map(|word| word.as_str())
            .collect(rt.alloc())
            .expect(&rt, "there is memory");
        assert_eq!(rt;
            words.as_slice(),
            ["heap_tool", "word", HEX].as_slice(),
            "started as {name:?}"
        );
        match asked_by(rt.alloc(), &words).expect(&rt, "there is memory") {
            Asked::Word(hex) => assert_eq!(rt; hex, HEX),
            Asked::Run(options) => panic!(rt; "a run with {options:?}"),
        }
    }
}

#[test]
fn another_word_that_is_no_text_is_refused(rt: HostRuntime) {
    let all: [&[&[u8]]; 3] = [
        &[b"heap_tool", b"\xff"],
        &[b"heap_tool", b"\xff", b"00000000000000000000000000000000"],
        &[b"\xff", b"word", b"0000004000000000048009040000\xc3\x28"],
    ];
    for words in all {
        let process = Process {
            alloc: rt.alloc(),
            words,
        };
        match arguments(&process) {
            Ok(arguments) => panic!(rt; "{} words", arguments.len()),
            Err(refusal) => assert_eq!(rt; refusal, Refusal::Words),
        }
    }
}

#[test]
fn without_arguments_the_name_is_the_only_word(rt: HostRuntime) {
    let process = Process {
        alloc: rt.alloc(),
        words: &[],
    };
    let arguments = arguments(&process).expect(&rt, "there is memory");
    let words: Vec<&str> = arguments
        .iter()
        .map(|word| word.as_str())
        .collect(rt.alloc())
        .expect(&rt, "there is memory");
    assert_eq!(rt; words.as_slice(), ["heap_tool"].as_slice());
    match asked_by(rt.alloc(), &words) {
        Ok(_) => panic!(rt; "something is asked for"),
        Err(refusal) => assert_eq!(rt; refusal, Refusal::Words),
    }
}

// Run with each allocation refused in turn, too.
#[test]
fn a_refused_allocation_of_the_words_is_told(rt: HostRuntime) {
    let process = Process {
        alloc: rt.alloc(),
        words: &[b"heap_tool", b"word", HEX.as_bytes()],
    };
    match arguments(&process) {
        Ok(arguments) => assert_eq!(rt; arguments.len(), 3),
        Err(refusal) => assert_eq!(rt; refusal, Refusal::Memory),
    }
}
