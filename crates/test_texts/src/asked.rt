//! Words that name `run` with numbers.

use command_line::{Asked, Options, Refusal, asked_by};
use std::alloc::Global;

// The options of these words, where they name `run`, and else what they are refused for.
fn options<'a>(alloc: Global, words: &'a [&'a str]) -> Result<Option<Options>, Refusal> {
    match asked_by(alloc, words)? {
        Asked::Run(options) => Ok(Some(options)),
        Asked::Word(_) => Ok(None),
    }
}

#[test]
fn numbers_are_read(rt: HostRuntime) {
    let rows: [(&[&str], bool, u32, u32); 14] = [
        (&["heap_tool", "run"], false, 1, 16),
        (&["heap_tool", "run", "--image"], true, 1, 16),
        (
            &["heap_tool", "run", "--workers", "64", "--cut", "256"],
            false,
            64,
            256,
        ),
        (
            &["heap_tool", "run", "--workers", "1", "--cut", "1"],
            false,
            1,
            1,
        ),
        (&["heap_tool", "run", "--workers=3"], false, 3, 16),
        (&["heap_tool", "run", "--cut=100"], false, 1, 100),
        (
            &[
                "heap_tool",
                "run",
                "--cut",
                "1",
                "--workers",
                "2",
                "--image",
            ],
            true,
            2,
            1,
        ),
        (
            &[
                "heap_tool",
                "run",
                "--cut",
                "1",
                "--image",
                "--workers",
                "2",
            ],
            true,
            2,
            1,
        ),
        (
            &[
                "heap_tool",
                "run",
                "--image",
                "--cut",
                "1",
                "--workers",
                "2",
            ],
            true,
            2,
            1,
        ),
        (
            &[
                "heap_tool",
                "run",
                "--image",
                "--workers",
                "2",
                "--cut",
                "1",
            ],
            true,
            2,
            1,
        ),
        (
            &[
                "heap_tool",
                "run",
                "--workers",
                "2",
                "--image",
                "--cut",
                "1",
            ],
            true,
            2,
            1,
        ),
        (
            &[
                "heap_tool",
                "run",
                "--workers",
                "2",
                "--cut",
                "1",
                "--image",
            ],
            true,
            2,
            1,
        ),
        (&["heap_tool", "run", "--workers", "007"], false, 7, 16),
        (&["heap_tool", "run", "--cut", "+12"], false, 1, 12),
    ];
    for (words, image, workers, pages_per_task) in rows {
        let wanted = Options {
            image,
            workers,
            pages_per_task,
        };
        assert_eq!(rt; options(rt.alloc(), words), Ok(Some(wanted)));
    }
}

#[test]
fn other_numbers_are_refused(rt: HostRuntime) {
    let rows: [&[&str]; 24] = [
        &["heap_tool", "run", "--workers", "0"],
        &["heap_tool", "run", "--workers", "65"],
        &["heap_tool", "run", "--workers", "x"],
        &["heap_tool", "run", "--workers", "-1"],
        &["heap_tool", "run", "--workers=-1"],
        &["heap_tool", "run", "--workers", ""],
        &["heap_tool", "run", "--workers="],
        &["heap_tool", "run", "--workers"],
        &["heap_tool", "run", "--workers", "1", "--workers", "1"],
        &["heap_tool", "run", "--workers", "18446744073709551617"],
        &["heap_tool", "run", "--cut", "0"],
        &["heap_tool", "run", "--cut", "257"],
        &["heap_tool", "run", "--cut", "x"],
        &["heap_tool", "run", "--cut", "-1"],
        &["heap_tool", "run", "--cut=-1"],
        &["heap_tool", "run", "--cut", ""],
        &["heap_tool", "run", "--cut="],
        &["heap_tool", "run", "--cut"],
        &["heap_tool", "run", "--cut", "1", "--cut", "1"],
        &["heap_tool", "run", "--cut", "0x10"],
        &["heap_tool", "run", "--workers", "--cut", "1"],
        &["heap_tool", "run", "--pages", "1"],
        &["heap_tool", "--workers", "1", "run"],
        &["heap_tool", "word", "--workers", "1"],
    ];
    for words in rows {
        assert_eq!(rt; options(rt.alloc(), words), Err(Refusal::Words));
    }
}
