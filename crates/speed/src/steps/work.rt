//! What is done again and again.

use trace_text::Command;

/// How often work is done, to take the fastest.
pub(crate) const ROUNDS: u32 = 10;

/// The heap's base.
pub(crate) const BASE: u64 = 0x4000_0000;

/// Commands that a round does in turn, so often. No round leaves more blocks behind than one page has granules.
#[derive(Clone, Copy)]
pub(crate) struct Work {
    /// What it is called.
    pub(crate) name: &'static str,
    /// The commands.
    pub(crate) commands: [Command; 3],
    /// How many of them are done.
    pub(crate) count: usize,
    /// How often.
    pub(crate) times: u32,
}

const COPY: Command = Command::Copy { rd: 3, rs: 1 };

const MALLOC: Command = Command::Malloc { rd: 4, size: 16 };

const FREE: Command = Command::Free { rs: 4 };

fn one(name: &'static str, command: Command) -> Work {
    Work {
        name,
        commands: [command; 3],
        count: 1,
        times: 100_000,
    }
}

/// All of it.
pub(crate) fn works() -> [Work; 11] {
    let address = BASE + 8;
    let bytes = [1; 16];
    [
        one("copy", COPY),
        one(
            "setaddr",
            Command::SetAddr {
                rd: 3,
                rs: 1,
                address,
            },
        ),
        one(
            "narrow",
            Command::Narrow {
                rd: 3,
                rs: 1,
                length: 8,
            },
        ),
        one(
            "andperm",
            Command::AndPerm {
                rd: 3,
                rs: 1,
                mask: 0x3d,
            },
        ),
        one("show", Command::Show { rs: 1 }),
        one("storecap", Command::StoreCap { ra: 1, rs: 2 }),
        one("loadcap", Command::LoadCap { rd: 3, ra: 1 }),
        one("write", Command::Write { ra: 1, bytes }),
        one("sweep of nothing", Command::Sweep),
        Work {
            name: "malloc and free",
            commands: [MALLOC, FREE, COPY],
            count: 2,
            times: 200,
        },
        Work {
            name: "malloc, free and sweep",
            commands: [MALLOC, FREE, Command::Sweep],
            count: 3,
            times: 10_000,
        },
    ]
}
