//! Many small machines, each of which does some hundred commands without a text between, as a model checker would.

use crate::devices::Digest;
use crate::draws::Draws;
use crate::text::BASE;
use heap_machine::{Machine, Reply, Shown};
use std::alloc::{AllocError, Global};
use std::thread::Threads;
use sweep_pool::{Cutting, Open};
use trace_text::Command;

const MACHINES: u32 = 200;

const STEPS: u32 = 400;

/// Makes such machines.
pub(crate) fn job<R: Threads + Sync>(
    rt: &R,
    alloc: Global,
    seed: u64,
    digest: &mut Digest,
) -> Result<(), AllocError> {
    let mut draws = Draws::new(seed);
    let Ok(cutting) = Cutting::new(1, 16) else {
        return Ok(());
    };
    for _ in 0..MACHINES {
        explore(rt, alloc, cutting, &mut draws, digest)?;
    }
    Ok(())
}

fn explore<R: Threads + Sync>(
    rt: &R,
    alloc: Global,
    cutting: Cutting,
    draws: &mut Draws,
    digest: &mut Digest,
) -> Result<(), AllocError> {
    let Ok(mut machine) = Machine::new(alloc, BASE, 1, cutting) else {
        return Err(AllocError);
    };
    for _ in 0..STEPS {
        let command = any_command(draws);
        if command.is_valid() {
            let Ok(reply) = machine.step(rt, alloc, command, &Open) else {
                return Err(AllocError);
            };
            digest.add(number_of(reply));
        }
    }
    let (memory, registers) = machine.finish();
    digest.add(memory.tagged() as u64);
    for r in 0..8 {
        let (word, tag) = registers.get(r);
        digest.add((word.bits >> 64) as u64 ^ (word.bits % (1 << 64)) as u64 ^ u64::from(tag));
    }
    Ok(())
}

// A command from the bits of one number: two of eight registers, what it does, and its size, address or mask.
fn any_command(draws: &mut Draws) -> Command {
    let bits = draws.number();
    let rd = (bits % 8) as u8;
    let rs = (bits / 8 % 8) as u8;
    let operand = bits / 2048 % 256;
    match bits / 64 % 32 {
        0..5 => Command::Malloc { rd, size: operand },
        5..9 => Command::Free { rs },
        9..11 => Command::Copy { rd, rs },
        11..15 => Command::SetAddr {
            rd,
            rs,
            address: BASE + 16 * operand,
        },
        15..17 => Command::Narrow {
            rd,
            rs,
            length: operand / 2,
        },
        17 => Command::AndPerm {
            rd,
            rs,
            mask: (operand % 64) as u16,
        },
        18..22 => Command::StoreCap { ra: rd, rs },
        22..25 => Command::LoadCap { rd, ra: rs },
        25 => Command::Write {
            ra: rs,
            bytes: [7; 16],
        },
        26..28 => Command::Show { rs },
        28 => Command::Sweep,
        29 => Command::Begin,
        30 => Command::End,
        _ => Command::Copy { rd, rs: 0 },
    }
}

// A number for a reply: its kind, and all that it says.
fn number_of(reply: Reply) -> u64 {
    match reply {
        Reply::Block { base, top } => base.wrapping_mul(16) ^ number_of_top(top),
        Reply::BlockAfter { base, top, cleared } => {
            base.wrapping_mul(32) ^ number_of_top(top) ^ u64::from(cleared)
        }
        Reply::NoSpace => 1,
        Reply::NoSpaceAfter { cleared } => u64::from(cleared) << 8 | 2,
        Reply::Held(bytes) => bytes << 8 | 3,
        Reply::Done => 4,
        Reply::Cleared => 5,
        Reply::Swept { cleared, released } => released << 16 | u64::from(cleared) << 8 | 6,
        Reply::Begun { cleared } => u64::from(cleared) << 8 | 7,
        Reply::Shown(shown) => number_of_shown(shown),
        Reply::Trap(trap) => (trap as u64) << 8 | 9,
    }
}

// A top, whose bit 64 counts too.
fn number_of_top(top: u128) -> u64 {
    ((top % (1 << 64)) as u64).rotate_left(36) ^ (top >> 64) as u64
}

fn number_of_shown(shown: Shown) -> u64 {
    let bounds = shown.base << 8 ^ number_of_top(shown.top);
    let kind = u64::from(shown.otype) << 30
        ^ u64::from(shown.exponent) << 24
        ^ u64::from(shown.tag);
    shown.address ^ bounds ^ kind ^ u64::from(shown.perms) << 48
}
