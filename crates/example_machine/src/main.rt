//! A machine by hand: a block, its release, the sweep, and what is left of its capability.
#![tactic(auto)]

use heap_machine::{Machine, flag_number};
use std::io;
use sweep_pool::{Cutting, Open};
use trace_text::Command;

fn main(rt: HostRuntime) -> io::Result<()> {
    let alloc = rt.alloc();
    // At most 4 workers a sweep, and 16 pages a task.
    let cutting = Cutting::new(4, 16).unwrap();
    // One page of 4,096 bytes from this address on.
    let Ok(mut machine) = Machine::new(alloc, 0x4000_0000, 1, cutting) else {
        return println!(rt; "want of memory");
    };
    for command in [
        Command::Malloc { rd: 1, size: 20 },
        Command::Free { rs: 1 },
        Command::Sweep,
    ] {
        // `step` asks that the registers' numbers are below 32.
        if command.is_valid() {
            match machine.step(&rt, alloc, command, &Open) {
                Ok(reply) => println!(rt; "{reply}")?,
                Err(_) => println!(rt; "want of memory")?,
            }
        }
    }
    let (_, tag) = machine.registers().get(1);
    println!(rt; "tag of register 1: {}", flag_number(tag))
}
