//! Traces command by command, of which allocations are refused.

use crate::rows::{ROWS, Row};
use cap_codec::Word;
use heap_machine::{Machine, MachineFault};
use std::alloc::Global;
use std::process::Abort;
use std::thread::Threads;
use sweep_pool::{Cutting, Open};
use tag_memory::REGISTERS;
use trace_text::{Trace, parse};

// What a machine's users see of it: the registers, the granules, and the bytes of live, held and free blocks.
#[derive(Drop)]
pub struct Seen {
    registers: [(Word, bool); 32],
    granules: Vec<(u128, bool)>,
    bytes: (u64, u64, u64),
}

impl Seen {
    // As the machine is now; none where the allocation was refused.
    pub(crate) fn of(alloc: Global, machine: &Machine) -> Option<Seen> {
        let mut seen = Seen {
            registers: [(Word::NULL, false); 32],
            granules: vec![in alloc; (0, false); machine.memory().granules()].ok()?,
            bytes: (0, 0, 0),
        };
        seen.look(machine);
        Some(seen)
    }

    // Looks at the machine once more, without an allocation.
    pub(crate) fn look(&mut self, machine: &Machine) {
        for r in 0..REGISTERS {
            self.registers[r as usize] = machine.registers().get(r);
        }
        let memory = machine.memory();
        for i in 0..memory.granules() {
            if i < self.granules.len() {
                self.granules[i] = memory.cell(i);
            }
        }
        self.bytes = bytes_of(machine);
    }

    // The machine is as it was, word for word.
    pub(crate) fn is_still(&self, rt: &impl Abort, machine: &Machine) {
        for r in 0..REGISTERS {
            let register = machine.registers().get(r);
            assert_eq!(rt; register, self.registers[r as usize], "register {r}");
        }
        let memory = machine.memory();
        assert_eq!(rt; memory.granules(), self.granules.len());
        for i in 0..memory.granules() {
            assert_eq!(rt; memory.cell(i), self.granules[i], "granule {i}");
        }
        assert_eq!(rt; bytes_of(machine), self.bytes);
    }
}

// The bytes of live, held and free blocks.
fn bytes_of(machine: &Machine) -> (u64, u64, u64) {
    (
        machine.live_bytes(),
        machine.held_bytes(),
        machine.free_bytes(),
    )
}

// The machine of a trace; none where an allocation was refused.
fn machine_of(alloc: Global, trace: &Trace, workers: u32) -> Option<Machine> {
    let cutting = Cutting::new(workers, 1).ok()?;
    Machine::new(alloc, trace.base, trace.pages, cutting).ok()
}

// Each command of the row gives its reply, or wants memory and changes nothing: then it is given `again`
// times more, of which the last must succeed.
fn row_is_done<R: Abort + Threads + Sync>(
    rt: &R,
    alloc: Global,
    row: &Row,
    workers: u32,
    again: bool,
) {
    let Ok(trace) = parse(alloc, row.text.as_bytes()) else {
        return;
    };
    let Some(mut machine) = machine_of(alloc, &trace, workers) else {
        return;
    };
    let Some(mut before) = Seen::of(alloc, &machine) else {
        return;
    };
    assert_eq!(rt; trace.commands.len(), row.replies.len());
    for ((line, command), wanted) in trace.commands.iter().zip(row.replies) {
        assert!(rt; command.is_valid());
        before.look(&machine);
        let mut reply = machine.step(rt, alloc, *command, &Open);
        if reply == Err(MachineFault::Memory) {
            before.is_still(rt, &machine);
            if !again {
                return;
            }
            reply = machine.step(rt, alloc, *command, &Open);
        }
        assert_eq!(rt; reply, Ok(*wanted), "line {line}");
    }
}

// One allocation alone is refused: the same command given again succeeds.
#[test]
fn a_refused_allocation_of_a_command_changes_nothing(rt: HostRuntime) {
    for row in ROWS {
        for workers in [1, 2, 64] {
            row_is_done(&rt, rt.alloc(), &row, workers, true);
        }
    }
}

#[test]
fn refused_allocations_of_commands_change_nothing(rt: HostRuntime) {
    for row in ROWS {
        for workers in [1, 2, 64] {
            row_is_done(&rt, rt.alloc(), &row, workers, false);
        }
    }
}
