//! Passes of a machine are cut as it was asked for.

use heap_machine::{Followed, Machine, MachineFault, Reply};
use std::alloc::Global;
use std::sync::atomic::AtomicU64;
use std::sync::atomic::Ordering::SeqCst;
use std::thread::Threads;
use sweep_pool::{Cutting, Gate, Open};
use trace_text::Command;

// How often it was told of each of the tasks 0 to 6, and of others as if of 7: a byte a task, that of task 0 the
// last.
#[derive(Drop)]
struct Tally {
    counts: AtomicU64,
}

impl Tally {
    fn new() -> Tally {
        Tally {
            counts: AtomicU64::new(0),
        }
    }
}

impl Gate for Tally {
    fn pass(&self, task: u32) {
        let _ = self.counts.fetch_add(1 << (8 * task.min(7)), SeqCst);
    }
}

// Seven pages, of which three make a task, so that the third task has the last page alone. Two blocks of 32 bytes
// and one of five pages, whose capability register 4 has with the address of page 4.
fn machine_of_three_tasks<R: Threads + Sync>(
    rt: &R,
    alloc: Global,
) -> Result<Machine, MachineFault> {
    let Ok(cutting) = Cutting::new(2, 3) else {
        return Err(MachineFault::Memory);
    };
    let mut machine = Machine::new(alloc, 0x4000_0000, 7, cutting)?;
    for command in [
        Command::Malloc { rd: 1, size: 32 },
        Command::Malloc { rd: 2, size: 32 },
        Command::Malloc {
            rd: 3,
            size: 5 * 4096,
        },
        Command::SetAddr {
            rd: 4,
            rs: 3,
            address: 0x4000_4000,
        },
    ] {
        let _ = machine.step(rt, alloc, command, &Open)?;
    }
    Ok(machine)
}

// Each command with its reply, and how often it tells of which task. A sweep and a begin have all three; the end has the
// one with page 4, which was written in the epoch.
const PASSES: [(Command, Reply, u64); 6] = [
    (Command::Free { rs: 1 }, Reply::Held(32), 0),
    (
        Command::Sweep,
        Reply::Swept {
            cleared: 1,
            released: 32,
        },
        0x01_01_01,
    ),
    (Command::Free { rs: 2 }, Reply::Held(32), 0),
    (Command::Begin, Reply::Begun { cleared: 0 }, 0x01_01_01),
    (Command::StoreCap { ra: 4, rs: 2 }, Reply::Done, 0),
    (
        Command::End,
        Reply::Swept {
            cleared: 2,
            released: 32,
        },
        0x01_00,
    ),
];

#[test]
fn passes_have_the_tasks_of_the_machines_cutting(rt: HostRuntime) {
    let mut machine = machine_of_three_tasks(&rt, rt.alloc()).expect(&rt, "there is memory");
    for (command, wanted, tasks) in PASSES {
        let tally = Tally::new();
        let reply = machine.step(&rt, rt.alloc(), command, &tally);
        assert_eq!(rt; reply, Ok(wanted), "{command:?}");
        assert_eq!(rt; tally.counts.load(SeqCst), tasks, "{command:?}");
    }
}

#[test]
fn passes_alone_have_the_tasks_of_the_machines_cutting(rt: HostRuntime) {
    let mut machine = machine_of_three_tasks(&rt, rt.alloc()).expect(&rt, "there is memory");
    for (command, wanted, tasks) in PASSES {
        let tally = Tally::new();
        let reply = machine.step_alone(rt.alloc(), command, &tally);
        assert_eq!(rt; reply, Ok(wanted), "{command:?}");
        assert_eq!(rt; tally.counts.load(SeqCst), tasks, "{command:?}");
    }
}

#[test]
fn passes_that_follow_have_the_tasks_of_the_machines_cutting(rt: HostRuntime) {
    let mut machine = machine_of_three_tasks(&rt, rt.alloc()).expect(&rt, "there is memory");
    for (command, answer, tasks) in PASSES {
        let tally = Tally::new();
        let followed = machine.follow(&rt, rt.alloc(), command, answer, &tally);
        assert_eq!(rt; followed, Ok(Followed::Agrees), "{command:?}");
        assert_eq!(rt; tally.counts.load(SeqCst), tasks, "{command:?}");
    }
}

#[test]
fn passes_that_follow_alone_have_the_tasks_of_the_machines_cutting(rt: HostRuntime) {
    let mut machine = machine_of_three_tasks(&rt, rt.alloc()).expect(&rt, "there is memory");
    for (command, answer, tasks) in PASSES {
        let tally = Tally::new();
        let followed = machine.follow_alone(rt.alloc(), command, answer, &tally);
        assert_eq!(rt; followed, Ok(Followed::Agrees), "{command:?}");
        assert_eq!(rt; tally.counts.load(SeqCst), tasks, "{command:?}");
    }
}
