//! Epochs, command by command: which tasks their passes have, and what is refused.

use heap_machine::{Machine, MachineFault, Reply, Trap};
use std::alloc::Global;
use std::process::Abort;
use std::sync::atomic::AtomicU64;
use std::sync::atomic::Ordering::SeqCst;
use std::thread::Threads;
use sweep_pool::{Cutting, Gate, Open};
use trace_text::Command;

// Notes each task that it is told of, as its number plus 1, a hexadecimal digit a task.
#[derive(Drop)]
struct Notes {
    tasks: AtomicU64,
}

impl Notes {
    fn new() -> Notes {
        Notes {
            tasks: AtomicU64::new(0),
        }
    }
}

impl Gate for Notes {
    fn pass(&self, task: u32) {
        let noted = self.tasks.load(SeqCst);
        self.tasks
            .store(noted.wrapping_mul(16) | (u64::from(task) + 1), SeqCst);
    }
}

// Two pages with a block of 32 bytes, one of a page and one of 32 bytes more; the capability of the first lies in the
// second, and it is given up. Passes have 1 page a task.
fn machine_before_an_epoch<R: Threads + Sync>(
    rt: &R,
    alloc: Global,
) -> Result<Machine, MachineFault> {
    let Ok(cutting) = Cutting::new(1, 1) else {
        return Err(MachineFault::Memory);
    };
    let mut machine = Machine::new(alloc, 0x4000_0000, 2, cutting)?;
    for command in [
        Command::Malloc { rd: 1, size: 32 },
        Command::Malloc { rd: 2, size: 4096 },
        Command::Malloc { rd: 3, size: 32 },
        Command::StoreCap { ra: 2, rs: 1 },
        Command::Free { rs: 1 },
    ] {
        let _ = machine.step(rt, alloc, command, &Open)?;
    }
    Ok(machine)
}

// The epoch: each command with its reply, and the tasks that it tells of. The second block is freed while the
// epoch is open, so its capability, which register 2 has, is left alone.
const EPOCH: [(Command, Reply, u64); 5] = [
    (Command::Begin, Reply::Begun { cleared: 1 }, 0x12),
    (Command::StoreCap { ra: 3, rs: 1 }, Reply::Done, 0),
    (Command::Free { rs: 2 }, Reply::Held(4096), 0),
    (Command::Sweep, Reply::Trap(Trap::Open), 0),
    (
        Command::End,
        Reply::Swept {
            cleared: 2,
            released: 32,
        },
        0x2,
    ),
];

#[test]
fn the_end_visits_dirty_pages_alone(rt: HostRuntime) {
    let mut machine = machine_before_an_epoch(&rt, rt.alloc()).expect(&rt, "there is memory");
    for (command, wanted, tasks) in EPOCH {
        let notes = Notes::new();
        let reply = machine.step(&rt, rt.alloc(), command, &notes);
        assert_eq!(rt; reply, Ok(wanted), "{command:?}");
        assert_eq!(rt; notes.tasks.load(SeqCst), tasks, "{command:?}");
    }
    assert_eq!(rt; machine.held_bytes(), 4096);
}

#[test]
fn the_end_visits_dirty_pages_alone_without_a_runtime(rt: HostRuntime) {
    let mut machine = machine_before_an_epoch(&rt, rt.alloc()).expect(&rt, "there is memory");
    for (command, wanted, tasks) in EPOCH {
        let notes = Notes::new();
        let reply = machine.step_alone(rt.alloc(), command, &notes);
        assert_eq!(rt; reply, Ok(wanted), "{command:?}");
        assert_eq!(rt; notes.tasks.load(SeqCst), tasks, "{command:?}");
    }
    assert_eq!(rt; machine.held_bytes(), 4096);
}

#[test]
fn an_end_without_a_store_visits_no_page(rt: HostRuntime) {
    let mut machine = machine_before_an_epoch(&rt, rt.alloc()).expect(&rt, "there is memory");
    let begun = machine.step(&rt, rt.alloc(), Command::Begin, &Open);
    assert_eq!(rt; begun, Ok(Reply::Begun { cleared: 1 }));
    let ends = Notes::new();
    let ended = machine.step(&rt, rt.alloc(), Command::End, &ends);
    let swept = Reply::Swept {
        cleared: 1,
        released: 32,
    };
    assert_eq!(rt; ended, Ok(swept));
    assert_eq!(rt; ends.tasks.load(SeqCst), 0);
}

#[test]
fn passes_are_trapped_where_they_are_out_of_turn(rt: HostRuntime) {
    let mut machine = machine_before_an_epoch(&rt, rt.alloc()).expect(&rt, "there is memory");
    let ended = machine.step(&rt, rt.alloc(), Command::End, &Open);
    assert_eq!(rt; ended, Ok(Reply::Trap(Trap::NotOpen)));
    let begun = machine.step(&rt, rt.alloc(), Command::Begin, &Open);
    assert_eq!(rt; begun, Ok(Reply::Begun { cleared: 1 }));
    for command in [Command::Begin, Command::Sweep] {
        let trapped = machine.step(&rt, rt.alloc(), command, &Open);
        assert_eq!(rt; trapped, Ok(Reply::Trap(Trap::Open)));
    }
    assert_eq!(rt; machine.held_bytes(), 32);
}

// The step of a command, given again where it wants memory, after which the bytes in blocks are as before.
fn stepped<R: Abort + Threads + Sync>(
    rt: &R,
    alloc: Global,
    machine: &mut Machine,
    command: Command,
    wanted: Reply,
) {
    if !command.is_valid() {
        return;
    }
    let before = (machine.memory().tagged(), machine.held_bytes());
    let mut reply = machine.step(rt, alloc, command, &Open);
    if reply == Err(MachineFault::Memory) {
        let after = (machine.memory().tagged(), machine.held_bytes());
        assert_eq!(rt; after, before);
        reply = machine.step(rt, alloc, command, &Open);
    }
    assert_eq!(rt; reply, Ok(wanted));
}

// Run with each allocation refused in turn.
#[test]
fn a_refused_allocation_of_an_epoch_changes_nothing(rt: HostRuntime) {
    let Ok(mut machine) = machine_before_an_epoch(&rt, rt.alloc()) else {
        return;
    };
    let begun = Reply::Begun { cleared: 1 };
    stepped(&rt, rt.alloc(), &mut machine, Command::Begin, begun);
    let swept = Reply::Swept {
        cleared: 1,
        released: 32,
    };
    stepped(&rt, rt.alloc(), &mut machine, Command::End, swept);
}
