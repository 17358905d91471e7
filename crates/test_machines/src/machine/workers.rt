//! Sweeps by several workers, as a gate sees them.

ghost use Rattle.std.specs.Prelude.{◌<◌};

use heap_machine::{Machine, MachineFault, Reply};
use std::alloc::Global;
use std::process::Abort;
use std::sync::atomic::AtomicU64;
use std::sync::atomic::Ordering::SeqCst;
use std::thread::{Threads, yield_now};
use sweep_pool::{Cutting, Gate, Open};
use trace_text::Command;

// A gate that counts its calls and adds up its tasks. Its first call waits until so many calls have come.
#[derive(Drop)]
struct Count {
    calls: AtomicU64,
    tasks: AtomicU64,
    awaited: u64,
}

impl Count {
    fn of(awaited: u64) -> Count {
        Count {
            calls: AtomicU64::new(0),
            tasks: AtomicU64::new(0),
            awaited,
        }
    }

    // Whether so many calls come within 100,000,000 turns, after every eighth of which others may run.
    fn waits(&self) -> bool {
        for turn in 0..100_000_000u32 {
            if self.calls.load(SeqCst) >= self.awaited {
                return true;
            }
            if turn % 8 == 0 {
                yield_now();
            }
        }
        false
    }
}

impl Gate for Count {
    fn pass(&self, task: u32) {
        let _ = self.tasks.fetch_add(u64::from(task), SeqCst);
        if self.calls.fetch_add(1, SeqCst) == 0 && !self.waits() {
            // The calls are too few, and the test sees it.
            self.calls.store(0, SeqCst);
        }
    }
}

// A machine of 532 pages and 136,000 blocks of 16 bytes, each of which holds its own capability; the first and the last
// of them are held, and their capabilities are in the registers 2 and 1 too. It may have 64 workers, of which three are worth their start,
// and 1 page a task.
fn crowded_machine<R: Threads + Sync>(rt: &R, alloc: Global) -> Result<Machine, MachineFault> {
    let Ok(cutting) = Cutting::new(64, 1) else {
        return Err(MachineFault::Memory);
    };
    let mut machine = Machine::new(alloc, 0x4000_0000, 532, cutting)?;
    put_block(rt, alloc, &mut machine, 2)?;
    for _ in 1..136_000 {
        put_block(rt, alloc, &mut machine, 1)?;
    }
    let _ = machine.step(rt, alloc, Command::Free { rs: 2 }, &Open)?;
    let _ = machine.step(rt, alloc, Command::Free { rs: 1 }, &Open)?;
    Ok(machine)
}

// A block of 16 bytes, which holds its own capability.
fn put_block<R: Threads + Sync>(
    rt: &R,
    alloc: Global,
    machine: &mut Machine,
    r: u8,
) -> Result<(), MachineFault>
    requires { r < 32 }
{
    let _ = machine.step(rt, alloc, Command::Malloc { rd: r, size: 16 }, &Open)?;
    let _ = machine.step(rt, alloc, Command::StoreCap { ra: r, rs: r }, &Open)?;
    Ok(())
}

const SWEPT: Reply = Reply::Swept {
    cleared: 4,
    released: 32,
};

#[test]
fn a_sweep_of_many_tags_is_shared(rt: HostRuntime) {
    let mut machine = crowded_machine(&rt, rt.alloc()).expect(&rt, "there is memory");
    let gate = Count::of(2);
    let reply = machine.step(&rt, rt.alloc(), Command::Sweep, &gate);
    assert_eq!(rt; reply, Ok(SWEPT));
    assert_eq!(rt; gate.calls.load(SeqCst), 532);
    assert_eq!(rt; gate.tasks.load(SeqCst), 532 * 531 / 2);
    assert_eq!(rt; machine.memory().tagged(), 135_998);
}

#[test]
fn a_sweep_where_nothing_is_held_has_no_task(rt: HostRuntime) {
    let cutting = Cutting::new(1, 1).expect(&rt, "it is a cutting");
    let mut machine = Machine::new(rt.alloc(), 0x4000_0000, 2, cutting).expect(
        &rt,
        "there is memory",
    );
    let gate = Count::of(0);
    for (command, calls) in [
        (Command::Malloc { rd: 1, size: 16 }, 0),
        (Command::Sweep, 0),
        (Command::Free { rs: 1 }, 0),
        (Command::Sweep, 2),
        (Command::Sweep, 2),
    ] {
        let _ = machine
            .step(&rt, rt.alloc(), command, &gate)
            .expect(&rt, "there is memory");
        assert_eq!(rt; gate.calls.load(SeqCst), calls);
    }
}

// Each task once, without a runtime.
#[test]
fn a_sweep_of_many_tags_is_made_alone(rt: HostRuntime) {
    let mut machine = crowded_machine(&rt, rt.alloc()).expect(&rt, "there is memory");
    let gate = Count::of(0);
    let reply = machine.step_alone(rt.alloc(), Command::Sweep, &gate);
    assert_eq!(rt; reply, Ok(SWEPT));
    assert_eq!(rt; gate.calls.load(SeqCst), 532);
    assert_eq!(rt; gate.tasks.load(SeqCst), 532 * 531 / 2);
    assert_eq!(rt; machine.memory().tagged(), 135_998);
}

// The sweep of a malloc is shared too, and is one.
#[test]
fn a_malloc_that_sweeps_shares_its_sweep(rt: HostRuntime) {
    let mut machine = crowded_machine(&rt, rt.alloc()).expect(&rt, "there is memory");
    let gate = Count::of(2);
    let asked = Command::Malloc {
        rd: 1,
        size: 1 << 20,
    };
    let reply = machine.step(&rt, rt.alloc(), asked, &gate);
    assert_eq!(rt; reply, Ok(Reply::NoSpaceAfter { cleared: 4 }));
    assert_eq!(rt; gate.calls.load(SeqCst), 532);
    assert_eq!(rt; machine.memory().tagged(), 135_998);
}

// Whichever threads are refused, a sweep is the same.
#[test]
fn a_refused_thread_of_a_sweep_changes_nothing(rt: HostRuntime) {
    let mut machine = crowded_machine(&rt, rt.alloc()).expect(&rt, "there is memory");
    let reply = machine.step(&rt, rt.alloc(), Command::Sweep, &Open);
    assert_eq!(rt; reply, Ok(SWEPT));
    assert_eq!(rt; machine.memory().tagged(), 135_998);
}

#[test]
fn a_refused_thread_of_a_malloc_that_sweeps_changes_nothing(rt: HostRuntime) {
    let mut machine = crowded_machine(&rt, rt.alloc()).expect(&rt, "there is memory");
    let asked = Command::Malloc {
        rd: 1,
        size: 1 << 20,
    };
    let reply = machine.step(&rt, rt.alloc(), asked, &Open);
    assert_eq!(rt; reply, Ok(Reply::NoSpaceAfter { cleared: 4 }));
    assert_eq!(rt; machine.memory().tagged(), 135_998);
}
