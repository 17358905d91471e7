//! Commands as they were answered: by threads, or by the calling thread alone.

ghost use Rattle.std.specs.Prelude.{IfSome};
ghost use Rattle.trace_text.specs.Command.{IsValid};
ghost use Rattle.machine_storage.specs.Storage.{IsStorage};
ghost use Rattle.machine_storage.specs.Passes.{FindsTags, IsFound};
ghost use Rattle.heap_machine.specs.Stepping.{IsFollowing};

use crate::machine::Machine;
use crate::passes::{found_alone, found_by_workers};
use heap_reply::Reply;
use host_memory::Global;
use machine_steps::any_placement_law;
use machine_storage::{Followed, Found, MachineFault, Storage};
use std::thread::Threads;
use sweep_pool::Gate;
use trace_text::Command;

impl Machine {
    /// Does one command as it was answered by an allocator that places blocks as it likes, where it may be answered so;
    /// else nothing is changed. `gate` is told as by `step`.
    pub fn follow<R: Threads + Sync, G: Gate + Sync>(
        &mut self,
        rt: &R,
        alloc: Global,
        command: Command,
        answer: Reply,
        gate: &G,
    ) -> Result<Followed, MachineFault>
        requires { IsValid command }
        ensures { IsFollowing self.old command answer result self.new }
    {
        let cutting = self.cutting;
        self.follow_with(
            command,
            answer,
            &|storage: &Storage| -> Option<Found>
                ensures { IsStorage storage.now → IfSome result (IsFound storage.now) }
            { found_by_workers(storage, rt, alloc, cutting, gate) },
        )
    }

    /// Does one command as it was answered, as `follow` does, by the calling thread alone, so without a runtime. `gate`
    /// is told as by `step`.
    ///
    /// ```rust
    /// use heap_machine::{Followed, Machine, Reply};
    /// use sweep_pool::{Cutting, Open};
    /// use trace_text::Command;
    ///
    /// let mut machine = Machine::new(alloc, 0x4000_0000, 1, Cutting::new(1, 16)?)?;
    /// // An allocator may place its block anywhere.
    /// let malloc = Command::Malloc { rd: 1, size: 20 };
    /// let answer = Reply::Block { base: 0x4000_0100, top: 0x4000_0120 };
    /// assert!(rt; machine.follow_alone(alloc, malloc, answer, &Open)? == Followed::Agrees);
    /// ```
    pub fn follow_alone<G: Gate>(
        &mut self,
        alloc: Global,
        command: Command,
        answer: Reply,
        gate: &G,
    ) -> Result<Followed, MachineFault>
        requires { IsValid command }
        ensures { IsFollowing self.old command answer result self.new }
    {
        let cutting = self.cutting;
        self.follow_with(
            command,
            answer,
            &|storage: &Storage| -> Option<Found>
                ensures { IsStorage storage.now → IfSome result (IsFound storage.now) }
            { found_alone(storage, alloc, cutting, gate) },
        )
    }

    // Does one command as it was answered, whoever makes its passes.
    fn follow_with<P: Fn(&Storage) -> Option<Found>>(
        &mut self,
        command: Command,
        answer: Reply,
        pass: &P,
    ) -> Result<Followed, MachineFault>
        requires callable { P.IsAlwaysCallable pass.now }
        requires finds { FindsTags (P.post pass.now) }
        requires valid { IsValid command }
        ensures { IsFollowing self.old command answer result self.new }
    {
        any_placement_law();
        self.storage.memory.invariant();
        self.storage.follow(command, answer, pass)
    }
}
