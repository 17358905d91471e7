//! Steps of a machine: by threads, or by the calling thread alone.

ghost use Rattle.std.specs.Prelude.{IfSome};
ghost use Rattle.trace_text.specs.Command.{IsValid};
ghost use Rattle.machine_storage.specs.Storage.{IsStorage};
ghost use Rattle.machine_storage.specs.Passes.{FindsTags, IsFound};
ghost use Rattle.heap_machine.specs.Stepping.{IsStepped};

use crate::machine::Machine;
use crate::passes::{found_alone, found_by_workers};
use heap_reply::Reply;
use host_memory::Global;
use machine_steps::any_placement_law;
use machine_storage::{Found, MachineFault, Storage};
use std::thread::Threads;
use sweep_pool::Gate;
use trace_text::Command;

impl Machine {
    /// Does one command. `gate` is told of each task of a pass: of a sweep and of what begins an epoch, which make none
    /// where nothing waits, and of what ends it, each task that has a dirty page.
    pub fn step<R: Threads + Sync, G: Gate + Sync>(
        &mut self,
        rt: &R,
        alloc: Global,
        command: Command,
        gate: &G,
    ) -> Result<Reply, MachineFault>
        requires { IsValid command }
        ensures { IsStepped self.old command result self.new }
    {
        let cutting = self.cutting;
        self.step_with(
            command,
            &|storage: &Storage| -> Option<Found>
                ensures { IsStorage storage.now → IfSome result (IsFound storage.now) }
            { found_by_workers(storage, rt, alloc, cutting, gate) },
        )
    }

    /// Does one command as `step` does, by the calling thread alone, so without a runtime. `gate` is told as by `step`.
    pub fn step_alone<G: Gate>(
        &mut self,
        alloc: Global,
        command: Command,
        gate: &G,
    ) -> Result<Reply, MachineFault>
        requires { IsValid command }
        ensures { IsStepped self.old command result self.new }
    {
        let cutting = self.cutting;
        self.step_with(
            command,
            &|storage: &Storage| -> Option<Found>
                ensures { IsStorage storage.now → IfSome result (IsFound storage.now) }
            { found_alone(storage, alloc, cutting, gate) },
        )
    }

    // Does one command, whoever makes its passes.
    fn step_with<P: Fn(&Storage) -> Option<Found>>(
        &mut self,
        command: Command,
        pass: &P,
    ) -> Result<Reply, MachineFault>
        requires callable { P.IsAlwaysCallable pass.now }
        requires finds { FindsTags (P.post pass.now) }
        requires valid { IsValid command }
        ensures { IsStepped self.old command result self.new }
    {
        // From a sound state each step leads to one.
        any_placement_law();
        self.storage.memory.invariant();
        self.storage.serve(command, pass)
    }
}
