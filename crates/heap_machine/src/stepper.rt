//! Who makes the passes of a run: threads, or the calling thread alone.

ghost use denote.Param.Send.{IsSync};
ghost use Rattle.trace_text.specs.Command.{IsValid};
ghost use Rattle.heap_machine.specs.Stepping.{IsFollowing, IsStepped};

use crate::machine::Machine;
use heap_reply::Reply;
use host_memory::Global;
use machine_storage::{Followed, MachineFault};
use std::thread::Threads;
use sweep_pool::Open;
use trace_text::Command;

/// Does the commands of a run, so that a run is written once for both. No gate is told.
pub trait Stepper {
    /// What a call asks besides: of threads, that they may share the handle.
    ghost ready: { Type 0 };

    /// Does one command, as the machine's own steps do.
    fn step(
        &self,
        machine: &mut Machine,
        alloc: Global,
        command: Command,
    ) -> Result<Reply, MachineFault>
        requires ready { ready }
        requires valid { IsValid command }
        ensures { IsStepped machine.old command result machine.new };

    /// Does one command as it was answered, as the machine's own `follow` does.
    fn follow(
        &self,
        machine: &mut Machine,
        alloc: Global,
        command: Command,
        answer: Reply,
    ) -> Result<Followed, MachineFault>
        requires ready { ready }
        requires valid { IsValid command }
        ensures { IsFollowing machine.old command answer result machine.new };
}

/// The threads of a runtime, by its handle.
#[derive(Drop)]
pub struct Workers<'a, R: Threads + Sync> {
    pub rt: &'a R,
}

impl<R: Threads + Sync> Stepper for Workers<'_, R> {
    ghost ready = { IsSync R.row };

    fn step(
        &self,
        machine: &mut Machine,
        alloc: Global,
        command: Command,
    ) -> Result<Reply, MachineFault> {
        machine.step(self.rt, alloc, command, &Open)
    }

    fn follow(
        &self,
        machine: &mut Machine,
        alloc: Global,
        command: Command,
        answer: Reply,
    ) -> Result<Followed, MachineFault> {
        machine.follow(self.rt, alloc, command, answer, &Open)
    }
}

/// The calling thread alone.
#[derive(Drop)]
pub struct Alone;

impl Stepper for Alone {
    ghost ready = { Unit {0} };

    fn step(
        &self,
        machine: &mut Machine,
        alloc: Global,
        command: Command,
    ) -> Result<Reply, MachineFault> {
        machine.step_alone(alloc, command, &Open)
    }

    fn follow(
        &self,
        machine: &mut Machine,
        alloc: Global,
        command: Command,
        answer: Reply,
    ) -> Result<Followed, MachineFault> {
        machine.follow_alone(alloc, command, answer, &Open)
    }
}
