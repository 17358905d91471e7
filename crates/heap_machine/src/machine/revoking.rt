//! A revoker's own steps, between the program's commands.

ghost use Rattle.std.specs.Prelude.{◌≡◌, ◌≢◌};
ghost use Rattle.machine_steps.specs.Dirty.{IsDirtied};
ghost use Rattle.machine_steps.specs.Safety.{IsSafe};
ghost use Rattle.revoker_steps.specs.Revoker.{RevokerStep};
ghost use Rattle.revoker_steps.specs.RevokerDirty.{revoker_dirty_after};
ghost use Rattle.revoker_steps.specs.Valid.{IsValid};
ghost use Rattle.machine_storage.specs.RevokerDecision.{IsRevokerFollowed};

use crate::machine::Machine;
use machine_storage::RevokerFollowed;
use revoker_steps::{RevokerCommand, RevokerReply, revoker_law};

impl Machine {
    /// Makes a step of a revoker that works while the program runs (Filardo et al. 2020, Cornucopia; 2024, Cornucopia
    /// Reloaded). It takes no memory, and no gate is told.
    ///
    /// ```rust
    /// use heap_machine::{Machine, RevokerCommand, RevokerReply};
    /// use sweep_pool::Cutting;
    ///
    /// let mut machine = Machine::new(alloc, 0x4000_0000, 1, Cutting::new(1, 16)?)?;
    /// assert_eq!(rt; machine.revoke(RevokerCommand::Paint), RevokerReply::Done);
    /// let visit = RevokerCommand::Visit { page: 0 };
    /// assert_eq!(rt; machine.revoke(visit), RevokerReply::Cleared { cleared: 0 });
    /// assert_eq!(rt; machine.revoke(RevokerCommand::Release), RevokerReply::Released { bytes: 0 });
    /// ```
    pub fn revoke(&mut self, command: RevokerCommand) -> RevokerReply
        requires { IsValid command }
        ensures step { RevokerStep self.old.state command result self.new.state }
        ensures cutting { self.new.cutting ≡ self.old.cutting }
        ensures safe { IsSafe self.new.state }
        // A visit makes its page clean, so what the painted blocks have in memory stands in dirty pages all the same.
        ensures dirty { self.new.dirty ≡ revoker_dirty_after self.old.state command self.old.dirty }
        ensures dirtied { IsDirtied self.new.state self.new.dirty }
    {
        // From a sound state each step leads to one.
        revoker_law();
        self.storage.memory.invariant();
        self.storage.revoke(command)
    }

    /// Makes a step of a revoker as it was answered, where that is its answer; else nothing is changed.
    pub fn revoke_as(&mut self, command: RevokerCommand, answer: RevokerReply) -> RevokerFollowed
        requires { IsValid command }
        ensures followed { IsRevokerFollowed self.old.state command answer result self.new.state }
        ensures still { result ≢ RevokerFollowed.Agrees → self.new ≡ self.old }
        ensures cutting { self.new.cutting ≡ self.old.cutting }
        ensures safe { IsSafe self.new.state }
        ensures dirty { result ≡ RevokerFollowed.Agrees → self.new.dirty ≡ revoker_dirty_after self.old.state command self.old.dirty }
        ensures dirtied { IsDirtied self.new.state self.new.dirty }
    {
        revoker_law();
        self.storage.memory.invariant();
        self.storage.revoke_as(command, answer)
    }
}
