//! A revoker's own steps, beside the program's commands: each is decided first, and then made.

ghost use Rattle.std.specs.Prelude.{◌≡◌, ◌<◌, ◌≢◌, false, true};
ghost use Rattle.tag_memory.specs.Cells.{register_count};
ghost use Rattle.revoker_steps.specs.Revoker.{RevokerStep};
ghost use Rattle.revoker_steps.specs.RevokerDirty.{revoker_dirty_after};
ghost use Rattle.revoker_steps.specs.Valid.{IsValid};
ghost use Rattle.machine_storage.specs.RevokerDecision.{IsRevokerDecision, IsRevokerFollowed};
ghost use Rattle.machine_storage.specs.Storage.{IsStorage, state_of};

mod change;
mod due;

use crate::followed::RevokerFollowed;
use crate::storage::Storage;
use crate::storage::revocation::ones_in;
use crate::storage::revoker::change::{RevokerChange, RevokerDecision};
use revoker_steps::{RevokerCommand, RevokerReply, RevokerTrap, revoker_law};
use tag_memory::GRANULE;

impl Storage {
    /// Makes a step of a revoker. It takes no memory.
    pub fn revoke(&mut self, command: RevokerCommand) -> RevokerReply
        requires storage { IsStorage self.old }
        requires valid { IsValid command }
        ensures step { RevokerStep (state_of self.old) command result (state_of self.new) }
        ensures base { self.new.memory.base ≡ self.new.heap.base }
        ensures dirty { self.new.memory.dirty ≡ revoker_dirty_after (state_of self.old) command self.old.memory.dirty }
    {
        let decision = self.decide_revoker(command);
        self.make_revoker(decision)
    }

    /// Makes a step of a revoker as it was answered, where it is answered so; else nothing changes.
    pub fn revoke_as(&mut self, command: RevokerCommand, answer: RevokerReply) -> RevokerFollowed
        requires storage { IsStorage self.old }
        requires valid { IsValid command }
        ensures followed { IsRevokerFollowed (state_of self.old) command answer result (state_of self.new) }
        ensures base { self.new.memory.base ≡ self.new.heap.base }
        ensures dirty { result ≡ RevokerFollowed.Agrees → self.new.memory.dirty ≡ revoker_dirty_after (state_of self.old) command self.old.memory.dirty }
        ensures still { result ≢ RevokerFollowed.Agrees → self.new ≡ self.old }
    {
        revoker_law();
        let decision = self.decide_revoker(command);
        if differs(answer, decision.reply) {
            return RevokerFollowed::MustBe(decision.reply);
        }
        self.make_revoker(decision);
        RevokerFollowed::Agrees
    }

    // What a revoker's command comes to, before anything changes.
    fn decide_revoker(&self, command: RevokerCommand) -> RevokerDecision
        requires storage { IsStorage self.now }
        requires valid { IsValid command }
        ensures { IsRevokerDecision self.now command result }
    {
        match command {
            RevokerCommand::Paint => self.paint(),
            RevokerCommand::Visit { page } => self.visit(page),
            RevokerCommand::UntagGranule { address } => self.untag_granule(address),
            RevokerCommand::UntagRegister { register } => self.untag_register(register),
            RevokerCommand::Release => self.release(),
        }
    }

    fn paint(&self) -> RevokerDecision
        requires storage { IsStorage self.now }
        ensures { IsRevokerDecision self.now RevokerCommand.Paint result }
    {
        if self.heap.is_open() {
            return RevokerDecision::trap(RevokerTrap::Open);
        }
        let reply = RevokerReply::Done;
        let change = RevokerChange::Paints;
        RevokerDecision { reply, change }
    }

    fn visit(&self, page: u32) -> RevokerDecision
        requires storage { IsStorage self.now }
        ensures { IsRevokerDecision self.now (RevokerCommand.Visit page) result }
    {
        if !self.heap.is_open() {
            return RevokerDecision::trap(RevokerTrap::NotOpen);
        }
        if page >= self.memory.pages() {
            return RevokerDecision::trap(RevokerTrap::Bounds);
        }
        let masks = self.page_masks(page);
        let reply = RevokerReply::Cleared {
            cleared: ones_in(&masks),
        };
        let change = RevokerChange::Visits { page, masks };
        RevokerDecision { reply, change }
    }

    fn untag_granule(&self, address: u64) -> RevokerDecision
        requires storage { IsStorage self.now }
        ensures { IsRevokerDecision self.now (RevokerCommand.UntagGranule address) result }
    {
        if !self.heap.is_open() {
            return RevokerDecision::trap(RevokerTrap::NotOpen);
        }
        let Some(i) = self.granule_at(address) else {
            return RevokerDecision::trap(RevokerTrap::Bounds);
        };
        if !address.is_multiple_of(GRANULE) {
            return RevokerDecision::trap(RevokerTrap::Align);
        }
        if !self.is_granule_due(i) {
            return RevokerDecision::takes_none();
        }
        let (bits, _) = self.memory.cell(i);
        RevokerDecision::takes_one(RevokerChange::Granule { i, bits })
    }

    fn untag_register(&self, r: u8) -> RevokerDecision
        requires storage { IsStorage self.now }
        requires register { r < register_count }
        ensures { IsRevokerDecision self.now (RevokerCommand.UntagRegister r) result }
    {
        if !self.heap.is_open() {
            return RevokerDecision::trap(RevokerTrap::NotOpen);
        }
        let (word, tag) = self.registers.get(r);
        if !self.is_word_due(word, tag) {
            return RevokerDecision::takes_none();
        }
        RevokerDecision::takes_one(RevokerChange::Register { r, word })
    }

    fn release(&self) -> RevokerDecision
        requires storage { IsStorage self.now }
        ensures { IsRevokerDecision self.now RevokerCommand.Release result }
    {
        if !self.heap.is_open() {
            return RevokerDecision::trap(RevokerTrap::NotOpen);
        }
        if self.has_left() {
            return RevokerDecision::trap(RevokerTrap::Left);
        }
        let reply = RevokerReply::Released {
            bytes: self.heap.due_bytes(),
        };
        let change = RevokerChange::Releases;
        RevokerDecision { reply, change }
    }
}

// Whether an answer is another than this reply.
fn differs(answer: RevokerReply, reply: RevokerReply) -> bool
    ensures yes { result ≡ true → answer ≢ reply }
    ensures no { result ≡ false → answer ≡ reply }
{
    answer != reply
}
