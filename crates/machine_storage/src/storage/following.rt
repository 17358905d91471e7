//! Doing commands as they were answered by an allocator that places blocks as it likes.

ghost use Rattle.std.specs.Prelude.{◌≡◌, IfErr, IfOk, IsOk, ◌+◌, ◌≢◌, false, max, true};
ghost use Rattle.trace_text.specs.Command.{IsValid};
ghost use Rattle.machine_steps.specs.Dirty.{dirty_after};
ghost use Rattle.machine_storage.specs.Followed.{FollowsFreely, HasOneReply, IsFollowed, IsJudgedFreely};
ghost use Rattle.machine_storage.specs.Storage.{IsStorage, state_of};
ghost use Rattle.machine_storage.specs.Passes.{FindsTags, FollowsByPass, IsJudgedByPass, MakesPass, MayPass};
ghost use Rattle.machine_steps.specs.Safety.{FitsTypes};
ghost use Rattle.machine_steps.specs.Step.{MaySweep, Step, NeedsNoMemory};

use crate::fault::MachineFault;
use crate::followed::{Followed, Why};
use crate::storage::Storage;
use crate::storage::passes::Found;
use cap_codec::{Word, block_capability};
use heap_reply::Reply;
use machine_steps::{any_placement_law, safe_reuse_law};
use trace_text::Command;

impl Storage {
    /// Does one command as it was answered, where it may be answered so. Everything is judged before anything changes, and
    /// `pass` is called only where that takes a pass.
    pub fn follow<P: Fn(&Storage) -> Option<Found>>(
        &mut self,
        command: Command,
        answer: Reply,
        pass: &P,
    ) -> Result<Followed, MachineFault>
        requires callable { FollowsByPass self.old command answer → MayPass (P.pre pass.now) self.old }
        requires finds { FindsTags (P.post pass.now) }
        requires storage { IsStorage self.old }
        requires valid { IsValid command }
        ensures followed { IfOk result (λ followed. IsFollowed (state_of self.old) command answer followed (state_of self.new)) }
        ensures base { self.new.memory.base ≡ self.new.heap.base }
        ensures dirty { result ≡ Ok Followed.Agrees → self.new.memory.dirty ≡ dirty_after (state_of self.old) command self.old.memory.dirty }
        ensures still { result ≢ Ok Followed.Agrees → self.new ≡ self.old }
        ensures memory { IfErr result (λ fault. fault ≡ MachineFault.Memory) }
        ensures ok { FollowsFreely (state_of self.old) command answer → IsOk result }
        ensures fits { FitsTypes command }
    {
        let Command::Malloc { rd, size } = command else {
            return self.follow_step(command, answer, pass);
        };
        self.follow_malloc(rd, size, answer, pass)
    }

    // Does a command that has one answer, where it is this.
    fn follow_step<P: Fn(&Storage) -> Option<Found>>(
        &mut self,
        command: Command,
        answer: Reply,
        pass: &P,
    ) -> Result<Followed, MachineFault>
        requires callable { MakesPass self.old command → MayPass (P.pre pass.now) self.old }
        requires finds { FindsTags (P.post pass.now) }
        requires storage { IsStorage self.old }
        requires valid { IsValid command }
        requires one { HasOneReply command }
        ensures followed { IfOk result (λ followed. IsFollowed (state_of self.old) command answer followed (state_of self.new)) }
        ensures base { self.new.memory.base ≡ self.new.heap.base }
        ensures dirty { result ≡ Ok Followed.Agrees → self.new.memory.dirty ≡ dirty_after (state_of self.old) command self.old.memory.dirty }
        ensures still { result ≢ Ok Followed.Agrees → self.new ≡ self.old }
        ensures memory { IfErr result (λ fault. fault ≡ MachineFault.Memory) }
        ensures ok { NeedsNoMemory (state_of self.old) command → IsOk result }
        ensures fits { FitsTypes command }
    {
        any_placement_law();
        safe_reuse_law();
        let decision = self.decide(command, pass)?;
        if differs(answer, decision.reply) {
            return Ok(Followed::Differs(Why::MustBe(decision.reply)));
        }
        self.make(decision);
        Ok(Followed::Agrees)
    }

    // Does a malloc as it was answered, where it may be.
    fn follow_malloc<P: Fn(&Storage) -> Option<Found>>(
        &mut self,
        rd: u8,
        size: u64,
        answer: Reply,
        pass: &P,
    ) -> Result<Followed, MachineFault>
        requires callable { IsJudgedByPass self.old size answer → MayPass (P.pre pass.now) self.old }
        requires finds { FindsTags (P.post pass.now) }
        requires storage { IsStorage self.old }
        requires valid { IsValid (Command.Malloc rd size) }
        ensures followed { IfOk result (λ followed. IsFollowed (state_of self.old) (Command.Malloc rd size) answer followed (state_of self.new)) }
        ensures base { self.new.memory.base ≡ self.new.heap.base }
        ensures dirty { self.new.memory.dirty ≡ self.old.memory.dirty }
        ensures still { result ≢ Ok Followed.Agrees → self.new ≡ self.old }
        ensures memory { IfErr result (λ fault. fault ≡ MachineFault.Memory) }
        ensures ok { IsJudgedFreely (state_of self.old) answer → IsOk result }
    {
        match answer {
            Reply::Block { base, top } => Ok(self.place(rd, size, base, top)),
            Reply::BlockAfter { base, top, cleared } => {
                self.sweep_and_place(rd, size, base, top, cleared, pass)
            }
            Reply::NoSpace => {
                self.registers.set(rd, Word::NULL, false);
                Ok(Followed::Agrees)
            }
            Reply::NoSpaceAfter { cleared } => {
                self.sweep_and_place_none(rd, size, cleared, pass)
            }
            Reply::Held(_)
            | Reply::Done
            | Reply::Cleared
            | Reply::Swept { .. }
            | Reply::Begun { .. }
            | Reply::Shown(_)
            | Reply::Trap(_) => Ok(Followed::Differs(Why::NotOfMalloc)),
        }
    }

    // The bytes from `base` on, before `top`, are handed out where they may be.
    fn place(&mut self, rd: u8, size: u64, base: u64, top: u128) -> Followed
        requires storage { IsStorage self.old }
        requires valid { IsValid (Command.Malloc rd size) }
        ensures followed { IsFollowed (state_of self.old) (Command.Malloc rd size) (Reply.Block base top) result (state_of self.new) }
        ensures base { self.new.memory.base ≡ self.new.heap.base }
        ensures dirty { self.new.memory.dirty ≡ self.old.memory.dirty }
        ensures still { result ≢ Followed.Agrees → self.new ≡ self.old }
    {
        if top < least_top(base, size) {
            return Followed::Differs(Why::TooShort);
        }
        match self.heap.claim(base, top) {
            Ok(()) => {}
            Err(obstacle) => return Followed::Differs(Why::Refused(obstacle)),
        }
        self.registers.set(rd, block_capability(base, top), true);
        Followed::Agrees
    }

    // A sweep that took so many tags, and then a block, where both may be.
    fn sweep_and_place<P: Fn(&Storage) -> Option<Found>>(
        &mut self,
        rd: u8,
        size: u64,
        base: u64,
        top: u128,
        cleared: u32,
        pass: &P,
    ) -> Result<Followed, MachineFault>
        requires callable { IsJudgedByPass self.old size (Reply.BlockAfter base top cleared) → MayPass (P.pre pass.now) self.old }
        requires finds { FindsTags (P.post pass.now) }
        requires storage { IsStorage self.old }
        requires valid { IsValid (Command.Malloc rd size) }
        ensures followed { IfOk result (λ followed. IsFollowed (state_of self.old) (Command.Malloc rd size) (Reply.BlockAfter base top cleared) followed (state_of self.new)) }
        ensures base { self.new.memory.base ≡ self.new.heap.base }
        ensures dirty { self.new.memory.dirty ≡ self.old.memory.dirty }
        ensures still { result ≢ Ok Followed.Agrees → self.new ≡ self.old }
        ensures memory { IfErr result (λ fault. fault ≡ MachineFault.Memory) }
        ensures ok { (MaySweep (state_of self.old) → ⊥) → IsOk result }
    {
        if !self.may_sweep() {
            return Ok(Followed::Differs(Why::MayNotSweep));
        }
        if top < least_top(base, size) {
            return Ok(Followed::Differs(Why::TooShort));
        }
        let revoked = self.revoked_tags(pass)?;
        let count = revoked.count();
        if count != cleared {
            return Ok(Followed::Differs(Why::Takes(count)));
        }
        match self.heap.give_back_and_claim(base, top) {
            Ok(()) => {}
            Err(obstacle) => return Ok(Followed::Differs(Why::Refused(obstacle))),
        }
        revoked.apply(&mut self.memory, &mut self.registers);
        self.registers.set(rd, block_capability(base, top), true);
        Ok(Followed::Agrees)
    }

    // A sweep that took so many tags, where it may be, and then no block.
    fn sweep_and_place_none<P: Fn(&Storage) -> Option<Found>>(
        &mut self,
        rd: u8,
        size: u64,
        cleared: u32,
        pass: &P,
    ) -> Result<Followed, MachineFault>
        requires callable { IsJudgedByPass self.old size (Reply.NoSpaceAfter cleared) → MayPass (P.pre pass.now) self.old }
        requires finds { FindsTags (P.post pass.now) }
        requires storage { IsStorage self.old }
        requires valid { IsValid (Command.Malloc rd size) }
        ensures followed { IfOk result (λ followed. IsFollowed (state_of self.old) (Command.Malloc rd size) (Reply.NoSpaceAfter cleared) followed (state_of self.new)) }
        ensures base { self.new.memory.base ≡ self.new.heap.base }
        ensures dirty { self.new.memory.dirty ≡ self.old.memory.dirty }
        ensures still { result ≢ Ok Followed.Agrees → self.new ≡ self.old }
        ensures memory { IfErr result (λ fault. fault ≡ MachineFault.Memory) }
        ensures ok { (MaySweep (state_of self.old) → ⊥) → IsOk result }
    {
        if !self.may_sweep() {
            return Ok(Followed::Differs(Why::MayNotSweep));
        }
        let revoked = self.revoked_tags(pass)?;
        let taken = revoked.count();
        if taken != cleared {
            return Ok(Followed::Differs(Why::Takes(taken)));
        }
        revoked.apply(&mut self.memory, &mut self.registers);
        self.heap.give_back();
        self.registers.set(rd, Word::NULL, false);
        Ok(Followed::Agrees)
    }
}

// Whether an answer is another than this reply.
fn differs(answer: Reply, reply: Reply) -> bool
    ensures yes { result ≡ true → answer ≢ reply }
    ensures no { result ≡ false → answer ≡ reply }
{
    answer != reply
}

// The least top of a block of this size from `base` on: 0 counts as 1.
fn least_top(base: u64, size: u64) -> u128
    ensures { result ≡ base + max 1 size }
{
    u128::from(base) + u128::from(size.max(1))
}
