//! Commands of the program, and the barrier before a load.

ghost use Rattle.std.specs.Prelude.{◌≡◌, ◌<◌, IfErr, IfOk, IfSome, IsOk, None, OnErr, length, true};
ghost use Rattle.trace_text.specs.Command.{IsValid};
ghost use Rattle.trace_text.specs.declared.trace.Command.TheVariants.{LoadCap};
ghost use Rattle.cap_codec.specs.Words.{allows, load};
ghost use Rattle.tag_memory.specs.Cells.{register_count};
ghost use Rattle.machine_steps.specs.Safety.{FitsTypes, IsSafe, IsUnused, LeavesInUse};
ghost use Rattle.machine_steps.specs.Step.{NeedsNoMemory, access, checks, first_failed};
ghost use Rattle.revoker_steps.specs.Barred.{IsBarred, LoadsSeen, page_at};
ghost use Rattle.revokers.specs.Reloaded.{IsDone, LooksBefore, StepsBarred, unseen_page, waits_for};
ghost use Rattle.revokers.specs.Loading.{is_passed};

use crate::reloaded::{Barrier, Reloaded, Stepped};
use cap_codec::{LOAD, Word, bounds, fields, is_allowed};
use heap_machine::{MachineFault, Reply, Stepper, any_placement_law};
use host_memory::Global;
use revoker_steps::barrier_law;
use tag_memory::{GRANULE, PAGE_GRANULES};
use trace_text::Command;

impl Reloaded {
    /// Does a command of the program, as the machine's own steps do. In an epoch of this revoker a load from a page that
    /// wasn't seen waits until that page is visited; a load that is trapped waits for nothing. In an open epoch `begin` and
    /// `sweep` are trapped, and `end` ends it.
    pub fn step<S: Stepper>(
        &mut self,
        stepper: &S,
        alloc: Global,
        command: Command,
    ) -> Result<Stepped, MachineFault>
        requires ready { S.ready }
        requires valid { IsValid command }
        ensures step { IfOk result (λ stepped. StepsBarred self.old command stepped self.new) }
        ensures err { OnErr result (self.new ≡ self.old) }
        ensures memory { IfErr result (λ fault. fault ≡ MachineFault.Memory) }
        ensures ok { NeedsNoMemory self.old.machine.state command → IsOk result }
        ensures cutting { self.new.machine.cutting ≡ self.old.machine.cutting }
        ensures safe { IsSafe self.new.machine.state }
        ensures unused { IfOk result (λ stepped. IsUnused self.old.machine.state command stepped.reply) }
        ensures revoked { IfOk result (λ stepped. LeavesInUse command stepped.reply self.new.machine.state) }
        ensures barred { self.new.is_started ≡ true → IsBarred self.new.machine.state self.new.seen }
    {
        let barrier = self.look_before(command);
        let reply = self.step_seen(stepper, alloc, command)?;
        Ok(Stepped { barrier, reply })
    }

    // Does a command, of which a load from a page that wasn't seen waits no longer.
    fn step_seen<S: Stepper>(
        &mut self,
        stepper: &S,
        alloc: Global,
        command: Command,
    ) -> Result<Reply, MachineFault>
        requires ready { S.ready }
        requires valid { IsValid command }
        requires loads { self.old.is_started ≡ true → LoadsSeen self.old.machine.state self.old.seen command }
        ensures done { IfOk result (λ reply. IsDone self.old command reply self.new) }
        ensures err { OnErr result (self.new ≡ self.old) }
        ensures memory { IfErr result (λ fault. fault ≡ MachineFault.Memory) }
        ensures ok { NeedsNoMemory self.old.machine.state command → IsOk result }
        ensures safe { IsSafe self.new.machine.state }
        ensures unused { IfOk result (λ reply. IsUnused self.old.machine.state command reply) }
        ensures revoked { IfOk result (λ reply. LeavesInUse command reply self.new.machine.state) }
        ensures barred { self.new.is_started ≡ true → IsBarred self.new.machine.state self.new.seen }
    {
        any_placement_law();
        barrier_law();
        fit(command);
        self.machine.invariant();
        self.machine.memory().invariant();
        let reply = stepper.step(&mut self.machine, alloc, command)?;
        self.machine.memory().invariant();
        self.is_started &= self.machine.heap().is_open();
        Ok(reply)
    }

    // What the barrier does before a command.
    fn look_before(&mut self, command: Command) -> Option<Barrier>
        requires { IsValid command }
        ensures looks { LooksBefore self.old command result self.new }
        ensures loads { self.new.is_started ≡ true → LoadsSeen self.new.machine.state self.new.seen command }
    {
        barrier_law();
        self.invariant();
        let page = self.page_before(command)?;
        let cleared = self.look_at(page);
        Some(Barrier { page, cleared })
    }

    // The page that is to be visited before a command.
    fn page_before(&self, command: Command) -> Option<u32>
        requires { IsValid command }
        ensures waits { result ≡ waits_for self.now command }
        ensures inside { IfSome result (λ page. page < length self.now.seen) }
    {
        if !self.is_started {
            return None;
        }
        match command {
            Command::LoadCap { ra, .. } => self.page_loaded(ra),
            _ => None,
        }
    }

    // The page that a load by this register waits for.
    fn page_loaded(&self, ra: u8) -> Option<u32>
        requires started { self.now.is_started ≡ true }
        requires register { ra < register_count }
        ensures waits { result ≡ unseen_page (first_failed (checks self.now.machine.state (LoadCap 0 ra))) self.now.seen (page_at self.now.machine.state ra) }
        ensures inside { IfSome result (λ page. page < length self.now.seen) }
    {
        barrier_law();
        self.machine.invariant();
        let (word, tag) = self.machine.registers().get(ra);
        if !may_load(word, tag) {
            return None;
        }
        let granule = (fields(word).address - self.machine.memory().base()) / GRANULE;
        let page = granule / u64::from(PAGE_GRANULES);
        if self.seen[page as usize] {
            return None;
        }
        Some(page as u32)
    }
}

// Tells what the type of a command says of its numbers, for the law `kept`. Nothing is done.
fn fit(command: Command)
    ensures { FitsTypes command }
{
    let _ = command;
}

// Whether a load by this word isn't trapped.
fn may_load(word: Word, tag: bool) -> bool
    ensures { result ≡ is_passed (first_failed (access (word, tag) (allows load word))) }
{
    let address = fields(word).address;
    tag && is_allowed(word, LOAD)
        && bounds(word).hold(address, GRANULE)
        && address.is_multiple_of(GRANULE)
}
