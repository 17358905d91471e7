//! A revoker without a barrier: it looks again at pages into which the program stored a capability.

ghost use Rattle.std.specs.Prelude.{◌≡◌, ◌≢◌, ◌↔◌, ◌<◌, ◌≤◌, ◌*◌, ◌^◌, IfErr, IfOk, IfSome, IsOk, None, OnErr, OnOk, false, length, true};
ghost use Rattle.trace_text.specs.Command.{IsValid};
ghost use Rattle.machine_steps.specs.Dirty.{IsDirtied, dirty_after};
ghost use Rattle.machine_steps.specs.Safety.{AreInUseOrWaiting, IsSafe, IsUnused, LeavesInUse};
ghost use Rattle.machine_steps.specs.Step.{NeedsNoMemory, Step};
ghost use Rattle.tag_memory.specs.Cells.{is_dirty_at};
ghost use Rattle.revoker_steps.specs.declared.command.RevokerCommand.TheVariants.{Paint, Visit};
ghost use Rattle.revoker_steps.specs.Revoker.{RevokerStep};
ghost use Rattle.revoker_steps.specs.RevokerDirty.{revoker_dirty_after};
ghost use Rattle.revoker_steps.specs.Tracked.{AreClean};
ghost use Rattle.revokers.specs.Acts.{HasRoom, Tells};
ghost use Rattle.revokers.specs.Ending.{Finishes, Visits};
ghost use Rattle.revokers.specs.Looks.{Looks};

use crate::acts::{Act, tell};
use crate::ending::{Finished, cleared_of, release, untag_registers};
use heap_machine::{Machine, MachineFault, Reply, RevokerCommand, RevokerReply, Stepper};
use host_memory::Global;
use revoker_steps::{cornucopia_law, passes_law};
use std::marker::Model;
use trace_text::Command;

/// A machine with a revoker that takes tags page by page while the program runs (Filardo et al. 2020, Cornucopia). Once
/// blocks are painted every page is dirty, a page that is visited is clean, and a store of a tagged word makes its page dirty
/// again. What is dirty at the end is visited then, with no command between.
#[derive(Drop)]
pub struct Cornucopia {
    machine: Machine,
}

impl Model for Cornucopia {
    ghost use Rattle.heap_machine.specs.Storage.{MachineState};

    ghost Value = { MachineState };

    ghost view = { λ revoker. revoker.machine };
}

impl Cornucopia {
    /// A revoker of this machine.
    pub fn new(machine: Machine) -> Cornucopia
        ensures { result ≡ machine }
    {
        Cornucopia { machine }
    }

    /// The machine now.
    pub fn machine(&self) -> &Machine
        ensures { result.now ≡ self.now }
    {
        &self.machine
    }

    /// Opens an epoch: the blocks that wait are painted, and every page is dirty. It takes no tag.
    pub fn start(&mut self) -> RevokerReply
        ensures step { RevokerStep self.old.state Paint result self.new.state }
        ensures cutting { self.new.cutting ≡ self.old.cutting }
        ensures safe { IsSafe self.new.state }
        ensures dirty { self.new.dirty ≡ revoker_dirty_after self.old.state Paint self.old.dirty }
        ensures dirtied { IsDirtied self.new.state self.new.dirty }
    {
        self.machine.revoke(RevokerCommand::Paint)
    }

    /// Takes the tags on a page of words whose base lies in a painted block. The page is clean then. Pages are visited in any
    /// order, and as often as one likes; none has to be.
    pub fn visit(&mut self, page: u32) -> RevokerReply
        ensures step { RevokerStep self.old.state (Visit page) result self.new.state }
        ensures cutting { self.new.cutting ≡ self.old.cutting }
        ensures safe { IsSafe self.new.state }
        ensures dirty { self.new.dirty ≡ revoker_dirty_after self.old.state (Visit page) self.old.dirty }
        ensures dirtied { IsDirtied self.new.state self.new.dirty }
    {
        self.machine.revoke(RevokerCommand::Visit { page })
    }

    /// Does a command of the program, as the machine's own steps do. In an open epoch `begin` and `sweep` are trapped, and
    /// `end` ends it as `finish` does.
    pub fn step<S: Stepper>(
        &mut self,
        stepper: &S,
        alloc: Global,
        command: Command,
    ) -> Result<Reply, MachineFault>
        requires ready { S.ready }
        requires valid { IsValid command }
        ensures step { IfOk result (λ reply. Step self.old.state command reply self.new.state) }
        ensures err { OnErr result (self.new ≡ self.old) }
        ensures memory { IfErr result (λ fault. fault ≡ MachineFault.Memory) }
        ensures ok { NeedsNoMemory self.old.state command → IsOk result }
        ensures cutting { self.new.cutting ≡ self.old.cutting }
        ensures safe { IsSafe self.new.state }
        ensures unused { IfOk result (λ reply. IsUnused self.old.state command reply) }
        ensures revoked { IfOk result (λ reply. LeavesInUse command reply self.new.state) }
        ensures dirty { OnOk result (self.new.dirty ≡ dirty_after self.old.state command self.old.dirty) }
        ensures dirtied { IsDirtied self.new.state self.new.dirty }
    {
        stepper.step(&mut self.machine, alloc, command)
    }

    /// Ends the epoch: the pages that are dirty are visited, the registers lose their tags, and the painted blocks are free,
    /// for no tagged word is left that points into one. `acts` is told each of these steps, for which it has room. `None` where
    /// no epoch is open.
    pub fn finish(&mut self, acts: &mut Vec<Act, Global>) -> Option<Finished>
        requires room { HasRoom 1057 acts.old }
        ensures closed { (result ≡ None) ↔ (self.old.state.heap.is_open ≡ false) }
        ensures still { result ≡ None → self.new ≡ self.old }
        ensures untold { result ≡ None → acts.new ≡ acts.old }
        ensures finishes { IfSome result (λ finished. Finishes (is_dirty_at self.old.dirty) self.old.state acts.old.items finished self.new.state acts.new.items) }
        ensures room { Tells 1057 acts.old acts.new }
        ensures in_use { result ≢ None → AreInUseOrWaiting self.new.state }
        ensures cutting { self.new.cutting ≡ self.old.cutting }
        ensures safe { IsSafe self.new.state }
        ensures dirtied { IsDirtied self.new.state self.new.dirty }
    {
        self.machine.invariant();
        if !self.machine.heap().is_open() {
            return None;
        }
        Some(self.finish_open(acts))
    }

    fn finish_open(&mut self, acts: &mut Vec<Act, Global>) -> Finished
        requires open { self.old.state.heap.is_open ≡ true }
        requires room { HasRoom 1057 acts.old }
        ensures finishes { Finishes (is_dirty_at self.old.dirty) self.old.state acts.old.items result self.new.state acts.new.items }
        ensures room { Tells 1057 acts.old acts.new }
        ensures in_use { AreInUseOrWaiting self.new.state }
        ensures cutting { self.new.cutting ≡ self.old.cutting }
        ensures safe { IsSafe self.new.state }
        ensures dirtied { IsDirtied self.new.state self.new.dirty }
    {
        cornucopia_law();
        passes_law();
        let in_memory = visit_dirty(&mut self.machine, acts);
        let in_registers = untag_registers(&mut self.machine, acts);
        self.machine.invariant();
        self.machine.memory().invariant();
        let bytes = release(&mut self.machine, acts);
        self.machine.invariant();
        Finished {
            cleared: in_memory + in_registers,
            bytes,
        }
    }
}

// Visits the pages that are dirty; answers how many tags that took.
fn visit_dirty(machine: &mut Machine, acts: &mut Vec<Act, Global>) -> u64
    requires open { machine.old.state.heap.is_open ≡ true }
    requires room { HasRoom 1024 acts.old }
    ensures visits { Visits (is_dirty_at machine.old.dirty) machine.old.state acts.old.items result machine.new.state acts.new.items }
    ensures room { Tells 1024 acts.old acts.new }
    ensures clean { AreClean machine.new.dirty }
    ensures open { machine.new.state.heap.is_open ≡ true }
    ensures cutting { machine.new.cutting ≡ machine.old.cutting }
    ensures few { result ≤ 1024 * 2 ^ 32 }
{
    machine.memory().invariant();
    let mut cleared = 0;
    for page in 0..machine.memory().pages() {
        cleared += visit_if_dirty(machine, page, acts);
    }
    cleared
}

// Visits a page if it is dirty; answers how many tags that took.
fn visit_if_dirty(machine: &mut Machine, page: u32, acts: &mut Vec<Act, Global>) -> u64
    requires room { HasRoom 1 acts.old }
    requires open { machine.old.state.heap.is_open ≡ true }
    requires page { 256 * page < length machine.old.state.granules }
    ensures looks { Looks (is_dirty_at machine.old.dirty page) page machine.old acts.old.items result machine.new acts.new.items }
    ensures room { Tells 1 acts.old acts.new }
    ensures cutting { machine.new.cutting ≡ machine.old.cutting }
    ensures few { result < 2 ^ 32 }
{
    if !machine.memory().dirty(page) {
        return 0;
    }
    let command = RevokerCommand::Visit { page };
    let reply = machine.revoke(command);
    tell(acts, command, reply);
    u64::from(cleared_of(reply))
}
