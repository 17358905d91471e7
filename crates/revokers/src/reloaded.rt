//! A revoker with a barrier at loads: it looks at a page before the program loads from it.

ghost use Rattle.std.specs.Prelude.{◌≡◌, ◌≢◌, ◌↔◌, ◌++◌, ◌∷◌, [], IfSome, None, false, length, replicate, true};
ghost use Rattle.machine_steps.specs.Dirty.{HasPages};
ghost use Rattle.machine_steps.specs.Safety.{AreInUseOrWaiting, IsSafe};
ghost use Rattle.machine_steps.specs.Sound.{IsMachine};
ghost use Rattle.revoker_steps.specs.declared.command.RevokerCommand.TheVariants.{Release};
ghost use Rattle.revoker_steps.specs.declared.command.RevokerReply.TheVariants.{Released};
ghost use Rattle.revoker_steps.specs.Barred.{AreSeen, IsBarred, after_start};
ghost use Rattle.revoker_steps.specs.Revoker.{RevokerStep};
ghost use Rattle.revokers.specs.Acts.{HasRoom, Tells};
ghost use Rattle.revokers.specs.Reloaded.{FinishesSeen, IsEpoch, Starts};

mod loading;
mod looking;

use crate::acts::{Act, tell};
use crate::ending::{Finished, release, untag_registers};
use heap_machine::{Machine, Reply, RevokerCommand, RevokerReply};
use host_memory::Global;
use revoker_steps::{barrier_law, passes_law, reloaded_law};
use std::marker::Model;

/// What the barrier did before a load: it visited the page from which the load is, and took so many tags there.
#[derive(Clone, Copy, Debug, PartialEq, Eq)]
pub struct Barrier {
    pub page: u32,
    pub cleared: u32,
}

/// What a command came to.
#[derive(Debug, PartialEq, Eq, Drop)]
pub struct Stepped {
    /// What the barrier did before it, if it had to.
    pub barrier: Option<Barrier>,
    pub reply: Reply,
}

/// A machine with a revoker that takes the tags of registers at once, and those of a page before the program loads from it
/// (Filardo et al. 2024, Cornucopia Reloaded). So from the start of an epoch on no register holds a tagged word whose base
/// lies in a painted block, whatever the program does.
#[derive(Drop)]
pub struct Reloaded {
    machine: Machine,
    seen: Vec<bool, Global>,
    // Whether an epoch of this revoker is open, and not one that the program began.
    is_started: bool,
}

impl Model for Reloaded {
    ghost use Rattle.revokers.specs.Reloaded.{IsReloaded, ReloadedState};

    ghost Value = { ReloadedState };

    ghost view = { λ r. record { machine = r.machine; seen = r.seen.items; is_started = r.is_started } };

    ghost invariant = { λ r. IsReloaded r.machine.state r.seen.items r.is_started };
}

impl Reloaded {
    /// A revoker of this machine, with no epoch of its own; `None` where memory runs out.
    pub fn new(alloc: Global, machine: Machine) -> Option<Reloaded>
        ensures machine { IfSome result (λ revoker. revoker.machine ≡ machine) }
        ensures started { IfSome result (λ revoker. revoker.is_started ≡ false) }
    {
        machine.memory().invariant();
        let Ok(seen) = vec![in alloc; false; machine.memory().pages() as usize] else {
            return None;
        };
        Some(Reloaded {
            machine,
            seen,
            is_started: false,
        })
    }

    /// The machine now.
    pub fn machine(&self) -> &Machine
        ensures { result.now ≡ self.now.machine }
    {
        &self.machine
    }

    /// Tells what holds of every such revoker. Nothing is done.
    pub fn invariant(&self)
        ensures sound { IsMachine self.now.machine.state }
        ensures pages { HasPages self.now.machine.state self.now.seen }
        ensures epoch { self.now.is_started ≡ true → IsEpoch self.now.machine.state self.now.seen }
    {
        self.machine.invariant();
    }

    /// Starts an epoch: the blocks that wait are painted, and the registers lose their tags; answers how many. No page was
    /// seen. `acts` is told each of these steps, for which it has room. `None` where an epoch is open.
    pub fn start(&mut self, acts: &mut Vec<Act, Global>) -> Option<u64>
        requires room { HasRoom 1057 acts.old }
        ensures open { (result ≡ None) ↔ (self.old.machine.state.heap.is_open ≡ true) }
        ensures still { result ≡ None → self.new ≡ self.old }
        ensures untold { result ≡ None → acts.new ≡ acts.old }
        ensures starts { IfSome result (λ cleared. Starts self.old.machine.state acts.old.items cleared self.new.machine.state acts.new.items) }
        ensures room { Tells 1057 acts.old acts.new }
        ensures after { result ≢ None → self.new.machine.state ≡ after_start self.old.machine.state }
        ensures unseen { result ≢ None → self.new.seen ≡ replicate (length self.old.seen) false }
        ensures started { result ≢ None → self.new.is_started ≡ true }
        ensures cutting { self.new.machine.cutting ≡ self.old.machine.cutting }
        ensures safe { IsSafe self.new.machine.state }
        ensures barred { self.new.is_started ≡ true → IsBarred self.new.machine.state self.new.seen }
    {
        self.invariant();
        if self.machine.heap().is_open() {
            return None;
        }
        Some(self.start_closed(acts))
    }

    fn start_closed(&mut self, acts: &mut Vec<Act, Global>) -> u64
        requires closed { self.old.machine.state.heap.is_open ≡ false }
        requires room { HasRoom 1057 acts.old }
        ensures starts { Starts self.old.machine.state acts.old.items result self.new.machine.state acts.new.items }
        ensures room { Tells 1057 acts.old acts.new }
        ensures after { self.new.machine.state ≡ after_start self.old.machine.state }
        ensures unseen { self.new.seen ≡ replicate (length self.old.seen) false }
        ensures started { self.new.is_started ≡ true }
        ensures cutting { self.new.machine.cutting ≡ self.old.machine.cutting }
        ensures safe { IsSafe self.new.machine.state }
        ensures barred { IsBarred self.new.machine.state self.new.seen }
    {
        barrier_law();
        reloaded_law();
        self.machine.invariant();
        let reply = self.machine.revoke(RevokerCommand::Paint);
        tell(acts, RevokerCommand::Paint, reply);
        let cleared = untag_registers(&mut self.machine, acts);
        self.machine.invariant();
        self.seen.fill(false);
        self.is_started = true;
        cleared
    }

    /// Ends the epoch that `start` opened: the pages that weren't seen are visited, and the painted blocks are free, for no
    /// tagged word is left that points into one. `acts` is told each of these steps, for which it has room. `None` where no
    /// epoch of this revoker is open.
    pub fn finish(&mut self, acts: &mut Vec<Act, Global>) -> Option<Finished>
        requires room { HasRoom 1057 acts.old }
        ensures closed { (result ≡ None) ↔ (self.old.is_started ≡ false) }
        ensures still { result ≡ None → self.new ≡ self.old }
        ensures untold { result ≡ None → acts.new ≡ acts.old }
        ensures finishes { IfSome result (λ finished. FinishesSeen self.old.seen self.old.machine.state acts.old.items finished self.new.machine.state acts.new.items) }
        ensures room { Tells 1057 acts.old acts.new }
        ensures in_use { result ≢ None → AreInUseOrWaiting self.new.machine.state }
        ensures ended { self.new.is_started ≡ false }
        ensures cutting { self.new.machine.cutting ≡ self.old.machine.cutting }
        ensures safe { IsSafe self.new.machine.state }
    {
        self.invariant();
        if !self.is_started {
            return None;
        }
        Some(self.finish_started(acts))
    }

    fn finish_started(&mut self, acts: &mut Vec<Act, Global>) -> Finished
        requires started { self.old.is_started ≡ true }
        requires room { HasRoom 1057 acts.old }
        ensures finishes { FinishesSeen self.old.seen self.old.machine.state acts.old.items result self.new.machine.state acts.new.items }
        ensures room { Tells 1057 acts.old acts.new }
        ensures in_use { AreInUseOrWaiting self.new.machine.state }
        ensures ended { self.new.is_started ≡ false }
        ensures cutting { self.new.machine.cutting ≡ self.old.machine.cutting }
        ensures safe { IsSafe self.new.machine.state }
    {
        passes_law();
        let cleared = self.look_at_all(acts);
        self.invariant();
        let bytes = self.release_seen(acts);
        self.invariant();
        Finished { cleared, bytes }
    }

    // Frees the painted blocks, once all pages were seen.
    fn release_seen(&mut self, acts: &mut Vec<Act, Global>) -> u64
        requires started { self.old.is_started ≡ true }
        requires seen { AreSeen self.old.seen }
        requires room { HasRoom 1 acts.old }
        ensures step { RevokerStep self.old.machine.state Release (Released result) self.new.machine.state }
        ensures told { acts.new.items ≡ acts.old.items ++ record { command = Release; reply = Released result } ∷ [] }
        ensures room { Tells 1 acts.old acts.new }
        ensures ended { self.new.is_started ≡ false }
        ensures cutting { self.new.machine.cutting ≡ self.old.machine.cutting }
    {
        barrier_law();
        let bytes = release(&mut self.machine, acts);
        self.is_started = false;
        bytes
    }

    /// Releases the painted blocks of an epoch that isn't this revoker's, and is trapped while a tagged word points into one.
    pub fn release(&mut self) -> RevokerReply
        requires { self.old.is_started ≡ false }
        ensures step { RevokerStep self.old.machine.state Release result self.new.machine.state }
        ensures seen { self.new.seen ≡ self.old.seen }
        ensures started { self.new.is_started ≡ false }
        ensures cutting { self.new.machine.cutting ≡ self.old.machine.cutting }
        ensures safe { IsSafe self.new.machine.state }
    {
        self.machine.revoke(RevokerCommand::Release)
    }
}
