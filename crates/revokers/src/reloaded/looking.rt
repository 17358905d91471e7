//! Visits of pages, which are seen then.

ghost use Rattle.std.specs.Prelude.{◌≡◌, ◌<◌, ◌≤◌, ◌*◌, ◌^◌, length, true};
ghost use Rattle.machine_steps.specs.Safety.{IsSafe};
ghost use Rattle.revoker_steps.specs.declared.command.RevokerCommand.TheVariants.{Visit};
ghost use Rattle.revoker_steps.specs.Barred.{AreSeen, IsBarred, is_seen};
ghost use Rattle.revoker_steps.specs.Revoker.{RevokerStep};
ghost use Rattle.revoker_steps.specs.RevokerDirty.{revoker_dirty_after};
ghost use Rattle.revokers.specs.Acts.{HasRoom, Tells};
ghost use Rattle.revokers.specs.Ending.{Visits};
ghost use Rattle.revokers.specs.Reloaded.{IsLooked, is_unseen, seen_by};
ghost use Rattle.revokers.specs.Seen.{LooksAt};

use crate::acts::{Act, tell};
use crate::ending::cleared_of;
use crate::reloaded::Reloaded;
use heap_machine::{RevokerCommand, RevokerReply};
use host_memory::Global;
use revoker_steps::barrier_law;

impl Reloaded {
    /// Takes the tags on a page of words whose base lies in a painted block. The page is seen then. Pages are visited in any
    /// order, and as often as one likes; none has to be.
    pub fn visit(&mut self, page: u32) -> RevokerReply
        ensures step { RevokerStep self.old.machine.state (Visit page) result self.new.machine.state }
        ensures seen { self.new.seen ≡ seen_by result page self.old.seen }
        ensures started { self.new.is_started ≡ self.old.is_started }
        ensures cutting { self.new.machine.cutting ≡ self.old.machine.cutting }
        ensures safe { IsSafe self.new.machine.state }
        ensures dirty { self.new.machine.dirty ≡ revoker_dirty_after self.old.machine.state (Visit page) self.old.machine.dirty }
        ensures barred { self.new.is_started ≡ true → IsBarred self.new.machine.state self.new.seen }
    {
        barrier_law();
        let reply = self.machine.revoke(RevokerCommand::Visit { page });
        mark_seen(&mut self.seen, reply, page);
        reply
    }

    // Visits a page of the heap in an epoch of this revoker; answers how many tags that took.
    pub(super) fn look_at(&mut self, page: u32) -> u32
        requires started { self.old.is_started ≡ true }
        requires page { page < length self.old.seen }
        ensures looks { IsLooked page self.old result self.new }
        ensures few { result < 2 ^ 32 }
    {
        self.invariant();
        let reply = self.visit(page);
        cleared_of(reply)
    }

    // How many pages there are.
    fn pages(&self) -> u32
        ensures { result ≡ length self.now.seen }
    {
        self.machine.memory().pages()
    }

    // Visits the page if it wasn't seen.
    fn look_if_unseen(&mut self, page: u32, acts: &mut Vec<Act, Global>) -> u64
        requires room { HasRoom 1 acts.old }
        requires started { self.old.is_started ≡ true }
        requires page { page < length self.old.seen }
        ensures looks { LooksAt (is_seen self.old.seen page) page self.old acts.old.items result self.new acts.new.items }
        ensures room { Tells 1 acts.old acts.new }
        ensures few { result < 2 ^ 32 }
    {
        if self.seen[page as usize] {
            return 0;
        }
        let cleared = self.look_at(page);
        tell(
            acts,
            RevokerCommand::Visit { page },
            RevokerReply::Cleared { cleared },
        );
        u64::from(cleared)
    }

    // Visits the pages that weren't seen; answers how many tags that took.
    pub(super) fn look_at_all(&mut self, acts: &mut Vec<Act, Global>) -> u64
        requires started { self.old.is_started ≡ true }
        requires room { HasRoom 1024 acts.old }
        ensures visits { Visits (is_unseen self.old.seen) self.old.machine.state acts.old.items result self.new.machine.state acts.new.items }
        ensures room { Tells 1024 acts.old acts.new }
        ensures seen { AreSeen self.new.seen }
        ensures started { self.new.is_started ≡ true }
        ensures cutting { self.new.machine.cutting ≡ self.old.machine.cutting }
    {
        self.invariant();
        let mut cleared = 0;
        for page in 0..self.pages() {
            cleared += self.look_if_unseen(page, acts);
        }
        cleared
    }
}

// Marks a page that a visit took tags of, if it was answered so.
fn mark_seen(seen: &mut Vec<bool, Global>, reply: RevokerReply, page: u32)
    ensures { seen.new.items ≡ seen_by reply page seen.old.items }
{
    let page = page as usize;
    if !matches!(reply, RevokerReply::Cleared { .. }) || page >= seen.len() {
        return;
    }
    seen[page] = true;
}
