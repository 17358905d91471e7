//! Epochs of revocation: what begins one sweeps memory alone, and what ends it looks at registers and dirty pages.

ghost use Rattle.std.specs.Prelude.{◌≡◌, ℕ, IfErr, IfOk, IsOk, false, true};
ghost use Rattle.heap_model.specs.Quarantine.{with_epoch};
ghost use Rattle.tag_memory.specs.Cells.{all_clean, is_dirty_at};
ghost use Rattle.machine_storage.specs.Decision.{IsDecision, IsRevocation};
ghost use Rattle.machine_storage.specs.Storage.{IsStorage, state_of};
ghost use Rattle.machine_storage.specs.Passes.{FindsTags, MakesPass, MayPass};
ghost use Rattle.machine_steps.specs.Step.{NeedsNoMemory};

use crate::fault::MachineFault;
use crate::storage::Storage;
use crate::storage::decision::{Change, Decision};
use crate::storage::passes::Found;
use crate::storage::revocation::ones_in;
use heap_core::due_registers;
use heap_reply::{Reply, Trap};
use trace_text::Command;

impl Storage {
    // Every tagged word of memory whose base lies in a block that waits loses its tag; then these blocks are painted, and
    // all pages clean. The registers are left for the end. Whatever takes memory comes before the first change.
    pub(super) fn begin<P: Fn(&Storage) -> Option<Found>>(
        &self,
        pass: &P,
    ) -> Result<Decision, MachineFault>
        requires callable { MakesPass self.now Command.Begin → MayPass (P.pre pass.now) self.now }
        requires finds { FindsTags (P.post pass.now) }
        requires storage { IsStorage self.now }
        ensures decision { IfOk result (IsDecision self.now Command.Begin) }
        ensures memory { IfErr result (λ fault. fault ≡ MachineFault.Memory) }
        ensures ok { NeedsNoMemory (state_of self.now) Command.Begin → IsOk result }
    {
        if self.heap.is_open() {
            return Ok(Decision::trap(Trap::Open));
        }
        if self.heap.held_bytes() == 0 {
            let reply = Reply::Begun { cleared: 0 };
            let change = Change::BeginsEmpty;
            return Ok(Decision { reply, change });
        }
        let masks = self.memory_masks(pass)?;
        let reply = Reply::Begun {
            cleared: ones_in(&masks),
        };
        let change = Change::Begins(masks);
        Ok(Decision { reply, change })
    }

    // Every tagged word whose base lies in a painted block loses its tag; then these blocks are free. In memory such
    // words stand in dirty pages alone, since none was left when the epoch began, and later each came from a register.
    pub(super) fn end<P: Fn(&Storage) -> Option<Found>>(
        &self,
        pass: &P,
    ) -> Result<Decision, MachineFault>
        requires callable { MakesPass self.now Command.End → MayPass (P.pre pass.now) self.now }
        requires finds { FindsTags (P.post pass.now) }
        requires storage { IsStorage self.now }
        ensures decision { IfOk result (IsDecision self.now Command.End) }
        ensures memory { IfErr result (λ fault. fault ≡ MachineFault.Memory) }
        ensures ok { NeedsNoMemory (state_of self.now) Command.End → IsOk result }
    {
        if !self.heap.is_open() {
            return Ok(Decision::trap(Trap::NotOpen));
        }
        if !self.memory.has_dirty() {
            return Ok(self.end_clean());
        }
        self.revocation(pass)
    }

    // The same where no page is dirty, so that no word of memory loses its tag: only registers are looked at, whatever the
    // heap, and that takes no memory.
    fn end_clean(&self) -> Decision
        requires storage { IsStorage self.now }
        requires opened { self.now.heap.is_open ≡ true }
        requires clean { (page : ℕ) → is_dirty_at self.now.memory.dirty page ≡ false }
        ensures { IsRevocation self.now result }
    {
        let revoked = due_registers(&self.registers, &self.heap);
        let reply = Reply::Swept {
            cleared: revoked.count_ones(),
            released: self.heap.due_bytes(),
        };
        let change = Change::Registers(revoked);
        Decision { reply, change }
    }

    // The blocks that wait are painted, and all pages clean.
    pub(super) fn begin_epoch(&mut self)
        requires { self.old.heap.is_open ≡ false }
        ensures { self.new ≡ record self.old { heap = with_epoch self.old.heap; memory = record self.old.memory { dirty = all_clean self.old.memory.dirty } } }
    {
        self.memory.mark_clean();
        self.heap.begin_epoch();
    }
}
