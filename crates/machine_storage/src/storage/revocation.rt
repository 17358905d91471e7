//! Freeing and sweeping: blocks that wait, and the tags of the words that point there.

ghost use Rattle.std.specs.Prelude.{◌≡◌, ◌<◌, ◌≤◌, ◌*◌, ◌^◌, ℕ, [], IfErr, IfOk, IsOk, List, OnErr, OnOk, count_ones, length, slice_index, sum_by};
ghost use Rattle.heap_model.specs.Blocks.{Span};
ghost use Rattle.heap_model.specs.Heap.{due};
ghost use Rattle.heap_model.specs.Quarantine.{IsShadow};
ghost use Rattle.heap_model.specs.Sweep.{tags_taken};
ghost use Rattle.sweep_masks.specs.Masks.{TakeTags};
ghost use Rattle.tag_memory.specs.Cells.{Cell, MemoryState};
ghost use Rattle.trace_text.specs.Command.{IsValid};
ghost use Rattle.machine_storage.specs.Decision.{IsDecision, IsRevocation};
ghost use Rattle.machine_storage.specs.Storage.{IsStorage, state_of};
ghost use Rattle.machine_storage.specs.Passes.{FindsTags, MakesPass, MayPass};
ghost use Rattle.machine_storage.specs.Revoked.{AreApplied, AreRevoked};
ghost use Rattle.machine_steps.specs.Step.{Step, NeedsNoMemory};

use crate::fault::MachineFault;
use crate::storage::Storage;
use crate::storage::decision::{Change, Decision};
use crate::storage::passes::Found;
use cap_codec::{Bounds, bounds};
use heap_core::{Freed, due_registers};
use heap_reply::{Reply, Trap};
use host_memory::Global;
use tag_memory::{Memory, Registers};
use trace_text::Command;

// How many bits of these masks are 1.
pub(super) fn ones_in(masks: &[u64]) -> u32
    requires { 64 * length masks.now < 2 ^ 32 }
    ensures count { result ≡ sum_by count_ones masks.now }
    ensures most { result ≤ 64 * length masks.now }
    ensures words { (w : ℕ) → slice_index masks.now w < 2 ^ 64 }
{
    let mut count = 0;
    for mask in masks {
        count += mask.count_ones();
    }
    count
}

/// The tags that a sweep takes.
#[derive(Drop)]
pub struct RevokedTags {
    // A bit for each granule.
    pub(super) masks: Vec<u64, Global>,
    // A bit for each register.
    pub(super) registers: u32,
}

impl RevokedTags {
    /// How many they are.
    pub fn count(&self) -> u32
        requires { 64 * length self.now.masks.items < 2 ^ 31 }
        ensures { (held : List Span) (memory : MemoryState) (registers : List Cell) → AreRevoked held memory registers self.now
            → result ≡ tags_taken held memory.granules registers }
    {
        let granules = ones_in(&self.masks);
        granules + self.registers.count_ones()
    }

    /// Takes them.
    pub fn apply(&self, memory: &mut Memory, registers: &mut Registers)
        requires masks { 64 * length self.now.masks.items ≡ length memory.old.granules }
        ensures taken { (held : List Span) → AreRevoked held memory.old registers.old self.now
            → AreApplied held memory.old registers.old memory.new registers.new }
        ensures base { memory.new.base ≡ memory.old.base }
        ensures dirty { memory.new.dirty ≡ memory.old.dirty }
    {
        memory.clear_tags(&self.masks);
        registers.clear_tags(self.registers);
    }
}

impl Storage {
    // The block with just a register's bounds goes into quarantine.
    pub(super) fn free(&self, rs: u8) -> Decision
        requires storage { IsStorage self.now }
        requires valid { IsValid (Command.Free rs) }
        ensures { IsDecision self.now (Command.Free rs) result }
    {
        let (word, tag) = self.registers.get(rs);
        if !tag {
            return Decision::trap(Trap::Tag);
        }
        let Bounds { base, top } = bounds(word);
        let bytes = (top - u128::from(base)) as u64;
        match self.heap.freed_of(base, top) {
            Freed::Held => {
                let reply = Reply::Held(bytes);
                let change = Change::Waits { base, top };
                Decision { reply, change }
            }
            Freed::AlreadyHeld => Decision::trap(Trap::Freed),
            Freed::NotBlock => Decision::trap(Trap::NotBlock),
        }
    }

    // Every tagged word whose base lies in a block that waits loses its tag; then these blocks are free. Where none waits
    // there is nothing to look for.
    pub(super) fn sweep<P: Fn(&Storage) -> Option<Found>>(
        &self,
        pass: &P,
    ) -> Result<Decision, MachineFault>
        requires callable { MakesPass self.now Command.Sweep → MayPass (P.pre pass.now) self.now }
        requires finds { FindsTags (P.post pass.now) }
        requires storage { IsStorage self.now }
        ensures decision { IfOk result (IsDecision self.now Command.Sweep) }
        ensures memory { IfErr result (λ fault. fault ≡ MachineFault.Memory) }
        ensures ok { NeedsNoMemory (state_of self.now) Command.Sweep → IsOk result }
    {
        if self.heap.is_open() {
            return Ok(Decision::trap(Trap::Open));
        }
        if self.heap.held_bytes() == 0 {
            let reply = Reply::Swept {
                cleared: 0,
                released: 0,
            };
            let change = Change::Nothing;
            return Ok(Decision { reply, change });
        }
        self.revocation(pass)
    }

    // Every tagged word whose base lies in a block that is due loses its tag; then these blocks are free. Whatever takes
    // memory comes before the first change.
    pub(super) fn revocation<P: Fn(&Storage) -> Option<Found>>(
        &self,
        pass: &P,
    ) -> Result<Decision, MachineFault>
        requires callable { MayPass (P.pre pass.now) self.now }
        requires finds { FindsTags (P.post pass.now) }
        requires storage { IsStorage self.now }
        ensures decision { IfOk result (IsRevocation self.now) }
        ensures memory { IfErr result (λ fault. fault ≡ MachineFault.Memory) }
    {
        let revoked = self.revoked_tags(pass)?;
        let reply = Reply::Swept {
            cleared: revoked.count(),
            released: self.heap.due_bytes(),
        };
        let change = Change::Revokes(revoked);
        Ok(Decision { reply, change })
    }

    // The tags of memory and registers that a pass takes now, of words whose base lies in a block that is due. In an open
    // epoch such words stand in dirty pages alone, since none was left when it began, and later each came from a register.
    pub(super) fn revoked_tags<P: Fn(&Storage) -> Option<Found>>(
        &self,
        pass: &P,
    ) -> Result<RevokedTags, MachineFault>
        requires callable { MayPass (P.pre pass.now) self.now }
        requires finds { FindsTags (P.post pass.now) }
        requires storage { IsStorage self.now }
        ensures memory { IfErr result (λ fault. fault ≡ MachineFault.Memory) }
        ensures revoked { IfOk result (λ tags. AreRevoked (due self.now.heap) self.now.memory self.now.registers tags) }
        ensures masks { IfOk result (λ tags. 64 * length tags.masks.items ≡ length self.now.memory.granules) }
        ensures few { length self.now.memory.granules < 2 ^ 31 }
    {
        let Some(found) = pass(self) else {
            return Err(MachineFault::Memory);
        };
        Ok(RevokedTags {
            masks: found.masks,
            registers: due_registers(&self.registers, &self.heap),
        })
    }
}
