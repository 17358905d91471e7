//! Handing out blocks after a sweep: where a block has no place, and others are held.

ghost use Rattle.std.specs.Prelude.{◌≡◌, IfErr, IfOk, OnErr, OnOk};
ghost use Rattle.trace_text.specs.Command.{IsValid};
ghost use Rattle.machine_storage.specs.Storage.{IsStorage, state_of};
ghost use Rattle.machine_storage.specs.Passes.{FindsTags, MayPass};
ghost use Rattle.machine_steps.specs.Step.{HasNoPlace, MaySweep, Step};

use crate::fault::MachineFault;
use crate::storage::Storage;
use crate::storage::passes::Found;
use cap_codec::{Word, block_capability};
use heap_core::Block;
use heap_reply::Reply;
use trace_text::Command;

impl Storage {
    // A sweep, and then a block where it has a place now. Whatever takes memory comes before the first change.
    pub(super) fn sweep_and_malloc<P: Fn(&Storage) -> Option<Found>>(
        &mut self,
        rd: u8,
        size: u64,
        pass: &P,
    ) -> Result<Reply, MachineFault>
        requires callable { MayPass (P.pre pass.now) self.old }
        requires finds { FindsTags (P.post pass.now) }
        requires storage { IsStorage self.old }
        requires valid { IsValid (Command.Malloc rd size) }
        requires none { HasNoPlace (state_of self.old) size }
        requires may { MaySweep (state_of self.old) }
        ensures step { IfOk result (λ reply. Step (state_of self.old) (Command.Malloc rd size) reply (state_of self.new)) }
        ensures base { self.new.memory.base ≡ self.new.heap.base }
        ensures dirty { OnOk result (self.new.memory.dirty ≡ self.old.memory.dirty) }
        ensures err { OnErr result (self.new ≡ self.old) }
        ensures memory { IfErr result (λ fault. fault ≡ MachineFault.Memory) }
    {
        let revoked = self.revoked_tags(pass)?;
        let Ok((found, _)) = self.heap.give_back_and_reserve(size) else {
            return Err(MachineFault::Memory);
        };
        let cleared = revoked.count();
        revoked.apply(&mut self.memory, &mut self.registers);
        let Some(block) = found else {
            self.registers.set(rd, Word::NULL, false);
            return Ok(Reply::NoSpaceAfter { cleared });
        };
        let Block { base, top } = block;
        self.registers.set(rd, block_capability(base, top), true);
        Ok(Reply::BlockAfter { base, top, cleared })
    }
}
