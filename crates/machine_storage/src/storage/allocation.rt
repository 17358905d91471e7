//! Handing out blocks that have a place.

ghost use Rattle.std.specs.Prelude.{◌≡◌, IfErr, IfOk, IsOk, OnErr, OnOk, false, true};
ghost use Rattle.trace_text.specs.Command.{IsValid};
ghost use Rattle.machine_storage.specs.Storage.{IsStorage, state_of};
ghost use Rattle.machine_storage.specs.Passes.{FindsTags, MakesPass, MayPass};
ghost use Rattle.machine_steps.specs.Step.{MaySweep, Step, NeedsNoMemory};

use crate::fault::MachineFault;
use crate::storage::Storage;
use crate::storage::passes::Found;
use cap_codec::{Word, block_capability};
use heap_core::Block;
use heap_reply::Reply;
use trace_text::Command;

impl Storage {
    // A block is handed out where it has a place. Where it has none, but no epoch is open and some block waits, a sweep
    // comes first, and then one more try.
    pub(super) fn malloc<P: Fn(&Storage) -> Option<Found>>(
        &mut self,
        rd: u8,
        size: u64,
        pass: &P,
    ) -> Result<Reply, MachineFault>
        requires callable { MakesPass self.old (Command.Malloc rd size) → MayPass (P.pre pass.now) self.old }
        requires finds { FindsTags (P.post pass.now) }
        requires storage { IsStorage self.old }
        requires valid { IsValid (Command.Malloc rd size) }
        ensures step { IfOk result (λ reply. Step (state_of self.old) (Command.Malloc rd size) reply (state_of self.new)) }
        ensures base { self.new.memory.base ≡ self.new.heap.base }
        ensures dirty { OnOk result (self.new.memory.dirty ≡ self.old.memory.dirty) }
        ensures err { OnErr result (self.new ≡ self.old) }
        ensures memory { IfErr result (λ fault. fault ≡ MachineFault.Memory) }
        ensures ok { NeedsNoMemory (state_of self.old) (Command.Malloc rd size) → IsOk result }
    {
        if let Some(Block { base, top }) = self.heap.reserve(size).unwrap() {
            self.registers.set(rd, block_capability(base, top), true);
            return Ok(Reply::Block { base, top });
        }
        if !self.may_sweep() {
            self.registers.set(rd, Word::NULL, false);
            return Ok(Reply::NoSpace);
        }
        self.sweep_and_malloc(rd, size, pass)
    }

    // Whether a malloc may sweep: no epoch is open, and some block waits.
    pub(super) fn may_sweep(&self) -> bool
        ensures may { result ≡ true → MaySweep (state_of self.now) }
        ensures not { result ≡ false → ¬ MaySweep (state_of self.now) }
    {
        self.heap.invariant();
        !self.heap.is_open() && self.heap.held_bytes() != 0
    }
}
