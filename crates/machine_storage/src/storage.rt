//! The storage of a machine, and what each command does to it.

ghost use Rattle.std.specs.Prelude.{◌≡◌, ◌<◌, IfErr, IfOk, IsOk, None, OnErr, OnOk, Some, length};
ghost use Rattle.tag_memory.specs.Cells.{register_at, register_count};
ghost use Rattle.trace_text.specs.Command.{IsValid};
ghost use Rattle.machine_steps.specs.Dirty.{dirty_after};
ghost use Rattle.machine_storage.specs.Decision.{IsDecision};
ghost use Rattle.machine_storage.specs.Followed.{HasOneReply};
ghost use Rattle.machine_storage.specs.Storage.{IsStorage, state_of};
ghost use Rattle.machine_storage.specs.Passes.{FindsTags, MakesPass, MayPass};
ghost use Rattle.machine_steps.specs.Safety.{FitsTypes};
ghost use Rattle.machine_steps.specs.Step.{Step, NeedsNoMemory, access, first_failed, index_in};

mod allocation;
mod decision;
mod epochs;
mod following;
mod passes;
mod retry;
mod revocation;
mod revoker;

use crate::fault::MachineFault;
use crate::storage::decision::{Change, Decision};
pub use crate::storage::passes::Found;
use cap_codec::{
    LOAD, LOAD_CAPABILITY, STORE, STORE_CAPABILITY, Word, and_perms, bounds, fields, from_bytes,
    is_allowed, representable, set_address, with_bounds,
};
use heap_core::Heap;
use heap_reply::{Reply, Shown, Trap};
use tag_memory::{GRANULE, Memory, Registers};
use trace_text::Command;

/// One heap with its memory, and 32 registers. Each command takes a storage whose state is sound from one state to the
/// next.
#[derive(Drop)]
pub struct Storage {
    pub heap: Heap,
    pub memory: Memory,
    pub registers: Registers,
}

impl Storage {
    /// Does one command. `pass` tells what a pass finds, and is called only where the command makes one.
    pub fn serve<P: Fn(&Storage) -> Option<Found>>(
        &mut self,
        command: Command,
        pass: &P,
    ) -> Result<Reply, MachineFault>
        requires callable { MakesPass self.old command → MayPass (P.pre pass.now) self.old }
        requires finds { FindsTags (P.post pass.now) }
        requires storage { IsStorage self.old }
        requires valid { IsValid command }
        ensures step { IfOk result (λ reply. Step (state_of self.old) command reply (state_of self.new)) }
        ensures base { self.new.memory.base ≡ self.new.heap.base }
        ensures dirty { OnOk result (self.new.memory.dirty ≡ dirty_after (state_of self.old) command self.old.memory.dirty) }
        ensures err { OnErr result (self.new ≡ self.old) }
        ensures memory { IfErr result (λ fault. fault ≡ MachineFault.Memory) }
        ensures ok { NeedsNoMemory (state_of self.old) command → IsOk result }
        // What the command's type says of its numbers, for the law `steps`.
        ensures fits { FitsTypes command }
    {
        let reply = match command {
            Command::Malloc { rd, size } => return self.malloc(rd, size, pass),
            Command::Free { rs } => self.make(self.free(rs)),
            Command::Copy { rd, rs } => self.make(self.copy(rd, rs)),
            Command::SetAddr { rd, rs, address } => self.make(self.set_address(rd, rs, address)),
            Command::Narrow { rd, rs, length } => self.make(self.narrow(rd, rs, length)),
            Command::AndPerm { rd, rs, mask } => self.make(self.and_perms(rd, rs, mask)),
            Command::StoreCap { ra, rs } => self.make(self.store_cap(ra, rs)),
            Command::LoadCap { rd, ra } => self.make(self.load_cap(rd, ra)),
            Command::Write { ra, bytes } => self.make(self.write(ra, bytes)),
            Command::Show { rs } => self.make(self.show(rs)),
            Command::Sweep | Command::Begin | Command::End => {
                self.prepare()?;
                let decision = self.decide(command, pass)?;
                self.make(decision)
            }
        };
        Ok(reply)
    }

    // What a command that is no malloc comes to, before anything changes.
    fn decide<P: Fn(&Storage) -> Option<Found>>(
        &self,
        command: Command,
        pass: &P,
    ) -> Result<Decision, MachineFault>
        requires callable { MakesPass self.now command → MayPass (P.pre pass.now) self.now }
        requires finds { FindsTags (P.post pass.now) }
        requires storage { IsStorage self.now }
        requires valid { IsValid command }
        requires one { HasOneReply command }
        ensures decision { IfOk result (IsDecision self.now command) }
        ensures memory { IfErr result (λ fault. fault ≡ MachineFault.Memory) }
        ensures ok { NeedsNoMemory (state_of self.now) command → IsOk result }
    {
        match command {
            Command::Malloc { .. } => unreachable!(),
            Command::Free { rs } => Ok(self.free(rs)),
            Command::Copy { rd, rs } => Ok(self.copy(rd, rs)),
            Command::SetAddr { rd, rs, address } => Ok(self.set_address(rd, rs, address)),
            Command::Narrow { rd, rs, length } => Ok(self.narrow(rd, rs, length)),
            Command::AndPerm { rd, rs, mask } => Ok(self.and_perms(rd, rs, mask)),
            Command::StoreCap { ra, rs } => Ok(self.store_cap(ra, rs)),
            Command::LoadCap { rd, ra } => Ok(self.load_cap(rd, ra)),
            Command::Write { ra, bytes } => Ok(self.write(ra, bytes)),
            Command::Show { rs } => Ok(self.show(rs)),
            Command::Sweep => self.sweep(pass),
            Command::Begin => self.begin(pass),
            Command::End => self.end(pass),
        }
    }

    fn copy(&self, rd: u8, rs: u8) -> Decision
        requires storage { IsStorage self.now }
        requires valid { IsValid (Command.Copy rd rs) }
        ensures { IsDecision self.now (Command.Copy rd rs) result }
    {
        let (word, tag) = self.registers.get(rs);
        Decision::done(Change::Register { r: rd, word, tag })
    }

    fn set_address(&self, rd: u8, rs: u8, address: u64) -> Decision
        requires storage { IsStorage self.now }
        requires valid { IsValid (Command.SetAddr rd rs address) }
        ensures { IsDecision self.now (Command.SetAddr rd rs address) result }
    {
        let (word, tag) = self.registers.get(rs);
        let keeps = representable(word, address);
        let reply = if tag & !keeps {
            Reply::Cleared
        } else {
            Reply::Done
        };
        let word = set_address(word, address);
        let tag = tag & keeps;
        let change = Change::Register { r: rd, word, tag };
        Decision { reply, change }
    }

    fn narrow(&self, rd: u8, rs: u8, length: u64) -> Decision
        requires storage { IsStorage self.now }
        requires valid { IsValid (Command.Narrow rd rs length) }
        ensures { IsDecision self.now (Command.Narrow rd rs length) result }
    {
        let (word, tag) = self.registers.get(rs);
        if !tag {
            return Decision::trap(Trap::Tag);
        }
        if length == 0 {
            return Decision::trap(Trap::Empty);
        }
        let base = fields(word).address;
        if !bounds(word).hold(base, length) {
            return Decision::trap(Trap::Bounds);
        }
        let (word, exact) = with_bounds(word, base, u128::from(base) + u128::from(length));
        if !exact {
            return Decision::trap(Trap::Inexact);
        }
        let tag = true;
        Decision::done(Change::Register { r: rd, word, tag })
    }

    fn and_perms(&self, rd: u8, rs: u8, mask: u16) -> Decision
        requires storage { IsStorage self.now }
        requires valid { IsValid (Command.AndPerm rd rs mask) }
        ensures { IsDecision self.now (Command.AndPerm rd rs mask) result }
    {
        let (word, tag) = self.registers.get(rs);
        let word = and_perms(word, mask);
        Decision::done(Change::Register { r: rd, word, tag })
    }

    // The index of the granule at a register's address, for an access that is allowed so.
    // Inlined, since a command that looks at a granule does little else.
    #[inline(always)]
    fn granule_index(&self, ra: u8, allowed: bool) -> Result<usize, Trap>
        requires storage { IsStorage self.now }
        requires register { ra < register_count }
        ensures passed { OnOk result (first_failed (access (register_at self.now.registers ra) allowed) ≡ None) }
        ensures index { IfOk result (λ i. i ≡ index_in (state_of self.now) (register_at self.now.registers ra).0) }
        ensures there { IfOk result (λ i. i < length self.now.memory.granules) }
        ensures failed { IfErr result (λ trap. first_failed (access (register_at self.now.registers ra) allowed) ≡ Some trap) }
    {
        let (word, tag) = self.registers.get(ra);
        if let Some(trap) = access_fault(word, tag, allowed) {
            return Err(trap);
        }
        Ok(((fields(word).address - self.memory.base()) / GRANULE) as usize)
    }

    fn store_cap(&self, ra: u8, rs: u8) -> Decision
        requires storage { IsStorage self.now }
        requires valid { IsValid (Command.StoreCap ra rs) }
        ensures { IsDecision self.now (Command.StoreCap ra rs) result }
    {
        let (word, tag) = self.registers.get(rs);
        let (authority, _) = self.registers.get(ra);
        let stores = is_allowed(authority, STORE);
        let allowed = stores & (!tag | is_allowed(authority, STORE_CAPABILITY));
        let i = match self.granule_index(ra, allowed) {
            Ok(i) => i,
            Err(trap) => return Decision::trap(trap),
        };
        let bits = word.bits;
        Decision::done(Change::Granule { i, bits, tag })
    }

    fn load_cap(&self, rd: u8, ra: u8) -> Decision
        requires storage { IsStorage self.now }
        requires valid { IsValid (Command.LoadCap rd ra) }
        ensures { IsDecision self.now (Command.LoadCap rd ra) result }
    {
        let (authority, _) = self.registers.get(ra);
        let i = match self.granule_index(ra, is_allowed(authority, LOAD)) {
            Ok(i) => i,
            Err(trap) => return Decision::trap(trap),
        };
        let (bits, tag) = self.memory.cell(i);
        let word = Word { bits };
        let tag = tag & is_allowed(authority, LOAD_CAPABILITY);
        Decision::done(Change::Register { r: rd, word, tag })
    }

    fn write(&self, ra: u8, bytes: [u8; 16]) -> Decision
        requires storage { IsStorage self.now }
        requires valid { IsValid (Command.Write ra bytes) }
        ensures { IsDecision self.now (Command.Write ra bytes) result }
    {
        let (authority, _) = self.registers.get(ra);
        let i = match self.granule_index(ra, is_allowed(authority, STORE)) {
            Ok(i) => i,
            Err(trap) => return Decision::trap(trap),
        };
        let bits = from_bytes(bytes).bits;
        let tag = false;
        Decision::done(Change::Granule { i, bits, tag })
    }

    fn show(&self, rs: u8) -> Decision
        requires storage { IsStorage self.now }
        requires valid { IsValid (Command.Show rs) }
        ensures { IsDecision self.now (Command.Show rs) result }
    {
        let (word, tag) = self.registers.get(rs);
        let reply = Reply::Shown(Shown::of(word, tag));
        let change = Change::Nothing;
        Decision { reply, change }
    }
}

// The first check that fails of an access to the granule at a word's address, which is allowed so.
// Inlined, as `granule_index` is.
#[inline(always)]
fn access_fault(word: Word, tag: bool, allowed: bool) -> Option<Trap>
    ensures { result ≡ first_failed (access (word, tag) allowed) }
{
    if !tag {
        return Some(Trap::Tag);
    }
    if !allowed {
        return Some(Trap::Perm);
    }
    let address = fields(word).address;
    if !bounds(word).hold(address, GRANULE) {
        return Some(Trap::Bounds);
    }
    if !address.is_multiple_of(GRANULE) {
        return Some(Trap::Align);
    }
    None
}
