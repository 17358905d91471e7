//! What a command comes to: it is decided first, in a storage that stands still, and then made.

ghost use Rattle.std.specs.Prelude.{◌≡◌, IsOk};
ghost use Rattle.machine_storage.specs.Decision.{CanMake, dirty_left, left};
ghost use Rattle.machine_storage.specs.Storage.{IsStorage, state_of};

use crate::fault::MachineFault;
use crate::storage::Storage;
use crate::storage::revocation::RevokedTags;
use cap_codec::Word;
use heap_reply::{Reply, Trap};
use host_memory::Global;

/// The reply of a command that has one, and what it changes.
#[derive(Drop)]
pub struct Decision {
    pub reply: Reply,
    pub change: Change,
}

impl Decision {
    /// A command is done, with this change.
    #[inline(always)]
    pub(super) fn done(change: Change) -> Decision
        ensures { result ≡ record { reply = Reply.Done; change = change } }
    {
        let reply = Reply::Done;
        Decision { reply, change }
    }

    /// A check fails, and nothing is changed.
    #[inline(always)]
    pub(super) fn trap(trap: Trap) -> Decision
        ensures { result ≡ record { reply = Reply.Trap trap; change = Change.Nothing } }
    {
        let reply = Reply::Trap(trap);
        let change = Change::Nothing;
        Decision { reply, change }
    }
}

/// What a command changes.
#[derive(Drop)]
pub enum Change {
    /// Nothing.
    Nothing,
    /// A register gets this word and tag.
    Register { r: u8, word: Word, tag: bool },
    /// The granule of this index gets these bits and tag.
    Granule { i: usize, bits: u128, tag: bool },
    /// The live block from `base` to `top` waits.
    Waits { base: u64, top: u128 },
    /// An epoch begins in which no block is painted.
    BeginsEmpty,
    /// An epoch begins, and memory loses the tags of these masks, a bit for each granule.
    Begins(Vec<u64, Global>),
    /// The blocks that are due are free, and the registers lose the tags of this mask, a bit for each.
    Registers(u32),
    /// These blocks are free, and memory and registers lose these tags.
    Revokes(RevokedTags),
}

impl Storage {
    // Makes room for what a pass gives back, before anything changes.
    #[inline(always)]
    pub(super) fn prepare(&mut self) -> Result<(), MachineFault>
        ensures ok { IsOk result }
        ensures unchanged { self.new ≡ self.old }
    {
        self.heap.prepare().map_err(|_| MachineFault::Memory)
    }

    // Makes what was decided, and answers its reply. Inlined, so that of each command no more is left than its own change.
    #[inline(always)]
    pub(super) fn make(&mut self, decision: Decision) -> Reply
        requires storage { IsStorage self.old }
        requires can { CanMake self.old decision.change }
        ensures reply { result ≡ decision.reply }
        ensures state { state_of self.new ≡ left self.old decision.change }
        ensures base { self.new.memory.base ≡ self.new.heap.base }
        ensures dirty { self.new.memory.dirty ≡ dirty_left self.old decision.change }
    {
        let Decision { reply, change } = decision;
        match change {
            Change::Nothing => {}
            Change::Register { r, word, tag } => self.registers.set(r, word, tag),
            Change::Granule { i, bits, tag } => self.memory.put(i, bits, tag),
            Change::Waits { base, top } => {
                self.heap.release(base, top).unwrap();
            }
            Change::BeginsEmpty => self.begin_epoch(),
            Change::Begins(masks) => {
                self.memory.clear_tags(&masks);
                self.begin_epoch();
            }
            Change::Registers(mask) => {
                self.registers.clear_tags(mask);
                self.heap.give_back();
            }
            Change::Revokes(tags) => {
                tags.apply(&mut self.memory, &mut self.registers);
                self.heap.give_back();
            }
        }
        reply
    }
}
