//! What a revoker's command comes to.

ghost use Rattle.std.specs.Prelude.{◌≡◌};
ghost use Rattle.machine_storage.specs.RevokerDecision.{CanRevoke, revoker_dirty_left, revoker_left};
ghost use Rattle.machine_storage.specs.Storage.{IsStorage, state_of};

use crate::storage::Storage;
use cap_codec::Word;
use revoker_steps::{RevokerReply, RevokerTrap};
use tag_memory::PAGE_WORDS;

/// The reply to a revoker's command, and what it changes.
#[derive(Drop)]
pub struct RevokerDecision {
    pub reply: RevokerReply,
    pub change: RevokerChange,
}

impl RevokerDecision {
    /// A check fails, and nothing is changed.
    pub(super) fn trap(trap: RevokerTrap) -> RevokerDecision
        ensures { result ≡ record { reply = RevokerReply.Trap trap; change = RevokerChange.Nothing } }
    {
        let reply = RevokerReply::Trap(trap);
        let change = RevokerChange::Nothing;
        RevokerDecision { reply, change }
    }

    /// No tag is taken.
    pub(super) fn takes_none() -> RevokerDecision
        ensures { result ≡ record { reply = RevokerReply.Cleared 0; change = RevokerChange.Nothing } }
    {
        let reply = RevokerReply::Cleared { cleared: 0 };
        let change = RevokerChange::Nothing;
        RevokerDecision { reply, change }
    }

    /// One tag is taken by this change.
    pub(super) fn takes_one(change: RevokerChange) -> RevokerDecision
        ensures { result ≡ record { reply = RevokerReply.Cleared 1; change = change } }
    {
        let reply = RevokerReply::Cleared { cleared: 1 };
        RevokerDecision { reply, change }
    }
}

/// What a revoker's command changes.
#[derive(Drop)]
pub enum RevokerChange {
    /// Nothing.
    Nothing,
    /// The blocks that wait are painted, and every page is dirty.
    Paints,
    /// A page loses the tags of these masks, a bit for each of its granules, and is clean.
    Visits { page: u32, masks: [u64; PAGE_WORDS] },
    /// The granule of this index loses its tag, and keeps these bits.
    Granule { i: usize, bits: u128 },
    /// A register loses its tag, and keeps this word.
    Register { r: u8, word: Word },
    /// The painted blocks are free.
    Releases,
}

impl Storage {
    // Makes what was decided, and answers its reply.
    pub(super) fn make_revoker(&mut self, decision: RevokerDecision) -> RevokerReply
        requires storage { IsStorage self.old }
        requires can { CanRevoke self.old decision.change }
        ensures reply { result ≡ decision.reply }
        ensures state { state_of self.new ≡ revoker_left self.old decision.change }
        ensures base { self.new.memory.base ≡ self.new.heap.base }
        ensures dirty { self.new.memory.dirty ≡ revoker_dirty_left self.old decision.change }
    {
        let RevokerDecision { reply, change } = decision;
        match change {
            RevokerChange::Nothing => {}
            RevokerChange::Paints => {
                self.memory.mark_dirty();
                self.heap.begin_epoch();
            }
            RevokerChange::Visits { page, masks } => {
                self.memory.clear_page_tags(page, &masks);
                self.memory.mark_page_clean(page);
            }
            RevokerChange::Granule { i, bits } => self.memory.put(i, bits, false),
            RevokerChange::Register { r, word } => self.registers.set(r, word, false),
            RevokerChange::Releases => {
                self.heap.give_back();
            }
        }
        reply
    }
}
