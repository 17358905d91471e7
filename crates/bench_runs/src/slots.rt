//! A program that keeps each of its pointers in a slot of a table, as compiled programs keep them in memory: register 31
//! points to the table, the first block of the heap.

use crate::draws::Draws;
use crate::text::{BASE, Text};
use std::alloc::{AllocError, Global};

/// How such a program gives blocks back.
#[derive(Clone, Copy, PartialEq, Eq)]
pub enum Policy {
    /// A sweep where a quarter of the live bytes waits.
    Sweeps,
    /// Then an epoch, which ends some calls later.
    Epochs,
    /// Only as it is told to.
    Asked,
}

/// The slots: the bytes of the block that each points to, or 0.
#[derive(Drop)]
pub struct Slots {
    sizes: Vec<u64>,
    live: u64,
    held: u64,
    // How many calls from now on the open epoch ends, or 0.
    ends_in: u64,
    policy: Policy,
}

impl Slots {
    /// Empty slots, at least one; adds the line that makes the table.
    pub fn new(
        alloc: Global,
        text: &mut Text,
        count: usize,
        policy: Policy,
    ) -> Result<Slots, AllocError> {
        let sizes = vec![in alloc; 0; count.max(1)]?;
        text.put("malloc c31 ")?;
        text.number((sizes.len() as u64).wrapping_mul(16))?;
        text.put("\n")?;
        Ok(Slots {
            sizes,
            live: 0,
            held: 0,
            ends_in: 0,
            policy,
        })
    }

    /// A slot at random.
    pub fn any(&self, draws: &mut Draws) -> usize {
        let count = self.sizes.len().max(1) as u64;
        draws.below(count) as usize
    }

    /// How many slots there are.
    pub fn count(&self) -> usize {
        self.sizes.len()
    }

    // Points register 2 to a slot.
    fn go_to(&self, text: &mut Text, slot: usize) -> Result<(), AllocError> {
        text.put("setaddr c2 c31 ")?;
        text.address(BASE.wrapping_add((slot as u64).wrapping_mul(16)))?;
        text.put("\n")
    }

    /// Asks for a block, and keeps its pointer in the slot.
    pub fn fill(&mut self, text: &mut Text, slot: usize, size: u64) -> Result<(), AllocError> {
        text.put("malloc c1 ")?;
        text.number(size)?;
        text.put("\n")?;
        self.go_to(text, slot)?;
        text.put("storecap c2 c1\n")?;
        if let Some(place) = self.sizes.get_mut(slot) {
            *place = size.max(1);
            self.live = self.live.wrapping_add(size);
        }
        Ok(())
    }

    /// Frees the block that the slot points to. The pointer stays there.
    pub fn empty(&mut self, text: &mut Text, slot: usize) -> Result<(), AllocError> {
        self.go_to(text, slot)?;
        text.put("loadcap c1 c2\nfree c1\n")?;
        if let Some(place) = self.sizes.get_mut(slot) {
            self.live = self.live.saturating_sub(*place);
            self.held = self.held.wrapping_add(*place);
            *place = 0;
        }
        self.give_back(text)
    }

    /// Whether the slot points to a block.
    pub fn is_full(&self, slot: usize) -> bool {
        self.sizes.get(slot).is_some_and(|size| *size != 0)
    }

    // Sweeps, or begins or ends an epoch, as the policy says.
    fn give_back(&mut self, text: &mut Text) -> Result<(), AllocError> {
        if self.ends_in > 0 {
            self.ends_in -= 1;
            if self.ends_in == 0 {
                return text.put("end\n");
            }
            return Ok(());
        }
        if self.policy == Policy::Asked || self.held / 4 <= self.live / 16 {
            return Ok(());
        }
        self.held = 0;
        if self.policy == Policy::Epochs {
            self.ends_in = 20;
            return text.put("begin\n");
        }
        text.put("sweep\n")
    }

    /// One call of the program: the slot's block is freed, or the empty slot gets one.
    pub fn turn(
        &mut self,
        text: &mut Text,
        draws: &mut Draws,
        slot: usize,
    ) -> Result<(), AllocError> {
        if self.is_full(slot) {
            return self.empty(text, slot);
        }
        let size = draws.size();
        self.fill(text, slot, size)
    }
}
