//! What a pass over memory finds, whoever makes it.

ghost use Rattle.std.specs.Prelude.{◌≡◌, IfErr, IfOk};
ghost use Rattle.heap_model.specs.Heap.{due};
ghost use Rattle.sweep_masks.specs.Masks.{TakeTags};
ghost use Rattle.machine_storage.specs.Storage.{IsStorage};
ghost use Rattle.machine_storage.specs.Passes.{FindsTags, MayPass};

use crate::fault::MachineFault;
use crate::storage::Storage;
use host_memory::Global;

/// What a pass finds, before anything is taken.
#[derive(Drop)]
pub struct Found {
    // A bit for each granule whose tag the pass takes.
    pub masks: Vec<u64, Global>,
}

impl Storage {
    // The masks of the tags of memory that a pass takes.
    pub(super) fn memory_masks<P: Fn(&Storage) -> Option<Found>>(
        &self,
        pass: &P,
    ) -> Result<Vec<u64, Global>, MachineFault>
        requires callable { MayPass (P.pre pass.now) self.now }
        requires finds { FindsTags (P.post pass.now) }
        requires storage { IsStorage self.now }
        ensures memory { IfErr result (λ fault. fault ≡ MachineFault.Memory) }
        ensures masks { IfOk result (λ masks. TakeTags self.now.memory (due self.now.heap) masks.items) }
    {
        let Some(found) = pass(self) else {
            return Err(MachineFault::Memory);
        };
        Ok(found.masks)
    }
}
