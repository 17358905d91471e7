//! The block in which an address lies, and the one that starts at a granule.

ghost use Rattle.std.specs.Prelude.{◌≡◌, ◌<◌, ◌+◌, ◌*◌, ◌==◌, All, IfSome, None, false};
ghost use Rattle.heap_model.specs.Blocks.{start_of};
ghost use Rattle.heap_model.specs.Found.{IsFound, IsInNoBlock, blocks_in};

use crate::heap::Heap;
use heap_model::{Block, Kind};
use tag_memory::GRANULE;

impl Heap {
    /// The live or held block in which an address lies.
    pub fn block_of(&self, address: u64) -> Option<(Block, Kind)>
        ensures some { IfSome result (λ found. IsFound self.now address found.0.base found.0.top found.1) }
        ensures none { result ≡ None → IsInNoBlock self.now address }
    {
        if address < self.base {
            return None;
        }
        let granule = ((address - self.base) / GRANULE) as usize;
        if granule >= self.table.granules() {
            return None;
        }
        let start = self.table.reaching_start(granule);
        if start + self.table.length_at(start) as usize <= granule {
            return None;
        }
        let block = self.table.block_from(self.base, start);
        let kind = self.table.kind_at(&self.late, self.is_open, start);
        Some((block, kind))
    }

    /// The live or held block that starts at a granule, counted from the heap's base.
    // Inlined: at most granules none does, and little is done.
    #[inline(always)]
    pub fn block_starting_at(&self, granule: usize) -> Option<(Block, Kind)>
        requires inside { 16 * granule < self.now.size }
        ensures start { IfSome result (λ found. found.0.base ≡ self.now.base + 16 * granule) }
        ensures some { IfSome result (λ found. IsFound self.now (self.now.base + 16 * granule) found.0.base found.0.top found.1) }
        ensures none { result ≡ None → (kind : Kind) → All (λ block. (start_of block == self.now.base + 16 * granule) ≡ false) (blocks_in self.now kind) }
    {
        if self.table.length_at(granule) == 0 {
            return None;
        }
        let block = self.table.block_from(self.base, granule);
        let kind = self.table.kind_at(&self.late, self.is_open, granule);
        Some((block, kind))
    }
}
