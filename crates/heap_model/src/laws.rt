//! The law of a heap's changes.

ghost use Rattle.std.specs.Prelude.{◌≡◌, ◌≤◌, ◌+◌, ℕ, max, true};
ghost use Rattle.cap_codec.specs.Rounding.{IsExact};
ghost use Rattle.heap_model.specs.Blocks.{is_block};
ghost use Rattle.heap_model.specs.Heap.{HeapState, IsSound};
ghost use Rattle.heap_model.specs.Place.{IsFree, IsFreeBlock, block_length, with_block};
ghost use Rattle.heap_model.specs.Quarantine.{with_epoch, with_waiting, without_epoch, without_waiting};

use cap_codec::derivation_law;

/// A free block that becomes live, a live block that waits, blocks that wait or are painted that become free, and an epoch
/// that begins keep a heap sound; and a word can hold the bounds of a block at a free place.
pub fn sound_heap_law()
    ensures live { (s : HeapState) (a length : ℕ) → IsSound s → IsFreeBlock s a length → IsSound (with_block s a length) }
    ensures place { (s : HeapState) (size a : ℕ) → IsFree s size a → IsFreeBlock s a (block_length size) }
    ensures enough { (size : ℕ) → max 1 size ≤ block_length size }
    ensures waiting { (s : HeapState) (base top : ℕ) → IsSound s → is_block s.live base top ≡ true
        → IsSound (with_waiting s base top) }
    ensures free { (s : HeapState) → IsSound s → IsSound (without_waiting s) }
    ensures begun { (s : HeapState) → IsSound s → IsSound (with_epoch s) }
    ensures ended { (s : HeapState) → IsSound s → IsSound (without_epoch s) }
    ensures exact { (s : HeapState) (size a : ℕ) → IsSound s → IsFree s size a
        → IsExact a (a + block_length size) }
{
    derivation_law();
}
