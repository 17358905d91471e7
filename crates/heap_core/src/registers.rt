//! Registers whose tags the next pass takes.

ghost use Rattle.heap_model.specs.Heap.{due};
ghost use Rattle.heap_model.specs.Sweep.{takes_tag};
ghost use Rattle.std.specs.Prelude.{◌≡◌, ◌<◌, ℕ};
ghost use Rattle.tag_memory.specs.Cells.{register_at, register_count};
ghost use Rattle.tag_memory.specs.Tags.{is_set};

use crate::heap::Heap;
use cap_codec::bounds;
use tag_memory::{REGISTERS, Registers};

// Whether a register is tagged, and the base of its word lies in a block that is due.
fn is_register_due(registers: &Registers, heap: &Heap, r: u8) -> bool
    requires { r < register_count }
    ensures { result ≡ takes_tag (due heap.now) (register_at registers.now r) }
{
    let (word, tag) = registers.get(r);
    if !tag {
        return false;
    }
    heap.is_due(bounds(word).base)
}

/// Bit `r` is 1 exactly where register `r` is tagged and the base of its word lies in a block of the heap that is due:
/// what `swept_registers` of `sweep_masks` tells by the heap's shadow, without making one.
pub fn due_registers(registers: &Registers, heap: &Heap) -> u32
    ensures { (r : ℕ) → r < register_count → is_set result r ≡ takes_tag (due heap.now) (register_at registers.now r) }
{
    let mut mask = 0;
    for r in 0..REGISTERS {
        if is_register_due(registers, heap, r) {
            mask |= 1 << r;
        }
    }
    mask
}
