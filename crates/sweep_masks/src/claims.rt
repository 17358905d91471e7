//! Tasks that workers claim by the bits of a board.

ghost use Rattle.mark_board.specs.Bits.{Within};
ghost use Rattle.mark_board.specs.Board.{IsOf, IsSeat};
ghost use Rattle.std.specs.Prelude.{◌≡◌, ◌<◌, ◌≤◌, ◌+◌, ℕ, IfErr, IfOk, IfSome, MatchOption, OnErr};
ghost use Rattle.sweep_masks.specs.Claims.{HasAll, HasTasks, with_task};
ghost use Rattle.mark_board.specs.Bits.{has};
ghost use Rattle.sweep_masks.specs.Gather.{IsSwept};

use crate::cutting::Cutting;
use crate::sweep::SweepFault;
use crate::task::{Swept, room, swept_into};
use heap_model::Shadow;
use host_memory::Global;
use mark_board::{Board, MarkSeat};
use tag_memory::Memory;

/// Claims the next task and sweeps it: the first, from `from` on, whose bit a mark of this call is the
/// first to set. The tasks are marked one at a time, and this seat then has seen all that were tried.
/// `None`: all of them were claimed before. It errs for want of memory alone, before the first mark.
/// Callers on any threads that claim by it alone sweep each task once; it never waits for them.
pub fn sweep_next(
    alloc: Global,
    board: &Board,
    seat: &mut MarkSeat,
    memory: &Memory,
    shadow: &Shadow,
    cutting: &Cutting,
    from: u32,
) -> Result<Option<Swept>, SweepFault>
    requires board { IsOf board.now seat.old }
    requires tasks { HasTasks cutting.now memory.now board.now }
    requires from { from ≤ board.now.bits }
    ensures board { IsOf board.now seat.new }
    ensures parts { seat.new.parts ≡ seat.old.parts }
    ensures seen { Within seat.old.seen seat.new.seen }
    ensures sound { IsSeat seat.new }
    ensures swept { IfOk result (λ next. IfSome next (λ s. (from ≤ s.task) × (s.task < board.now.bits)
        × IsSwept memory.now shadow.now cutting.now s)) }
    ensures claims { IfOk result (λ next. MatchOption next
        ((seat.new.mine ≡ seat.old.mine) × HasAll seat.new.seen from board.now.bits)
        (λ s. (has seat.old.mine s.task ≡ 0) × (seat.new.mine ≡ with_task seat.old.mine s.task)
        × HasAll seat.new.seen from (s.task + 1))) }
    ensures err { IfErr result (λ fault. fault ≡ SweepFault.Memory) }
    ensures unchanged { OnErr result (seat.new ≡ seat.old) }
{
    // Called for what it ensures alone: the seat is sound.
    let _parts = seat.parts();
    let room = room(alloc, cutting, memory.pages())?;
    for task in from..board.bits() {
        if board.mark(seat, (task / u64::BITS) as usize, 1 << (task % u64::BITS)) != 0 {
            return Ok(Some(swept_into(room, memory, shadow, cutting, task)));
        }
    }
    Ok(None)
}
