//! The shadow painted by several threads, on a board with a bit for each granule.

ghost use Rattle.std.specs.Prelude.{◌≡◌, ◌≤◌, ◌*◌, ◌^◌, length};
ghost use Rattle.heap_model.specs.Heap.{due};
ghost use Rattle.heap_core.specs.Painting.{IsPainted, is_in_due};
ghost use Rattle.mark_board.specs.Board.{IsOf};

use crate::heap::Heap;
use mark_board::{Board, MarkSeat};

impl Heap {
    /// How many granules of 16 bytes the heap has.
    pub fn granules(&self) -> usize
        ensures { 16 * result ≡ self.now.size }
    {
        self.table.granules()
    }

    /// How many blocks are due: in an open epoch the painted ones, and else those that wait.
    pub fn held_blocks(&self) -> usize
        ensures count { result ≡ length (due self.now) }
        // A block has a granule at least.
        ensures limit { result ≤ 2 ^ 18 }
    {
        self.table.due_count()
    }

    /// Marks the granules of the blocks that are due, number `first` to `last - 1` by rising start, on a board
    /// that has a bit for each granule of the heap: afterwards the seat has seen them all, and has set no
    /// others first. A mark takes 64 granules at once, and shares that overlap do no harm (Filardo et al. 2020,
    /// Cornucopia: the shadow bitmap is painted by several threads).
    pub fn paint(&self, board: &Board, seat: &mut MarkSeat, first: usize, last: usize)
        requires board { IsOf board.now seat.old }
        requires granules { 16 * board.now.bits ≡ self.now.size }
        requires order { first ≤ last }
        requires blocks { last ≤ length (due self.now) }
        ensures { IsPainted (is_in_due self.now first last) board.now seat.old seat.new }
    {
        let from = self.table.due_start(first);
        let to = self.table.due_start(last);
        self.table.paint_due(board, seat, from, to);
    }
}
