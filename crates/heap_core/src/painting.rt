//! Rows of granules painted on a board.

ghost use Rattle.std.specs.Prelude.{◌≡◌, ◌<◌, ◌≤◌, ◌+◌, ◌*◌, ◌/◌, ◌^◌, ◌==◌, ◌&&◌, length};
ghost use Rattle.granule_rows.specs.Runs.{is_within};
ghost use Rattle.heap_core.specs.Painting.{IsPainted};
ghost use Rattle.mark_board.specs.Board.{IsOf};
ghost use Rattle.tag_memory.specs.Tags.{is_set_for};

use granule_rows::range_word;
use mark_board::{Board, MarkSeat};
use tag_memory::WORD_GRANULES;

/// Paints those granules of a row that lie from `from` on and before `to`, 64 by one mark.
pub fn paint_row(row: &[u64], board: &Board, seat: &mut MarkSeat, from: usize, to: usize)
    requires board { IsOf board.now seat.old }
    requires bits { board.now.bits ≡ 64 * length row.now }
    requires limit { length row.now ≤ 2 ^ 24 }
    requires within { to ≤ 64 * length row.now }
    ensures { IsPainted (λ k. is_within from to k && is_set_for row.now k) board.now seat.old seat.new }
{
    for w in from / WORD_GRANULES..to.div_ceil(WORD_GRANULES) {
        paint_word(row, board, seat, w, from, to);
    }
}

// Paints those of one word.
fn paint_word(row: &[u64], board: &Board, seat: &mut MarkSeat, w: usize, from: usize, to: usize)
    requires board { IsOf board.now seat.old }
    requires bits { board.now.bits ≡ 64 * length row.now }
    requires limit { length row.now ≤ 2 ^ 24 }
    requires inside { w < length row.now }
    requires after { from < 64 * w + 64 }
    requires before { 64 * w < to }
    ensures { IsPainted (λ k. (k / 64 == w) && (is_within from to k && is_set_for row.now k)) board.now seat.old seat.new }
{
    let mask = row[w] & range_word(w, from, to);
    if mask != 0 {
        board.mark(seat, w, mask);
    }
}
