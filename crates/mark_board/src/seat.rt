//! What a thread touches a board with.

ghost use Rattle.std.specs.Prelude.{◌≡◌};
ghost use Rattle.mark_board.specs.Board.{IsSeat};

use crate::rule::View;
use atomic_table::Seat;
use std::marker::Model;

/// What a thread needs to touch a board: a share of the board's parts, the bits that its own marks set
/// first, and the bits that it has seen set. Only the number of parts is kept at run time.
#[derive(Drop)]
pub struct MarkSeat {
    pub(crate) seat: Seat<(), View>,
    pub(crate) parts: u32,
}

impl Model for MarkSeat {
    ghost use Rattle.mark_board.specs.Board.{SeatState};
    ghost use Rattle.mark_board.specs.Codes.{seat_code};
    ghost use Rattle.mark_board.specs.Identity.{board_id};
    ghost use Rattle.mark_board.specs.Rule.{IsKept, seat_of};

    ghost Value = { SeatState };

    ghost coded = { seat_code };

    ghost view = { λ s. seat_of (board_id s.seat.table_id) s.seat.me.0 };

    ghost invariant = { λ s. IsKept s.parts (board_id s.seat.table_id) s.seat.me };
}

impl MarkSeat {
    /// The share of the board's parts.
    pub fn parts(&self) -> u32
        ensures value { result ≡ self.now.parts }
        ensures sound { IsSeat self.now }
    {
        self.parts
    }
}
