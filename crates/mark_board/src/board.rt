//! A row of bits, all 0 at first, and what threads do with it through a `&`.

ghost use Rattle.std.specs.Prelude.{◌≡◌, ◌↔◌, ◌+◌, ◌<◌, ◌≤◌, ◌^◌, ℕ, IfOk, IsOkUnless, bit_or, false, length, true};
ghost use Rattle.std.specs.Int.{bit_at};
ghost use Rattle.std.specs.Slots.{IsFull, slots_items, slots_len};
ghost use Rattle.mark_board.specs.Bits.{Apart, LiesOnBoard, bit, with_bits, union, bits_without};
ghost use Rattle.mark_board.specs.Board as spec;
ghost use Rattle.mark_board.specs.Board.{HasAllSeen, IsBoard, IsMaskOf, IsOf, IsSeat, are_parts, first_seat, is_board_size, no_bits, word_count};

use crate::fault::BoardFault;
use crate::rule::{Both, Cut, Marks, Settles, Shape, View};
use crate::seat::MarkSeat;
use atomic_table::{Closed, Table};
use host_memory::Global;
use std::marker::Model;

// The most bits of a board.
const MOST_BITS: u32 = 262_144;

// The most parts of all seats of a board.
const MOST_PARTS: u32 = 64;

/// A row of bits that threads set through a `&`, in words of 64. Each bit is set first by exactly one
/// mark of one seat, and stays set.
#[derive(Drop)]
pub struct Board {
    table: Table<(), View, Shape, Marks, Global>,
    bits: u32,
}

impl Model for Board {
    ghost use Rattle.std.specs.Prelude.{◌≡◌, true};
    ghost use Rattle.mark_board.specs.Board.{BoardState, are_parts, is_board_size, words_for};
    ghost use Rattle.mark_board.specs.Codes.{board_code};
    ghost use Rattle.mark_board.specs.Identity.{board_id};

    ghost Value = { BoardState };

    ghost coded = { board_code };

    ghost view = { λ b. record { identity = board_id b.table.shared.table_id; bits = b.table.shared.key.bits; parts = b.table.shared.key.parts } };

    ghost invariant = { λ b. (b.bits ≡ b.table.shared.key.bits) × (b.table.shared.table_id.words ≡ words_for b.bits) × (b.table.shared.table_id.slots ≡ 0) × (is_board_size b.bits ≡ true) × (are_parts b.table.shared.key.parts ≡ true) };
}

impl Board {
    /// A board of `bits` bits, none of them set, and the seat that has all `parts` parts. It errs with
    /// `BadSize` first, then `BadParts`, and `Memory` last.
    ///
    /// ```rust
    /// use mark_board::Board;
    ///
    /// let (board, seat) = Board::new(alloc, 8, 2)?;
    /// let (mut first, mut second) = board.split(seat);
    /// assert_eq!(rt; board.mark(&mut first, 0, 0b011), 0b011);
    /// // Bit 1 was set before.
    /// assert_eq!(rt; board.mark(&mut second, 0, 0b110), 0b100);
    /// let seat = board.join(first, second);
    /// let words = board.finish(alloc, seat)?;
    /// assert_eq!(rt; words[0], 0b111);
    /// ```
    pub fn new(alloc: Global, bits: u32, parts: u32) -> Result<(Board, MarkSeat), BoardFault>
        ensures bad_size { (result ≡ Err BoardFault.BadSize) ↔ (is_board_size bits ≡ false) }
        ensures bad_parts { (result ≡ Err BoardFault.BadParts)
            ↔ ((is_board_size bits ≡ true) × (are_parts parts ≡ false)) }
        ensures memory { is_board_size bits ≡ true → are_parts parts ≡ true
            → IsOkUnless result BoardFault.Memory }
        ensures board { IfOk result (λ made. (made.0.bits ≡ bits) × (made.0.parts ≡ parts)) }
        ensures seat { IfOk result (λ made. made.1 ≡ first_seat made.0) }
        ensures sound { IfOk result (λ made. IsSeat made.1) }
    {
        if !(1..=MOST_BITS).contains(&bits) {
            return Err(BoardFault::BadSize);
        }
        if !(1..=MOST_PARTS).contains(&parts) {
            return Err(BoardFault::BadParts);
        }
        let blank = vec![in alloc; 0; words_for(bits)]?;
        let (table, seat) = Table::of_words(alloc, blank.as_slice(), &Shape { bits, parts })?;
        Ok((Board { table, bits }, MarkSeat { seat, parts }))
    }

    /// Tells what holds of every board. Nothing is done.
    pub fn invariant(&self)
        ensures { IsBoard self.now }
    {
        let _ = &self.table;
    }

    /// How many words the bits take.
    pub fn words(&self) -> usize
        ensures { result ≡ word_count self.now }
    {
        words_for(self.bits)
    }

    /// How many bits there are.
    pub fn bits(&self) -> u32
        ensures { result ≡ self.now.bits }
    {
        self.bits
    }

    /// Sets the bits of the mask in one word, in one atomic step, and answers those that it set first. Bit
    /// `j` of the mask is bit `64 * word + j` of the board.
    pub fn mark(&self, seat: &mut MarkSeat, word: usize, mask: u64) -> u64
        requires board { IsOf self.now seat.old }
        requires word { word < word_count self.now }
        requires mask { IsMaskOf self.now word mask }
        ensures board { IsOf self.now seat.new }
        ensures parts { seat.new.parts ≡ seat.old.parts }
        ensures fresh { (j : ℕ) → (bit_at result j + bit seat.old.mine word j ≤ 1)
            × (bit_at result j + bit seat.old.seen word j ≤ 1) }
        ensures found { (found : ℕ) × (found < 2 ^ 64) × HasAllSeen seat.old word found
            × (result ≡ bits_without mask found)
            × (seat.new.seen ≡ with_bits seat.old.seen word (bit_or found mask)) }
        ensures mine { seat.new.mine ≡ with_bits seat.old.mine word result }
        ensures sound { IsSeat seat.new }
    {
        let found = self
            .table
            .shared
            .fetch_or::<Marks>(&mut seat.seat, word, mask);
        mask & !found
    }

    /// One word as it is, in one atomic step. It has all that the seat had seen there.
    pub fn read(&self, seat: &mut MarkSeat, word: usize) -> u64
        requires board { IsOf self.now seat.old }
        requires word { word < word_count self.now }
        ensures board { IsOf self.now seat.new }
        ensures parts { seat.new.parts ≡ seat.old.parts }
        ensures all_seen { HasAllSeen seat.old word result }
        ensures mine { seat.new.mine ≡ seat.old.mine }
        ensures seen { seat.new.seen ≡ with_bits seat.old.seen word result }
        ensures sound { IsSeat seat.new }
    {
        self.table.shared.fetch_or::<Marks>(&mut seat.seat, word, 0)
    }

    /// Two seats of one. The first keeps all parts but one, and what it set first; the second has that
    /// part. Both have seen what the one had.
    pub fn split(&self, seat: MarkSeat) -> (MarkSeat, MarkSeat)
        requires board { IsOf self.now seat }
        requires parts { 1 < seat.parts }
        ensures board { IsOf self.now result.0 × IsOf self.now result.1 }
        ensures parts { (result.0.parts + 1 ≡ seat.parts) × (result.1.parts ≡ 1) }
        ensures mine { (result.0.mine ≡ seat.mine) × (result.1.mine ≡ no_bits self.now) }
        ensures seen { (result.0.seen ≡ seat.seen) × (result.1.seen ≡ seat.seen) }
        ensures sound { IsSeat result.0 × IsSeat result.1 }
    {
        let MarkSeat { mut seat, parts } = seat;
        let other = self.table.shared.split_seat::<Cut>(&mut seat);
        let first = MarkSeat {
            seat,
            parts: parts - 1,
        };
        let second = MarkSeat {
            seat: other,
            parts: 1,
        };
        (first, second)
    }

    /// One seat of two, which has what both had. No bit was set first by both.
    pub fn join(&self, a: MarkSeat, b: MarkSeat) -> MarkSeat
        requires board { IsOf self.now a × IsOf self.now b }
        ensures board { IsOf self.now result }
        ensures parts { result.parts ≡ a.parts + b.parts }
        ensures apart { Apart a.mine b.mine }
        ensures mine { result.mine ≡ union a.mine b.mine }
        ensures seen { result.seen ≡ union a.seen b.seen }
        ensures sound { IsSeat result }
    {
        let MarkSeat { mut seat, parts } = a;
        let MarkSeat {
            seat: other,
            parts: more,
        } = b;
        let shared = &self.table.shared;
        shared.join_seat::<Both>(&mut seat, other);
        shared.load::<Settles>(&mut seat, 0);
        MarkSeat {
            seat,
            parts: parts + more,
        }
    }

    /// The words of the bits that are set, once a seat has all parts: just what its marks set first, and
    /// just what it has seen. Where memory is refused, board and seat are given up.
    pub fn finish(self, alloc: Global, seat: MarkSeat) -> Result<Vec<u64, Global>, BoardFault>
        requires board { IsOf self seat }
        requires parts { seat.parts ≡ self.parts }
        ensures memory { IsOkUnless result BoardFault.Memory }
        ensures mine { IfOk result (λ words. words.items ≡ seat.mine) }
        ensures seen { IfOk result (λ words. words.items ≡ seat.seen) }
        ensures inside { IfOk result (λ words. LiesOnBoard self.bits words.items) }
    {
        let row = vec![in alloc; 0; self.words()]?;
        let closed = self.close_table(seat);
        let found = copied(&closed, row);
        closed.free();
        Ok(found)
    }

    // The words at the end, with all that is needed to give them back.
    fn close_table(self, seat: MarkSeat) -> Closed<(), Global>
        requires board { IsOf self seat }
        requires parts { seat.parts ≡ self.parts }
        ensures width { slots_len result.words ≡ word_count self }
        ensures empty { slots_len result.slots ≡ 0 }
        ensures full { IsFull result.words }
        ensures mine { slots_items result.words ≡ seat.mine }
        ensures seen { slots_items result.words ≡ seat.seen }
    {
        let Board { table, bits: _ } = self;
        let MarkSeat { seat, parts: _ } = seat;
        table.close_with(seat)
    }
}

// How many words so many bits take.
fn words_for(bits: u32) -> usize
    ensures { result ≡ spec.words_for bits }
{
    bits.div_ceil(u64::BITS) as usize
}

// The words of a closed table, in a row of as many.
fn copied(closed: &Closed<(), Global>, mut row: Vec<u64, Global>) -> Vec<u64, Global>
    requires width { length row.items ≡ slots_len closed.now.words }
    requires full { IsFull closed.now.words }
    ensures { result.items ≡ slots_items closed.now.words }
{
    for i in 0..row.len() {
        row[i] = closed.word(i);
    }
    row
}
