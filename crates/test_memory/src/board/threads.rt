//! Threads that mark one board at a time.

ghost use Rattle.std.specs.Prelude.{◌≡◌, ◌+◌, ◌<◌, ℕ};
ghost use Rattle.mark_board.specs.Board.{IsMaskOf, IsOf};

use mark_board::{Board, MarkSeat};
use std::hint::spin_loop;
use std::process::Abort;
use std::sync::atomic::AtomicU64;
use std::sync::atomic::Ordering::SeqCst;
use std::thread;
use std::thread::Threads;

// How often each test is run.
const RUNS: u32 = 100;

// How often four threads mark all words in one order besides.
const ROUNDS: u32 = 5_000;

const WORDS: usize = 64;

const ALL: u64 = u64::MAX;

// How many turns a thread waits for another; after every eighth of them others may run.
const TURNS: u32 = 100_000_000;

// An order in which a thread goes through all words: from one on, by steps of an odd number.
#[derive(Clone, Copy)]
struct Order {
    first: usize,
    step: usize,
}

const RISING: Order = Order { first: 0, step: 1 };

const FALLING: Order = Order {
    first: 63,
    step: 63,
};

const FROM_THE_MIDDLE: Order = Order { first: 32, step: 1 };

const IN_JUMPS: Order = Order { first: 5, step: 37 };

// Where four threads wait for each other, so that they begin at the same time.
#[derive(Drop)]
struct Start {
    come: AtomicU64,
}

impl Start {
    fn new() -> Start {
        Start {
            come: AtomicU64::new(0),
        }
    }

    // Where the others are late, it doesn't wait for long: what is seen is right then too.
    fn wait(&self) {
        let _ = self.come.fetch_add(1, SeqCst);
        for _ in 0..10_000u32 {
            if self.come.load(SeqCst) >= 4 {
                return;
            }
            spin_loop();
        }
    }
}

// What a thread gives back: its seat, and what each word answered.
#[derive(Drop)]
struct Marked {
    seat: MarkSeat,
    answers: [u64; WORDS],
}

// Marks all bits of a board of 4,096, from the start on.
fn mark_all(board: &Board, start: &Start, mut seat: MarkSeat, order: Order) -> Marked
    requires board { IsOf board.now seat }
    requires bits { board.now.bits ≡ 4096 }
    ensures board { IsOf board.entry.now result.seat }
    ensures parts { result.seat.parts ≡ seat.parts }
{
    start.wait();
    let mut answers = [0; WORDS];
    let mut word = order.first % WORDS;
    for _ in 0..WORDS {
        answers[word] = board.mark(&mut seat, word, ALL);
        word = (word + order.step % WORDS) % WORDS;
    }
    Marked { seat, answers }
}

// Two threads mark all bits.
fn mark_by_two<R: Threads + Sync>(
    rt: &R,
    board: &Board,
    start: &Start,
    seats: (MarkSeat, MarkSeat),
    orders: (Order, Order),
) -> (Marked, Marked)
    requires board { IsOf board.now seats.0 × IsOf board.now seats.1 }
    requires bits { board.now.bits ≡ 4096 }
    ensures board { IsOf board.entry.now result.0.seat × IsOf board.entry.now result.1.seat }
    ensures parts { (result.0.seat.parts ≡ seats.0.parts) × (result.1.seat.parts ≡ seats.1.parts) }
{
    let (first, second) = seats;
    thread::join(
        rt,
        move || mark_all(board, start, first, orders.0),
        move || mark_all(board, start, second, orders.1),
    )
}

// Each bit of each word is in exactly one of the four rows; and as each thread marks all bits of a word at once, one
// has all of them.
fn each_bit_is_in_one(rt: &impl Abort, rows: [&[u64; WORDS]; 4]) {
    for word in 0..WORDS {
        let [a, b, c, d] = rows.map(|row| row[word]);
        let count = a.count_ones() + b.count_ones() + c.count_ones() + d.count_ones();
        assert_eq!(rt; (count, a | b | c | d), (64, ALL), "word {word}");
        for answer in [a, b, c, d] {
            assert!(rt; answer == 0 || answer == ALL, "word {word}: {answer:x}");
        }
    }
}

// The orders of four threads. In one order they come to a word at the same time, round after round.
fn orders_of(round: u32) -> [Order; 4] {
    if round < RUNS {
        [RISING, FALLING, FROM_THE_MIDDLE, IN_JUMPS]
    } else {
        [RISING; 4]
    }
}

#[test]
fn each_bit_is_set_first_by_one_of_four(rt: HostRuntime) {
    for round in 0..RUNS + ROUNDS {
        let (board, seat) = Board::new(rt.alloc(), 4096, 4).expect(&rt, "a board");
        let (seat, second) = board.split(seat);
        let (seat, third) = board.split(seat);
        let (first, fourth) = board.split(seat);
        let [one, two, three, four] = orders_of(round);
        let start = Start::new();
        let shared = &board;
        let begin = &start;
        let ((a, b), (c, d)) = thread::join(
            &rt,
            || mark_by_two(&rt, shared, begin, (first, second), (one, two)),
            || mark_by_two(&rt, shared, begin, (third, fourth), (three, four)),
        );
        each_bit_is_in_one(&rt, [&a.answers, &b.answers, &c.answers, &d.answers]);
        let seat = board.join(board.join(a.seat, b.seat), board.join(c.seat, d.seat));
        let words = board.finish(rt.alloc(), seat).expect(&rt, "memory");
        assert_eq!(rt; words.as_slice(), [ALL; WORDS].as_slice());
    }
}

// Marks a bit of a board of one word, and reads until it sees another. Whether it did.
fn meet(board: &Board, mut seat: MarkSeat, own: u64, other: u64) -> (MarkSeat, bool)
    requires board { IsOf board.now seat }
    requires bits { 0 < board.now.bits }
    requires mask { IsMaskOf board.now 0 own }
    ensures board { IsOf board.entry.now result.0 }
    ensures parts { result.0.parts ≡ seat.parts }
{
    board.mark(&mut seat, 0, own);
    for turn in 0..TURNS {
        if board.read(&mut seat, 0) & other != 0 {
            return (seat, true);
        }
        if turn % 8 == 0 {
            thread::yield_now();
        }
    }
    (seat, false)
}

#[test]
fn two_wait_for_each_others_bit(rt: HostRuntime) {
    for _ in 0..RUNS {
        let (board, seat) = Board::new(rt.alloc(), 64, 2).expect(&rt, "a board");
        let (a, b) = board.split(seat);
        let shared = &board;
        let ((a, a_saw), (b, b_saw)) = thread::join(
            &rt,
            move || meet(shared, a, 1, 2),
            move || meet(shared, b, 2, 1),
        );
        assert!(rt; a_saw && b_saw);
        let seat = board.join(a, b);
        let words = board.finish(rt.alloc(), seat).expect(&rt, "memory");
        assert_eq!(rt; words.as_slice(), [3].as_slice());
    }
}
