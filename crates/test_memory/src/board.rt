//! Boards that are refused, and boards that one thread uses.

use mark_board::{Board, BoardFault};
use std::process::Abort;

mod threads;

// Each number of bits and of parts with the fault that it gives, if any.
const BOARDS: [(u32, u32, Option<BoardFault>); 8] = [
    (1, 1, None),
    (262_144, 64, None),
    (0, 2, Some(BoardFault::BadSize)),
    (262_145, 1, Some(BoardFault::BadSize)),
    (0, 0, Some(BoardFault::BadSize)),
    (64, 0, Some(BoardFault::BadParts)),
    (64, 65, Some(BoardFault::BadParts)),
    (262_144, 65, Some(BoardFault::BadParts)),
];

#[test]
fn faults_are_told(rt: HostRuntime) {
    for (bits, parts, fault) in BOARDS {
        let made = Board::new(rt.alloc(), bits, parts);
        assert_eq!(rt; made.err(), fault, "{bits} bits, {parts} parts");
    }
}

#[test]
fn faults_by_their_names(rt: HostRuntime) {
    let cases = [
        (BoardFault::Memory, "Memory"),
        (BoardFault::BadSize, "BadSize"),
        (BoardFault::BadParts, "BadParts"),
    ];
    for (fault, name) in cases {
        let message = format!(in rt.alloc(); "{fault}").expect(&rt, "there is memory");
        assert_eq!(rt; message.as_str(), name);
    }
}

#[test]
fn one_call_after_the_other(rt: HostRuntime) {
    let (board, seat) = Board::new(rt.alloc(), 128, 2).expect(&rt, "a board");
    let (mut a, mut b) = board.split(seat);
    assert_eq!(rt; (a.parts(), b.parts()), (1, 1));
    assert_eq!(rt; board.mark(&mut a, 0, 6), 6);
    assert_eq!(rt; board.mark(&mut b, 0, 3), 1);
    assert_eq!(rt; board.mark(&mut b, 0, 3), 0);
    assert_eq!(rt; board.read(&mut a, 0), 7);
    let seat = board.join(a, b);
    assert_eq!(rt; seat.parts(), 2);
    let words = board.finish(rt.alloc(), seat).expect(&rt, "memory");
    assert_eq!(rt; words.as_slice(), [7, 0].as_slice());
}

#[test]
fn the_last_word_ends_with_the_board(rt: HostRuntime) {
    let (board, mut seat) = Board::new(rt.alloc(), 70, 1).expect(&rt, "a board");
    assert_eq!(rt; (board.bits(), board.words()), (70, 2));
    assert_eq!(rt; board.mark(&mut seat, 1, 63), 63);
    let words = board.finish(rt.alloc(), seat).expect(&rt, "memory");
    assert_eq!(rt; words.as_slice(), [0, 63].as_slice());
}

#[test]
fn a_refused_allocation_is_told(rt: HostRuntime) {
    match Board::new(rt.alloc(), 128, 1) {
        Ok((board, seat)) => match board.finish(rt.alloc(), seat) {
            Ok(words) => assert_eq!(rt; words.as_slice(), [0, 0].as_slice()),
            Err(fault) => assert_eq!(rt; fault, BoardFault::Memory),
        },
        Err(fault) => assert_eq!(rt; fault, BoardFault::Memory),
    }
}
