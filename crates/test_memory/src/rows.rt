//! Runs found, taken and given, with places worked out by hand.

use granule_rows::{FreeRow, count_both, last_set, place_of_both};

#[test]
fn runs_in_one_word_are_found(rt: HostRuntime) {
    // A word, the length of its longest run and where that begins, and a length that none has.
    let words = [
        (0b0111_0110, 3, 4, 4),
        (0xf000_0000_0000_0007, 4, 60, 5),
        (0x8001_ff00_0000_00ff, 9, 40, 10),
        (u64::MAX, 64, 0, 65),
    ];
    for (word, longest, place, longer) in words {
        let mut row = FreeRow::new(rt.alloc(), 1).expect(&rt, "there is memory");
        row.vacate_words(&[word], 0, 1);
        assert_eq!(rt; row.first_run(longest), Some(place), "{word:x}");
        assert_eq!(rt; row.first_run(longer), None, "{word:x}");
    }
}

#[test]
fn runs_are_found(rt: HostRuntime) {
    let mut row = FreeRow::new(rt.alloc(), 5).expect(&rt, "there is memory");
    assert_eq!(rt; row.granules(), 512);
    assert_eq!(rt; row.first_run(1), None);
    row.vacate(3, 2);
    row.vacate(60, 10);
    row.vacate(120, 200);
    let places = [
        (1, Some(3)),
        (2, Some(3)),
        (3, Some(60)),
        (10, Some(60)),
        (11, Some(120)),
        (200, Some(120)),
        (201, None),
    ];
    for (n, place) in places {
        assert_eq!(rt; row.first_run(n), place, "{n} granules");
    }
    assert_eq!(rt; row.next_run(2, 4), Some(60));
    assert_eq!(rt; row.next_run(2, 68), Some(68));
    assert_eq!(rt; row.next_run(2, 69), Some(120));
    assert_eq!(rt; row.next_run(64, 250), Some(250));
    assert_eq!(rt; row.next_run(64, 257), None);
    assert_eq!(rt; row.next_run(200, 60), Some(120));
    assert_eq!(rt; row.next_run(1, 600), None);
    assert_eq!(rt; row.first_multiple(16, 0, 32), Some(128));
    assert_eq!(rt; row.first_multiple(16, 5, 32), Some(123));
    assert_eq!(rt; row.first_multiple(1, 0, 5), Some(60));
    assert_eq!(rt; row.first_multiple(200, 0, 32), None);
    row.occupy(128, 64);
    assert_eq!(rt; row.first_run(11), Some(192));
    row.vacate_words(&[1, 0, u64::MAX, 0], 1, 4);
    assert_eq!(rt; row.first_run(200), Some(120));
}

#[test]
fn bits_of_both_rows_are_found_by_their_number(rt: HostRuntime) {
    let row = [0b1011, 0, u64::MAX];
    let other = [0b1110, u64::MAX, 1 << 63 | 1];
    assert_eq!(rt; count_both(&row, &other), 4);
    for (n, place) in [(0, 1), (1, 3), (2, 128), (3, 191), (4, 192), (5, 192)] {
        assert_eq!(rt; place_of_both(&row, &other, n), place, "number {n}");
    }
}

#[test]
fn last_bits_are_found(rt: HostRuntime) {
    // A row, a place in it, and the last bit up to there.
    let ends = [0x8000_0000_0000_0020, 0, 0, 0b101];
    let first = [1, 0, 0, 0];
    let none = [0, 0, 0, 0];
    let places = [
        (ends, 0, None),
        (ends, 4, None),
        (ends, 5, Some(5)),
        (ends, 62, Some(5)),
        (ends, 63, Some(63)),
        (ends, 64, Some(63)),
        (ends, 191, Some(63)),
        (ends, 192, Some(192)),
        (ends, 193, Some(192)),
        (ends, 255, Some(194)),
        (first, 0, Some(0)),
        (first, 64, Some(0)),
        (first, 255, Some(0)),
        (none, 255, None),
    ];
    for (row, at, place) in places {
        assert!(rt; at < 256);
        assert_eq!(rt; last_set(&row, at), place, "up to {at}");
    }
}
