//! Short texts, piece by piece.

use heap_reply::ShortText;

#[test]
fn each_piece_stands_before_the_earlier_ones(rt: HostRuntime) {
    let mut text = ShortText::new();
    assert!(rt; text.as_bytes().is_empty());
    text.put("\n");
    text.put_decimal(u64::MAX);
    text.put(" ");
    text.put_decimal(0);
    text.put("");
    text.put("from ");
    assert_eq!(rt; text.as_bytes(), "from 0 18446744073709551615\n".as_bytes());
}

// Numbers with their texts.
const NUMBERS: [(u128, &str); 9] = [
    (0, "0x0"),
    (0xf, "0xf"),
    (0x10, "0x10"),
    (0x123, "0x123"),
    (0x1234, "0x1234"),
    (0xfedc_ba98_7654_3210, "0xfedcba9876543210"),
    (1 << 64, "0x10000000000000000"),
    ((1 << 64) + 0xab, "0x100000000000000ab"),
    (u128::MAX, "0xffffffffffffffffffffffffffffffff"),
];

#[test]
fn hexadecimal_has_no_leading_zeros(rt: HostRuntime) {
    for (number, shown) in NUMBERS {
        let mut text = ShortText::new();
        text.put_wide_hexadecimal(number);
        assert_eq!(rt; text.as_bytes(), shown.as_bytes());
        if number <= u128::from(u64::MAX) {
            let mut text = ShortText::new();
            text.put_hexadecimal(number as u64);
            assert_eq!(rt; text.as_bytes(), shown.as_bytes());
        }
    }
}

#[test]
fn bytes_are_two_digits_each(rt: HostRuntime) {
    let mut text = ShortText::new();
    text.put_bytes([
        0, 1, 2, 3, 4, 5, 6, 7, 8, 9, 10, 0x7f, 0x80, 0xab, 0xf0, 0xff,
    ]);
    let shown = "000102030405060708090a7f80abf0ff";
    assert_eq!(rt; text.as_bytes(), shown.as_bytes());
}
