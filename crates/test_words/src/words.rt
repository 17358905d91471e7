//! Words of the format, with the fields and bounds that the format gives them, and words that are
//! made for bounds.

use cap_codec::{
    Bounds, Fields, GLOBAL, LOAD, LOAD_CAPABILITY, STORE, STORE_CAPABILITY, Word, alignment_mask,
    and_perms, block_capability, bounds, corrections, exponent, fields, from_bytes, is_allowed,
    plain, representable, representable_length, set_address, to_bytes, with_bounds, word_of,
};

// The fields of the null capability.
const NULL: Fields = Fields {
    perms: 0,
    reserved: 0,
    flag: false,
    otype: 0x3ffff,
    internal: true,
    top12: 6,
    base14: 4,
    address: 0,
};

// The fields of the capability of a block of 32 bytes.
const BLOCK: Fields = Fields {
    perms: 0x3d,
    reserved: 0,
    flag: false,
    otype: 0x3ffff,
    internal: false,
    top12: 0x20,
    base14: 0,
    address: 0x4000_0000,
};

const WHOLE: Bounds = Bounds {
    base: 0,
    top: 1 << 64,
};

// The upper 8 of a word's bytes, in memory order.
type Metadata = [u8; 8];

// Each address with metadata, and the fields, exponent and bounds of that word.
const WORDS: [(u64, Metadata, Fields, u8, Bounds); 7] = [
    (0, [0; 8], NULL, 52, WHOLE),
    (
        0x4000_0000,
        [0x04, 0x80, 0x09, 0x04, 0, 0, 0x3d, 0],
        BLOCK,
        0,
        Bounds {
            base: 0x4000_0000,
            top: 0x4000_0020,
        },
    ),
    // an exponent field of 63
    (
        0,
        [0x03, 0x40, 0, 0, 0, 0, 0, 0],
        Fields {
            top12: 7,
            base14: 7,
            ..NULL
        },
        52,
        WHOLE,
    ),
    (
        u64::MAX,
        [0xff; 8],
        Fields {
            perms: 0xffff,
            reserved: 3,
            flag: true,
            otype: 0,
            internal: false,
            top12: 0xff9,
            base14: 0x3ffb,
            address: u64::MAX,
        },
        0,
        Bounds {
            base: 0xffff_ffff_ffff_fffb,
            top: 0x1_0000_0000_0000_0ff9,
        },
    ),
    // a block of 4,096 bytes
    (
        0x4000_0000,
        [0x04, 0x80, 0x01, 0, 0, 0, 0, 0],
        Fields {
            top12: 0,
            base14: 0,
            address: 0x4000_0000,
            ..NULL
        },
        0,
        Bounds {
            base: 0x4000_0000,
            top: 0x4000_1000,
        },
    ),
    // exponents 50 and 51
    (
        0,
        [0x06, 0, 0, 0, 0, 0, 0, 0],
        Fields { base14: 2, ..NULL },
        50,
        Bounds {
            base: 0,
            top: 1 << 62,
        },
    ),
    (
        0,
        [0x07, 0, 0, 0, 0, 0, 0, 0],
        Fields { base14: 3, ..NULL },
        51,
        Bounds {
            base: 0,
            top: 1 << 63,
        },
    ),
];

// The bytes of an address, little endian, with metadata after them.
fn bytes_of(address: u64, metadata: Metadata) -> [u8; 16] {
    let [a, b, c, d, e, f, g, h] = address.to_le_bytes();
    let [i, j, k, l, m, n, o, p] = metadata;
    [a, b, c, d, e, f, g, h, i, j, k, l, m, n, o, p]
}

#[test]
fn words_decode(rt: HostRuntime) {
    for (address, metadata, with, at, within) in WORDS {
        let w = from_bytes(bytes_of(address, metadata));
        assert_eq!(rt; fields(w), with);
        assert_eq!(rt; exponent(w), at);
        assert_eq!(rt; bounds(w), within);
    }
    assert_eq!(rt; from_bytes([0; 16]), Word::NULL);
}

#[test]
fn words_encode(rt: HostRuntime) {
    for (address, metadata, with, _, _) in WORDS {
        assert!(rt; with.is_valid());
        assert_eq!(rt; to_bytes(word_of(with)), bytes_of(address, metadata));
    }
}

// The address leaves the window of the block's capability where its bounds change.
#[test]
fn window_edges(rt: HostRuntime) {
    let near = [0x3fff_f800, 0x4000_0000, 0x4000_37ff];
    for address in near {
        let within = bounds(word_of(Fields { address, ..BLOCK }));
        assert_eq!(rt; (within.base, within.top), (0x4000_0000, 0x4000_0020));
    }
    let below = Fields {
        address: 0x3fff_f7ff,
        ..BLOCK
    };
    let within = bounds(word_of(below));
    assert_eq!(rt; (within.base, within.top), (0x3fff_c000, 0x3fff_c020));
}

// The last page of the address space, seen from an address past its end.
#[test]
fn window_wraps(rt: HostRuntime) {
    let last_page = Fields {
        top12: 0,
        base14: 0x3000,
        address: 0x10,
        ..NULL
    };
    let within = bounds(word_of(last_page));
    assert_eq!(rt; (within.base, within.top), (0xffff_ffff_ffff_f000, 1 << 64));
}

// Below the block's window start lies an eighth of a window that belongs to the multiple before.
#[test]
fn upper_bits_are_corrected(rt: HostRuntime) {
    let block = word_of(BLOCK);
    let cases = [
        (Word::NULL, 0, 0),
        (block, 0, 0),
        (set_address(block, 0x3fff_f800), 1, 1),
        (Word { bits: u128::MAX }, 0, 1),
    ];
    for (w, first, second) in cases {
        assert_eq!(rt; corrections(w), (first, second));
    }
}

#[test]
fn exponents_are_capped(rt: HostRuntime) {
    for field in 0..64u16 {
        let with = Fields {
            top12: field / 8,
            base14: field % 8,
            ..NULL
        };
        assert_eq!(rt; u16::from(exponent(word_of(with))), field.min(52));
    }
}

#[test]
fn widths_are_checked(rt: HostRuntime) {
    let too_wide = [
        Fields {
            reserved: 4,
            ..NULL
        },
        Fields {
            otype: 1 << 18,
            ..NULL
        },
        Fields {
            top12: 1 << 12,
            ..NULL
        },
        Fields {
            base14: 1 << 14,
            ..NULL
        },
    ];
    for with in too_wide {
        assert!(rt; !with.is_valid());
    }
}

// Bounds that are set, with those that the word then has, and whether these are the same.
const SET: [(u64, u128, Bounds, bool); 4] = [
    (5, 5005, Bounds { base: 0, top: 5008 }, false),
    (0, 1 << 64, WHOLE, true),
    (1, 1 << 64, WHOLE, false),
    (
        0x4000_0000,
        0x4000_1000,
        Bounds {
            base: 0x4000_0000,
            top: 0x4000_1000,
        },
        true,
    ),
];

#[test]
fn bounds_are_set(rt: HostRuntime) {
    for (base, top, within, is_exact) in SET {
        assert!(rt; u128::from(base) <= top && top <= 1 << 64);
        let (w, exact) = with_bounds(Word::NULL, base, top);
        assert_eq!(rt; (fields(w).address, exact), (base, is_exact));
        assert_eq!(rt; bounds(w), within);
    }
    assert_eq!(rt; with_bounds(Word::NULL, 0, 1 << 64), (Word::NULL, true));
    let (page, _) = with_bounds(Word::NULL, 0x4000_0000, 0x4000_1000);
    assert_eq!(rt;
        to_bytes(page),
        bytes_of(0x4000_0000, [0x04, 0x80, 0x01, 0, 0, 0, 0, 0])
    );
}

// Words with other fields than those of the null capability: all bits; a block's capability; sealed by type 5, with
// every permission, reserved bits and flag; the same with an internal exponent of 51; and one of each other bit.
fn sources() -> [Word; 5] {
    let sealed = Fields {
        perms: 0xffff,
        reserved: 3,
        flag: true,
        otype: 5,
        ..BLOCK
    };
    let wide = Fields {
        internal: true,
        top12: 0x806,
        base14: 0x1003,
        ..sealed
    };
    let mixed = Fields {
        perms: 0x5555,
        reserved: 2,
        flag: false,
        otype: 0x2_aaaa,
        ..wide
    };
    let all = Word { bits: u128::MAX };
    [
        all,
        word_of(BLOCK),
        word_of(sealed),
        word_of(wide),
        word_of(mixed),
    ]
}

// Bounds without a byte, of one byte, exact ones with and without an exponent, ones that are rounded, the last bytes and
// the whole of the address space.
const SPANS: [(u64, u128); 9] = [
    (0x4000_0008, 0x4000_0008),
    (0x1234_5678_9abc_def1, 0x1234_5678_9abc_def2),
    (0x4000_0000, 0x4000_0020),
    (0x4000_0000, 0x4000_1000),
    (5, 5005),
    (0x7fff_ffff_ffff_fff1, 0x8000_0000_0000_2003),
    (0x0123_4567_89ab_cdef, 0xfedc_ba98_7654_3210),
    (u64::MAX, 1 << 64),
    (0, 1 << 64),
];

// Of any word, setting bounds is the plain setting, and leaves what isn't bounds.
#[test]
fn bounds_are_set_in_any_word(rt: HostRuntime) {
    for source in sources() {
        let before = fields(source);
        for (base, top) in SPANS {
            assert!(rt; u128::from(base) <= top && top <= 1 << 64);
            let (w, exact) = with_bounds(source, base, top);
            assert_eq!(rt; (w, exact), plain::with_bounds(source, base, top));
            let after = fields(w);
            assert_eq!(rt;
                (after.perms, after.reserved),
                (before.perms, before.reserved)
            );
            assert_eq!(rt; (after.flag, after.otype), (before.flag, before.otype));
        }
    }
}

#[test]
fn addresses_are_representable(rt: HostRuntime) {
    let block = word_of(BLOCK);
    let cases = [
        (0x3fff_f7ff, false),
        (0x3fff_f800, true),
        (0x4000_37ff, true),
        (0x4000_3800, false),
    ];
    for (address, kept) in cases {
        assert_eq!(rt; representable(block, address), kept, "at {address}");
    }
    let (last_page, _) = with_bounds(Word::NULL, 0xffff_ffff_ffff_f000, 1 << 64);
    assert!(rt; representable(last_page, 0x10));
}

#[test]
fn lengths_are_rounded(rt: HostRuntime) {
    let cases = [
        (0, 0, u64::MAX),
        (4095, 4095, u64::MAX),
        (4097, 4104, 0xffff_ffff_ffff_fff8),
        (8191, 8192, 0xffff_ffff_ffff_fff0),
        (131_056, 131_072, 0xffff_ffff_ffff_ff00),
        (u64::MAX, 1 << 64, 0xff80_0000_0000_0000),
    ];
    for (n, length, mask) in cases {
        assert_eq!(rt;
            (representable_length(n), alignment_mask(n)),
            (length, mask),
            "at {n}"
        );
    }
}

#[test]
fn words_are_edited(rt: HostRuntime) {
    let block = word_of(BLOCK);
    let moved = Fields {
        address: 0x3fff_f7ff,
        ..BLOCK
    };
    assert_eq!(rt; fields(set_address(block, 0x3fff_f7ff)), moved);
    let fewer = Fields {
        perms: 0x05,
        ..BLOCK
    };
    assert_eq!(rt; fields(and_perms(block, 0x07)), fewer);
}

#[test]
fn a_block_has_its_capability(rt: HostRuntime) {
    let block = block_capability(0x4000_0000, 0x4000_0020);
    assert_eq!(rt; fields(block), BLOCK);
    for permission in [GLOBAL, LOAD, STORE, LOAD_CAPABILITY, STORE_CAPABILITY] {
        assert!(rt; is_allowed(block, permission));
        assert!(rt; !is_allowed(Word::NULL, permission));
    }
    // Bit 1 is the permission to execute.
    assert!(rt; !is_allowed(block, 1 << 1));
    assert!(rt; is_allowed(block, 1 << 1 | LOAD));
}

#[test]
fn bytes_lie_within_bounds(rt: HostRuntime) {
    let block = Bounds {
        base: 0x4000_0000,
        top: 0x4000_0020,
    };
    let cases = [
        (0x4000_0000, 0x20, true),
        (0x4000_0000, 0x21, false),
        (0x3fff_ffff, 0x20, false),
        (0x4000_0001, 0x20, false),
        (0x4000_0020, 0, true),
        (0x4000_0021, 0, false),
        (u64::MAX, u64::MAX, false),
    ];
    for (address, length, held) in cases {
        assert_eq!(rt;
            block.hold(address, length),
            held,
            "{length} bytes at {address}"
        );
    }
    assert!(rt; WHOLE.hold(u64::MAX, 1));
    assert!(rt; !WHOLE.hold(u64::MAX, 2));
}

// The eighth of its window that this base field's base lies in is 6, so its window starts at eighth 5.
const BASE_FIELD: u16 = 0x3120;

// Addresses at both edges of a window of that base, and of the address space.
fn edges(exponent: u16) -> [u64; 6] {
    let start = 5 * 2048 << exponent.min(52);
    let end = (1u64 << 14 << exponent.min(52)).wrapping_add(start);
    [
        start.wrapping_sub(1),
        start,
        end.wrapping_sub(1),
        end,
        0,
        u64::MAX,
    ]
}

#[test]
fn decoding_is_the_plain_one(rt: HostRuntime) {
    for field in 0..64u16 {
        for internal in [false, true] {
            let with = Fields {
                internal,
                top12: 0x460 + field / 8,
                base14: BASE_FIELD + field % 8,
                ..NULL
            };
            for address in edges(field) {
                let w = word_of(Fields { address, ..with });
                assert_eq!(rt; fields(w), plain::fields(w), "at {field}");
                assert_eq!(rt; w, plain::word_of(fields(w)), "at {field}");
                assert_eq!(rt; bounds(w), plain::bounds(w), "at {field}");
                for other in edges(field) {
                    let kept = plain::representable(w, other);
                    assert_eq!(rt; representable(w, other), kept, "at {field}");
                }
            }
        }
    }
}

#[test]
fn rounding_is_the_plain_one(rt: HostRuntime) {
    for place in 0..64u16 {
        for less in [0, 1, 8, 9] {
            let length = (1u64 << place).wrapping_sub(less);
            for base in edges(place) {
                let top = u128::from(base) + u128::from(length);
                if top <= 1 << 64 {
                    let set = plain::with_bounds(Word::NULL, base, top);
                    assert_eq!(rt; with_bounds(Word::NULL, base, top), set, "at {place}");
                }
            }
            let rounded = (
                plain::representable_length(length),
                plain::alignment_mask(length),
            );
            let here = (representable_length(length), alignment_mask(length));
            assert_eq!(rt; here, rounded, "at {place}");
        }
    }
}
