//! Traces with what their runs leave.

use heap_reply::{Reply, Shown, Trap};

/// A trace, and what its run leaves: the report, the image, the registers and granules that aren't all 0 by their
/// numbers, each with its 128 bits and its tag, and the reply of each command.
#[derive(Clone, Copy)]
pub struct Row {
    pub text: &'static str,
    pub report: &'static str,
    pub image: &'static str,
    pub registers: &'static [(u8, u128, bool)],
    pub granules: &'static [(usize, u128, bool)],
    pub replies: &'static [Reply],
}

impl Row {
    /// The bits and the tag of a register.
    pub(crate) fn register(&self, r: u8) -> (u128, bool) {
        for (at, bits, tag) in self.registers {
            if *at == r {
                return (*bits, *tag);
            }
        }
        (0, false)
    }

    /// The bits and the tag of a granule.
    pub(crate) fn granule(&self, i: usize) -> (u128, bool) {
        for (at, bits, tag) in self.granules {
            if *at == i {
                return (*bits, *tag);
            }
        }
        (0, false)
    }
}

// The two blocks of 32 bytes that most traces begin with.
const FIRST: Reply = Reply::Block {
    base: 0x4000_0000,
    top: 0x4000_0020,
};

const SECOND: Reply = Reply::Block {
    base: 0x4000_0020,
    top: 0x4000_0040,
};

// The words of these two, worked out by hand as all words here, and that of the page at 0x40000000.
const FIRST_WORD: u128 = 0x003d_0000_0409_8004_0000_0000_4000_0000;

const SECOND_WORD: u128 = 0x003d_0000_0411_8024_0000_0000_4000_0020;

const PAGE_WORD: u128 = 0x003d_0000_0001_8004_0000_0000_4000_0000;

/// A top of 2^64, and a window that wraps.
const WRAPPED: Row = Row {
    text: "heap 0xfffffffffffff000 1\nmalloc c1 4096\nsetaddr c2 c1 0x10\nshow c2\n",
    report: "2 malloc block 0xfffffffffffff000 0x10000000000000000
3 setaddr ok
4 show tag 1 address 0x10 base 0xfffffffffffff000 top 0x10000000000000000 perms 0x3d type 0x3ffff exponent 0
end live 4096 held 0 free 0 tags 2
",
    image: "",
    registers: &[
        (1, 0x003d_0000_0001_b004_ffff_ffff_ffff_f000, true),
        (2, 0x003d_0000_0001_b004_0000_0000_0000_0010, true),
    ],
    granules: &[],
    replies: &[
        Reply::Block {
            base: 0xffff_ffff_ffff_f000,
            top: 1 << 64,
        },
        Reply::Done,
        Reply::Shown(Shown {
            tag: true,
            address: 0x10,
            base: 0xffff_ffff_ffff_f000,
            top: 1 << 64,
            perms: 0x3d,
            otype: 0x3ffff,
            exponent: 0,
        }),
    ],
};

/// No reuse before the sweep.
const REUSED: Row = Row {
    text: "heap 0x40000000 1\nmalloc c1 32\ncopy c2 c1\nfree c1\nmalloc c3 32\nsweep\nmalloc c4 32\n",
    report: "2 malloc block 0x40000000 0x40000020
3 copy ok
4 free held 32
5 malloc block 0x40000020 0x40000040
6 sweep cleared 2 released 32
7 malloc block 0x40000000 0x40000020
end live 64 held 0 free 4032 tags 2
",
    image: "",
    registers: &[
        (1, FIRST_WORD, false),
        (2, FIRST_WORD, false),
        (3, SECOND_WORD, true),
        (4, FIRST_WORD, true),
    ],
    granules: &[],
    replies: &[
        FIRST,
        Reply::Done,
        Reply::Held(32),
        SECOND,
        Reply::Swept {
            cleared: 2,
            released: 32,
        },
        FIRST,
    ],
};

/// A sweep and a new block leave contents alone.
pub const KEPT: Row = Row {
    text: "heap 0x40000000 1\nmalloc c1 32\nmalloc c2 32\nstorecap c1 c2\nfree c1\nsweep\nmalloc c3 32\nloadcap c4 c3\nshow c4\n",
    report: "2 malloc block 0x40000000 0x40000020
3 malloc block 0x40000020 0x40000040
4 storecap ok
5 free held 32
6 sweep cleared 1 released 32
7 malloc block 0x40000000 0x40000020
8 loadcap ok
9 show tag 1 address 0x40000020 base 0x40000020 top 0x40000040 perms 0x3d type 0x3ffff exponent 0
end live 64 held 0 free 4032 tags 4
",
    image: "0x40000000 1 20000040000000002480110400003d00\n",
    registers: &[
        (1, FIRST_WORD, false),
        (2, SECOND_WORD, true),
        (3, FIRST_WORD, true),
        (4, SECOND_WORD, true),
    ],
    granules: &[(0, SECOND_WORD, true)],
    replies: &[
        FIRST,
        SECOND,
        Reply::Done,
        Reply::Held(32),
        Reply::Swept {
            cleared: 1,
            released: 32,
        },
        FIRST,
        Reply::Done,
        Reply::Shown(Shown {
            tag: true,
            address: 0x4000_0020,
            base: 0x4000_0020,
            top: 0x4000_0040,
            perms: 0x3d,
            otype: 0x3ffff,
            exponent: 0,
        }),
    ],
};

/// Bounds narrowed, with the traps on the way.
const NARROWED: Row = Row {
    text: "heap 0x40000000 64\nmalloc c1 100000\nnarrow c2 c1 0\nsetaddr c3 c1 0x40000001\nnarrow c2 c3 5000\nnarrow c2 c3 100096\nnarrow c2 c1 100096\n",
    report: "2 malloc block 0x40000000 0x40018700
3 narrow trap empty
4 setaddr ok
5 narrow trap inexact
6 narrow trap bounds
7 narrow ok
end live 100096 held 0 free 162048 tags 3
",
    image: "",
    registers: &[
        (1, 0x003d_0000_021d_8000_0000_0000_4000_0000, true),
        (2, 0x003d_0000_021d_8000_0000_0000_4000_0000, true),
        (3, 0x003d_0000_021d_8000_0000_0000_4000_0001, true),
    ],
    granules: &[],
    replies: &[
        Reply::Block {
            base: 0x4000_0000,
            top: 0x4001_8700,
        },
        Reply::Trap(Trap::Empty),
        Reply::Done,
        Reply::Trap(Trap::Inexact),
        Reply::Trap(Trap::Bounds),
        Reply::Done,
    ],
};

/// The least place, in a gap too.
const PLACED: Row = Row {
    text: "heap 0x40000000 16\nmalloc c1 16\nmalloc c2 16384\nmalloc c3 16\n",
    report: "2 malloc block 0x40000000 0x40000010
3 malloc block 0x40000020 0x40004020
4 malloc block 0x40000010 0x40000020
end live 16416 held 0 free 49120 tags 3
",
    image: "",
    registers: &[
        (1, 0x003d_0000_0405_8004_0000_0000_4000_0000, true),
        (2, 0x003d_0000_0003_800e_0000_0000_4000_0020, true),
        (3, 0x003d_0000_0409_8014_0000_0000_4000_0010, true),
    ],
    granules: &[],
    replies: &[
        Reply::Block {
            base: 0x4000_0000,
            top: 0x4000_0010,
        },
        Reply::Block {
            base: 0x4000_0020,
            top: 0x4000_4020,
        },
        Reply::Block {
            base: 0x4000_0010,
            top: 0x4000_0020,
        },
    ],
};

/// A malloc without a place sweeps first, where some block is held.
const FULL: Row = Row {
    text: "heap 0x40000000 1\nmalloc c1 4096\nfree c1\nmalloc c2 32\nmalloc c3 8192\ncopy c4 c2\nfree c2\nmalloc c2 8192\nshow c4\n",
    report: "2 malloc block 0x40000000 0x40001000
3 free held 4096
4 malloc block 0x40000000 0x40000020 swept 1
5 malloc nospace
6 copy ok
7 free held 32
8 malloc nospace swept 2
9 show tag 0 address 0x40000000 base 0x40000000 top 0x40000020 perms 0x3d type 0x3ffff exponent 0
end live 0 held 0 free 4096 tags 0
",
    image: "",
    registers: &[(1, PAGE_WORD, false), (4, FIRST_WORD, false)],
    granules: &[],
    replies: &[
        Reply::Block {
            base: 0x4000_0000,
            top: 0x4000_1000,
        },
        Reply::Held(4096),
        Reply::BlockAfter {
            base: 0x4000_0000,
            top: 0x4000_0020,
            cleared: 1,
        },
        Reply::NoSpace,
        Reply::Done,
        Reply::Held(32),
        Reply::NoSpaceAfter { cleared: 2 },
        Reply::Shown(Shown {
            tag: false,
            address: 0x4000_0000,
            base: 0x4000_0000,
            top: 0x4000_0020,
            perms: 0x3d,
            otype: 0x3ffff,
            exponent: 0,
        }),
    ],
};

/// An epoch with a store and a release in it.
const EPOCH: Row = Row {
    text: "heap 0x40000000 2\nmalloc c1 32\nmalloc c2 4096\nmalloc c3 32\nstorecap c2 c1\nfree c1\nbegin\nstorecap c3 c1\nfree c2\nsweep\nend\nend\nmalloc c4 32\nshow c2\nsweep\n",
    report: "2 malloc block 0x40000000 0x40000020
3 malloc block 0x40000020 0x40001020
4 malloc block 0x40001020 0x40001040
5 storecap ok
6 free held 32
7 begin cleared 1
8 storecap ok
9 free held 4096
10 sweep trap open
11 end cleared 2 released 32
12 end trap notopen
13 malloc block 0x40000000 0x40000020
14 show tag 1 address 0x40000020 base 0x40000020 top 0x40001020 perms 0x3d type 0x3ffff exponent 0
15 sweep cleared 1 released 4096
end live 64 held 0 free 8128 tags 2
",
    image: "0x40000020 0 00000040000000000480090400003d00
0x40001020 0 00000040000000000480090400003d00
",
    registers: &[
        (1, FIRST_WORD, false),
        (2, 0x003d_0000_0009_8024_0000_0000_4000_0020, false),
        (3, 0x003d_0000_0411_9024_0000_0000_4000_1020, true),
        (4, FIRST_WORD, true),
    ],
    granules: &[(2, FIRST_WORD, false), (258, FIRST_WORD, false)],
    replies: &[
        Reply::Block {
            base: 0x4000_0000,
            top: 0x4000_0020,
        },
        Reply::Block {
            base: 0x4000_0020,
            top: 0x4000_1020,
        },
        Reply::Block {
            base: 0x4000_1020,
            top: 0x4000_1040,
        },
        Reply::Done,
        Reply::Held(32),
        Reply::Begun { cleared: 1 },
        Reply::Done,
        Reply::Held(4096),
        Reply::Trap(Trap::Open),
        Reply::Swept {
            cleared: 2,
            released: 32,
        },
        Reply::Trap(Trap::NotOpen),
        Reply::Block {
            base: 0x4000_0000,
            top: 0x4000_0020,
        },
        Reply::Shown(Shown {
            tag: true,
            address: 0x4000_0020,
            base: 0x4000_0020,
            top: 0x4000_1020,
            perms: 0x3d,
            otype: 0x3ffff,
            exponent: 0,
        }),
        Reply::Swept {
            cleared: 1,
            released: 4096,
        },
    ],
};

/// In an open epoch a malloc without a place does not sweep.
const OPENED: Row = Row {
    text: "heap 0x40000000 1\nmalloc c1 4096\nfree c1\nbegin\nmalloc c2 16\n",
    report: "2 malloc block 0x40000000 0x40001000
3 free held 4096
4 begin cleared 0
5 malloc nospace
end live 0 held 4096 free 0 tags 1
",
    image: "",
    registers: &[(1, PAGE_WORD, true)],
    granules: &[],
    replies: &[
        Reply::Block {
            base: 0x4000_0000,
            top: 0x4000_1000,
        },
        Reply::Held(4096),
        Reply::Begun { cleared: 0 },
        Reply::NoSpace,
    ],
};

pub const ROWS: [Row; 8] = [WRAPPED, REUSED, KEPT, NARROWED, PLACED, FULL, EPOCH, OPENED];
