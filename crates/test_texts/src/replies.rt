//! Replies with the texts that the report gives them.

use crate::derived;
use cap_codec::{Word, and_perms, block_capability};
use heap_reply::{Reply, ShortText, Shown, Trap, put_reply, put_reply_of};

// Whether this is the text that is put of a reply, both of one that stays where it is and of a copy.
fn is_put_as(reply: Reply, text: &str) -> bool {
    let mut put = ShortText::new();
    put_reply_of(&mut put, &reply);
    let is_same = put.as_str() == text;
    put.clear();
    put_reply(&mut put, reply);
    is_same && put.as_str() == text
}

#[test]
fn replies_by_their_texts(rt: HostRuntime) {
    let block = Reply::Block {
        base: 0x4000_0000,
        top: 0x4000_0020,
    };
    let last = Reply::Block {
        base: 0xffff_ffff_ffff_f000,
        top: 1 << 64,
    };
    let after = Reply::BlockAfter {
        base: 0x4000_0000,
        top: 0x4000_0020,
        cleared: 1,
    };
    let swept = Reply::Swept {
        cleared: 3,
        released: 32,
    };
    let texts = [
        (block, "block 0x40000000 0x40000020"),
        (last, "block 0xfffffffffffff000 0x10000000000000000"),
        (after, "block 0x40000000 0x40000020 swept 1"),
        (Reply::NoSpace, "nospace"),
        (Reply::NoSpaceAfter { cleared: 2 }, "nospace swept 2"),
        (Reply::Held(32), "held 32"),
        (Reply::Done, "ok"),
        (Reply::Cleared, "cleared"),
        (swept, "cleared 3 released 32"),
        (Reply::Begun { cleared: 4 }, "cleared 4"),
    ];
    for (reply, text) in texts {
        let printed = format!(in rt.alloc(); "{reply}").expect(&rt, "there is memory");
        assert_eq!(rt; printed.as_str(), text);
        assert!(rt; is_put_as(reply, text), "{text}");
    }
}

#[test]
fn traps_by_their_names(rt: HostRuntime) {
    let names = [
        (Trap::Tag, "trap tag"),
        (Trap::Perm, "trap perm"),
        (Trap::Bounds, "trap bounds"),
        (Trap::Align, "trap align"),
        (Trap::Empty, "trap empty"),
        (Trap::Inexact, "trap inexact"),
        (Trap::Freed, "trap freed"),
        (Trap::NotBlock, "trap notblock"),
        (Trap::Open, "trap open"),
        (Trap::NotOpen, "trap notopen"),
    ];
    for (trap, text) in names {
        let reply = Reply::Trap(trap);
        let printed = format!(in rt.alloc(); "{reply}").expect(&rt, "there is memory");
        assert_eq!(rt; printed.as_str(), text);
        assert!(rt; is_put_as(reply, text), "{text}");
    }
}

#[test]
fn registers_are_shown(rt: HostRuntime) {
    let block = block_capability(0x4000_0000, 0x4000_0020);
    let sealed = Shown {
        otype: 0x3_fffe,
        ..Shown::of(block, true)
    };
    let wide = Shown {
        exponent: 1,
        ..Shown::of(block, true)
    };
    let shown = [
        (
            Shown::of(Word::NULL, false),
            "tag 0 address 0x0 base 0x0 top 0x10000000000000000 perms 0x0 type 0x3ffff exponent 52",
        ),
        (
            Shown::of(block, true),
            "tag 1 address 0x40000000 base 0x40000000 top 0x40000020 perms 0x3d type 0x3ffff exponent 0",
        ),
        (
            Shown::of(and_perms(block, 0xfff7), true),
            "tag 1 address 0x40000000 base 0x40000000 top 0x40000020 perms 0x35 type 0x3ffff exponent 0",
        ),
        (
            sealed,
            "tag 1 address 0x40000000 base 0x40000000 top 0x40000020 perms 0x3d type 0x3fffe exponent 0",
        ),
        (
            wide,
            "tag 1 address 0x40000000 base 0x40000000 top 0x40000020 perms 0x3d type 0x3ffff exponent 1",
        ),
    ];
    for (shown, text) in shown {
        let reply = Reply::Shown(shown);
        let printed = format!(in rt.alloc(); "{reply}").expect(&rt, "there is memory");
        assert_eq!(rt; printed.as_str(), text);
        assert!(rt; is_put_as(reply, text), "{text}");
    }
}

#[test]
fn debug_text_has_the_fields_in_the_order_of_show(rt: HostRuntime) {
    let block = block_capability(0x4000_0000, 0x4000_0020);
    let reply = Reply::Shown(Shown::of(block, true));
    let printed = format!(in rt.alloc(); "{reply:?}").expect(&rt, "there is memory");
    let text =
        "Shown(Shown { tag: true, address: 1073741824, base: 1073741824, top: 1073741856, perms: 61, otype: 262143, exponent: 0 })";
    assert_eq!(rt; printed.as_str(), text);
}

// Numbers of each length in bits.
#[test]
fn debug_text_is_as_one_that_is_derived(rt: HostRuntime) {
    let mut number: u64 = 1;
    for length in 0u32..64 {
        number = number.wrapping_mul(0x9e37_79b9_7f4a_7c15).wrapping_add(1);
        let short = number >> length;
        let shown = Shown {
            top: u128::from(short) << 60,
            address: short,
            base: number,
            otype: (short >> 32) as u32,
            perms: (short >> 48) as u16,
            exponent: (short >> 56) as u8,
            tag: short % 2 == 1,
        };
        let same = derived::Shown {
            tag: shown.tag,
            address: shown.address,
            base: shown.base,
            top: shown.top,
            perms: shown.perms,
            otype: shown.otype,
            exponent: shown.exponent,
        };
        let printed = format!(in rt.alloc(); "{shown:?} {shown:#?}").expect(&rt, "there is memory");
        let wanted = format!(in rt.alloc(); "{same:?} {same:#?}").expect(&rt, "there is memory");
        assert_eq!(rt; printed.as_str(), wanted.as_str());
    }
}
