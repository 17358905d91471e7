//! What no contract says: that these calls succeed where memory serves.

use cap_codec::{Word, set_address, with_bounds};
use tag_memory::{FAR, Memory, MemoryFault, Registers, lowest_bit, without_lowest};

#[test]
fn spans_are_judged(rt: HostRuntime) {
    let faults = [
        (8, 1, MemoryFault::BadBase),
        (8, 0, MemoryFault::BadSize),
        (0, 1025, MemoryFault::BadSize),
        (0xffff_ffff_ffff_f000, 2, MemoryFault::BadBase),
    ];
    for (base, pages, fault) in faults {
        let answer = Memory::new(rt.alloc(), base, pages);
        assert_eq!(rt; answer.err(), Some(fault), "{pages} pages at {base}");
    }
}

#[test]
fn granules_are_written(rt: HostRuntime) {
    let mut memory = Memory::new(rt.alloc(), 0xffff_ffff_ffff_f000, 1).expect(
        &rt,
        "there is memory",
    );
    assert_eq!(rt; (memory.base(), memory.pages()), (0xffff_ffff_ffff_f000, 1));
    assert_eq!(rt; memory.granules(), 256);
    assert_eq!(rt; memory.granule_at(0xffff_ffff_ffff_fff0), Some(255));
    assert_eq!(rt; memory.granule_at(0xffff_ffff_ffff_fff8), None);
    memory.put(65, 5, true);
    assert_eq!(rt; memory.cell(65), (5, true));
    assert_eq!(rt; memory.cell(64), (0, false));
}

#[test]
fn tags_are_packed(rt: HostRuntime) {
    let mut memory = Memory::new(rt.alloc(), 0, 1).expect(&rt, "there is memory");
    memory.put(65, 5, true);
    assert_eq!(rt; memory.tag_word(1), 2);
    memory.clear_tags(&[0, 1, 0, 0]);
    assert_eq!(rt; memory.tag_word(1), 2);
    memory.clear_tags(&[0, 2, 0, 0]);
    assert_eq!(rt; memory.cell(65), (5, false));
}

#[test]
fn a_page_may_hold_tags_until_it_is_seen_to_have_none(rt: HostRuntime) {
    let mut memory = Memory::new(rt.alloc(), 0, 1).expect(&rt, "there is memory");
    assert!(rt; !memory.may_hold_tags(0));
    memory.put(0, 1, true);
    memory.put(0, 1, false);
    assert!(rt; memory.may_hold_tags(0));
    memory.clear_tags(&[0; 4]);
    assert!(rt; !memory.may_hold_tags(0));
}

#[test]
fn pages_that_may_hold_tags_are_told_apart(rt: HostRuntime) {
    let mut memory = Memory::new(rt.alloc(), 0, 3).expect(&rt, "there is memory");
    memory.put(256, 1, true);
    memory.put(511, 1, true);
    memory.put(512, 1, true);
    memory.put(0, 1, false);
    memory.clear_tags(&[0, 0, 0, 0, 1, 0, 0, 0, 1, 0, 0, 0]);
    assert!(rt; !memory.may_hold_tags(0));
    assert!(rt; memory.may_hold_tags(1));
    assert!(rt; !memory.may_hold_tags(2));
    assert_eq!(rt; memory.tagged(), 1);
}

#[test]
fn a_page_is_dirty_once_a_tagged_word_was_written(rt: HostRuntime) {
    let mut memory = Memory::new(rt.alloc(), 0, 3).expect(&rt, "there is memory");
    assert!(rt; !memory.has_dirty());
    memory.put(256, 1, true);
    memory.put(512, 1, false);
    let dirty = [memory.dirty(0), memory.dirty(1), memory.dirty(2)];
    assert_eq!(rt; dirty, [false, true, false]);
    memory.put(256, 1, false);
    memory.clear_tags(&[0; 12]);
    assert!(rt; memory.dirty(1));
    assert!(rt; memory.has_dirty());
    memory.mark_clean();
    assert!(rt; !memory.dirty(1));
    assert!(rt; !memory.has_dirty());
}

#[test]
fn a_page_loses_tags_and_is_clean(rt: HostRuntime) {
    let mut memory = Memory::new(rt.alloc(), 0x4000_0000, 2).expect(&rt, "there is memory");
    memory.put(3, 7, true);
    memory.put(70, 7, true);
    memory.put(300, 7, true);
    memory.clear_page_tags(0, &[1 << 3, 0, 0, 0]);
    assert_eq!(rt; (memory.cell(3), memory.cell(70)), ((7, false), (7, true)));
    assert!(rt; memory.may_hold_tags(0));
    memory.clear_page_tags(0, &[0, 1 << 6, 0, 0]);
    assert_eq!(rt;
        (memory.cell(70), memory.cell(300)),
        ((7, false), (7, true))
    );
    assert!(rt; !memory.may_hold_tags(0) && memory.may_hold_tags(1));
    memory.mark_page_clean(0);
    assert!(rt; !memory.dirty(0) && memory.dirty(1));
    memory.mark_dirty();
    assert!(rt; memory.dirty(0) && memory.dirty(1));
}

#[test]
fn bases_are_told_by_their_granules(rt: HostRuntime) {
    assert_eq!(rt; FAR, 0xffff_ffff);
    // Where a memory of one page starts, the base of a word in it, whose address lies elsewhere, and the granule of that base:
    // before the memory, in it, past it, and about the greatest number that is told.
    let rows = [
        (0x1000, 0, FAR),
        (0x1000, 0xfff, FAR),
        (0x1000, 0x1000, 0),
        (0x1000, 0x102f, 2),
        (0x1000, 0x1fff, 255),
        (0x1000, 0x2000, 256),
        (0x1000, 0x10_0000_0fef, 0xffff_fffe),
        (0x1000, 0x10_0000_0ff0, FAR),
        (0x1000, 0xffff_ffff_ffff_ffff, FAR),
        (0xffff_ffff_ffff_f000, 0xffff_ffff_ffff_efff, FAR),
        (0xffff_ffff_ffff_f000, 0xffff_ffff_ffff_ffff, 255),
    ];
    for (start, base, granule) in rows {
        let mut memory = Memory::new(rt.alloc(), start, 1).expect(&rt, "there is memory");
        let (word, _) = with_bounds(Word::NULL, base, u128::from(base) + 1);
        let word = set_address(word, base.saturating_sub(0x800));
        memory.put(7, word.bits, false);
        assert_eq!(rt; memory.base_granule(7), granule, "{base:x} from {start:x}");
    }
}

// The base of a word that was never written is 0.
#[test]
fn bases_of_a_new_memory_are_0(rt: HostRuntime) {
    for (start, granule) in [(0, 0), (0x1000, FAR)] {
        let memory = Memory::new(rt.alloc(), start, 1).expect(&rt, "there is memory");
        assert_eq!(rt; memory.base_granule(255), granule);
    }
}

#[test]
fn the_lowest_bit_is_found_and_left_out(rt: HostRuntime) {
    let rows = [
        (1, 0, 0),
        (0b1010, 1, 0b1000),
        (u64::MAX, 0, u64::MAX - 1),
        (0xf000_0000_0000_0100, 8, 0xf000_0000_0000_0000),
        (1 << 63, 63, 0),
    ];
    for (word, place, rest) in rows {
        assert!(rt; word > 0);
        assert_eq!(rt; lowest_bit(word), place, "{word:x}");
        assert_eq!(rt; without_lowest(word), rest, "{word:x}");
    }
}

#[test]
fn registers_are_written(rt: HostRuntime) {
    let word = Word { bits: 7 };
    let mut registers = Registers::new();
    for r in [0, 1, 31] {
        registers.set(r, word, true);
    }
    assert_eq!(rt; registers.get(0), (Word::NULL, false));
    assert_eq!(rt; registers.get(31), (word, true));
    registers.clear(31);
    assert_eq!(rt; registers.get(31), (word, false));
    assert_eq!(rt; registers.get(1), (word, true));
    registers.set(31, word, true);
    registers.clear_tags(1 << 31);
    assert_eq!(rt; registers.get(31), (word, false));
    assert_eq!(rt; registers.get(1), (word, true));
}

#[test]
fn faults_by_their_names(rt: HostRuntime) {
    let cases = [
        (MemoryFault::Memory, "Memory"),
        (MemoryFault::BadBase, "BadBase"),
        (MemoryFault::BadSize, "BadSize"),
    ];
    for (fault, name) in cases {
        let message = format!(in rt.alloc(); "{fault}").expect(&rt, "there is memory");
        assert_eq!(rt; message.as_str(), name);
    }
}

// Run with each allocation refused in turn, too.
#[test]
fn a_refused_allocation_is_told(rt: HostRuntime) {
    match Memory::new(rt.alloc(), 0, 1024) {
        Ok(memory) => assert_eq!(rt; memory.granules(), 262_144),
        Err(fault) => assert_eq!(rt; fault, MemoryFault::Memory),
    }
}
