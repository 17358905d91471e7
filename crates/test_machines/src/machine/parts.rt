//! Machines of given parts, and what is wrong with other parts.

use cap_codec::{Word, block_capability};
use heap_core::Heap;
use heap_machine::{Flaw, Kind, Machine, Reply};
use std::alloc::Global;
use std::process::Abort;
use sweep_pool::{Cutting, Open};
use tag_memory::{Memory, Registers};
use trace_text::Command;

const BASE: u64 = 0x4000_0000;

// A heap of so many pages with a live block of 32 bytes in the first, and one that is painted.
fn heap_of_two(rt: &impl Abort, alloc: Global, pages: u32) -> Heap {
    let mut heap = Heap::new(alloc, BASE, pages).expect(rt, "a heap");
    assert_eq!(rt; heap.claim(0x4000_0200, 0x4000_0220), Ok(()));
    assert!(rt; heap.release(0x4000_0200, 0x4000_0220).is_ok());
    assert!(rt; !heap.is_open());
    heap.begin_epoch();
    assert_eq!(rt; heap.claim(0x4000_0100, 0x4000_0120), Ok(()));
    heap
}

fn memory_at(rt: &impl Abort, alloc: Global, base: u64, pages: u32) -> Memory {
    Memory::new(alloc, base, pages).expect(rt, "memory")
}

// Stores a word with its tag.
fn put(memory: &mut Memory, granule: usize, word: Word) {
    if granule < memory.granules() {
        memory.put(granule, word.bits, true);
    }
}

// The flaw of the heap above with these.
fn flaw(rt: &impl Abort, alloc: Global, memory: Memory, registers: Registers) -> Option<Flaw> {
    let cutting = Cutting::new(1, 16).expect(rt, "it is a cutting");
    Machine::of(heap_of_two(rt, alloc, 1), memory, registers, cutting).err()
}

// A capability with the bounds of the live block, of the painted one, and of none.
fn live() -> Word {
    block_capability(0x4000_0100, 0x4000_0120)
}

fn painted() -> Word {
    block_capability(0x4000_0200, 0x4000_0220)
}

fn unguarded() -> Word {
    block_capability(0x4000_0400, 0x4000_0410)
}

// Two pages, of which the first `tagged` granules have the live block's capability.
fn two_pages(rt: &impl Abort, alloc: Global, tagged: usize) -> Memory {
    let mut memory = memory_at(rt, alloc, BASE, 2);
    for granule in 0..tagged {
        put(&mut memory, granule, live());
    }
    memory
}

// The flaw of the heap of two pages with this memory.
fn flaw_of_two(rt: &impl Abort, alloc: Global, memory: Memory) -> Option<Flaw> {
    let cutting = Cutting::new(1, 16).expect(rt, "it is a cutting");
    Machine::of(heap_of_two(rt, alloc, 2), memory, Registers::new(), cutting).err()
}

// The same of two clean pages with this word in these granules, in their order.
fn flaw_at(
    rt: &impl Abort,
    alloc: Global,
    tagged: usize,
    granules: &[usize],
    word: Word,
) -> Option<Flaw> {
    let mut memory = two_pages(rt, alloc, tagged);
    for granule in granules {
        put(&mut memory, *granule, word);
    }
    memory.mark_clean();
    flaw_of_two(rt, alloc, memory)
}

#[test]
fn parts_make_a_machine(rt: HostRuntime) {
    let alloc = rt.alloc();
    let mut memory = memory_at(&rt, alloc, BASE, 1);
    let mut registers = Registers::new();
    put(&mut memory, 16, painted());
    registers.set(1, live(), true);
    // Without its tag a word may have any bounds.
    registers.set(2, block_capability(0x4000_0800, 0x4000_0820), false);
    let cutting = Cutting::new(1, 16).expect(&rt, "it is a cutting");
    let made = Machine::of(heap_of_two(&rt, alloc, 1), memory, registers, cutting);
    let Ok(mut machine) = made else {
        assert!(rt; false);
        return;
    };
    let kind = machine.heap().block_of(0x4000_0210).map(|found| found.1);
    assert_eq!(rt; kind, Some(Kind::Painted));
    let freed = machine.step(&rt, alloc, Command::Free { rs: 1 }, &Open);
    assert_eq!(rt; freed, Ok(Reply::Held(32)));
    let ended = machine.step(&rt, alloc, Command::End, &Open);
    let taken = Reply::Swept {
        cleared: 1,
        released: 32,
    };
    assert_eq!(rt; ended, Ok(taken));
}

#[test]
fn the_first_flaw_is_told(rt: HostRuntime) {
    let alloc = rt.alloc();
    let elsewhere = memory_at(&rt, alloc, 0x5000_0000, 1);
    assert_eq!(rt;
        flaw(&rt, alloc, elsewhere, Registers::new()),
        Some(Flaw::Elsewhere)
    );
    let longer = memory_at(&rt, alloc, BASE, 2);
    assert_eq!(rt;
        flaw(&rt, alloc, longer, Registers::new()),
        Some(Flaw::Elsewhere)
    );

    // One byte past the live block, and none of it.
    let mut registers = Registers::new();
    registers.set(7, block_capability(0x4000_0110, 0x4000_0121), true);
    let memory = memory_at(&rt, alloc, BASE, 1);
    assert_eq!(rt;
        flaw(&rt, alloc, memory, registers),
        Some(Flaw::Register(7))
    );

    let mut memory = memory_at(&rt, alloc, BASE, 1);
    put(&mut memory, 5, unguarded());
    assert_eq!(rt;
        flaw(&rt, alloc, memory, Registers::new()),
        Some(Flaw::Granule(5))
    );

    let mut memory = memory_at(&rt, alloc, BASE, 1);
    put(&mut memory, 9, painted());
    memory.mark_clean();
    assert_eq!(rt;
        flaw(&rt, alloc, memory, Registers::new()),
        Some(Flaw::Clean(9))
    );
}

// At the edges of words of tags and of pages, where nothing else is tagged, and where all is.
#[test]
fn a_flaw_is_told_wherever_it_stands(rt: HostRuntime) {
    let alloc = rt.alloc();
    for granule in [0, 63, 64, 255, 256, 511] {
        for tagged in [0, 512] {
            assert_eq!(rt;
                flaw_at(&rt, alloc, tagged, &[granule], unguarded()),
                Some(Flaw::Granule(granule))
            );
            assert_eq!(rt;
                flaw_at(&rt, alloc, tagged, &[granule], painted()),
                Some(Flaw::Clean(granule))
            );
        }
    }
}

// In one word, in two, and in two pages.
#[test]
fn the_first_of_two_flaws_is_told(rt: HostRuntime) {
    let alloc = rt.alloc();
    for (first, second) in [(0, 1), (62, 63), (63, 64), (0, 255), (255, 256), (5, 511)] {
        assert_eq!(rt;
            flaw_at(&rt, alloc, 0, &[second, first], unguarded()),
            Some(Flaw::Granule(first))
        );
        assert_eq!(rt;
            flaw_at(&rt, alloc, 512, &[second, first], painted()),
            Some(Flaw::Clean(first))
        );
    }
}

// Either page may be the dirty one, and both.
#[test]
fn a_dirty_page_has_no_flaw(rt: HostRuntime) {
    let alloc = rt.alloc();
    let mut memory = two_pages(&rt, alloc, 0);
    put(&mut memory, 255, painted());
    put(&mut memory, 256, painted());
    assert_eq!(rt; flaw_of_two(&rt, alloc, memory), None);

    let mut memory = two_pages(&rt, alloc, 0);
    put(&mut memory, 256, painted());
    memory.mark_clean();
    put(&mut memory, 255, painted());
    assert_eq!(rt; flaw_of_two(&rt, alloc, memory), Some(Flaw::Clean(256)));

    let mut memory = two_pages(&rt, alloc, 0);
    put(&mut memory, 255, painted());
    memory.mark_clean();
    put(&mut memory, 256, painted());
    assert_eq!(rt; flaw_of_two(&rt, alloc, memory), Some(Flaw::Clean(255)));
}
