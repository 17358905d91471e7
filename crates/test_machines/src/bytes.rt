//! States as bytes: what stands where, that each state comes back from its bytes, and what other bytes are refused for.

use given_state::start;
use heap_machine::{Kind, Machine};
use log_text::parse;
use state_bytes::{BytesFault, decode, encode};
use std::alloc::Global;
use std::process::Abort;
use std::thread::Threads;
use sweep_pool::{Cutting, Open};
use trace_text::Command;

// What these tests look at lies within this many bytes: the state of one page.
const PAGE_BYTES: usize = 5934;

// One page with a live block of 32 bytes at 0x40000100, one of 16 that waits at 0x40000200 and a painted one of 64 at
// 0x40000300. The registers c1 to c3 have their capabilities, and the first block holds those of the two others.
const THREE_BLOCKS: &str = "heap 0x40000000 1
given live 0x40000100 0x40000120
given waiting 0x40000200 0x40000210
given painted 0x40000300 0x40000340
given register c1 1 00010040000000000481490400003d00
given register c2 1 00020040000000000482850400003d00
given register c3 1 00030040000000000483d10400003d00
given granule 0x40000100 1 00030040000000000483d10400003d00
given granule 0x40000110 1 00020040000000000482850400003d00
";

const LIVE_WORD: [u8; 16] = [0, 1, 0, 0x40, 0, 0, 0, 0, 4, 0x81, 0x49, 4, 0, 0, 0x3d, 0];

const WAITING_WORD: [u8; 16] = [0, 2, 0, 0x40, 0, 0, 0, 0, 4, 0x82, 0x85, 4, 0, 0, 0x3d, 0];

const PAINTED_WORD: [u8; 16] = [0, 3, 0, 0x40, 0, 0, 0, 0, 4, 0x83, 0xd1, 4, 0, 0, 0x3d, 0];

fn cutting(rt: &impl Abort) -> Cutting {
    Cutting::new(1, 16).expect(rt, "it is a cutting")
}

fn three_blocks(rt: &impl Abort, alloc: Global) -> Machine {
    let log = parse(alloc, THREE_BLOCKS.as_bytes()).expect(rt, "it is a log");
    let machine = start(alloc, log.base, log.pages, &log.givens, cutting(rt));
    machine.expect(rt, "the lines are safe")
}

fn bytes_of(rt: &impl Abort, alloc: Global, machine: &Machine) -> Vec<u8> {
    encode(alloc, machine).expect(rt, "there is memory")
}

// Writes these bytes from a place on.
fn put(bytes: &mut Vec<u8>, place: usize, new: &[u8]) {
    for (i, byte) in new.iter().enumerate() {
        set(bytes, place.saturating_add(i), *byte);
    }
}

fn set(bytes: &mut Vec<u8>, place: usize, byte: u8) {
    if let Some(at) = bytes.get_mut(place) {
        *at = byte;
    }
}

// The bytes of a machine of so many pages, without a block.
fn empty_bytes(rt: &impl Abort, alloc: Global, pages: u32) -> Vec<u8> {
    let machine = Machine::new(alloc, 0x4000_0000, pages, cutting(rt));
    bytes_of(rt, alloc, &machine.expect(rt, "there is memory"))
}

// Why bytes are refused, if they are.
fn fault_of(rt: &impl Abort, alloc: Global, bytes: &[u8]) -> Option<BytesFault> {
    decode(alloc, cutting(rt), bytes).err()
}

// What is so of the block at the heap's first address.
fn first_kind(rt: &impl Abort, alloc: Global, bytes: &[u8]) -> Option<Kind> {
    let machine = decode(alloc, cutting(rt), bytes).expect(rt, "they are a state's");
    machine.heap().block_of(0x4000_0000).map(|found| found.1)
}

// Why the bytes of that page are refused once others stand from a place on, if they are.
fn fault_with(rt: &impl Abort, alloc: Global, place: usize, new: &[u8]) -> Option<BytesFault> {
    let machine = three_blocks(rt, alloc);
    let mut bytes = bytes_of(rt, alloc, &machine);
    put(&mut bytes, place, new);
    decode(alloc, cutting(rt), &bytes).err()
}

// The head is 13 bytes, a granule 21 (16 of its word, its tag, and 4 of the block that starts there), a register 17 and a
// page 1: granule 16 stands at 13 + 16 * 21 = 349, the registers at 13 + 256 * 21 = 5389, the page at 5389 + 32 * 17 = 5933.
#[test]
fn each_part_of_a_page_stands_at_its_place(rt: HostRuntime) {
    let alloc = rt.alloc();
    let machine = three_blocks(&rt, alloc);
    let mut expected = vec![in alloc; 0; PAGE_BYTES].expect(&rt, "there is memory");
    // The base, one page, and an open epoch.
    put(&mut expected, 0, &[0, 0, 0, 0x40, 0, 0, 0, 0]);
    put(&mut expected, 8, &[1, 0, 0, 0]);
    put(&mut expected, 12, &[1]);
    // Granule 16: a tagged word, and a live block of 32 bytes, 32 + 1.
    put(&mut expected, 349, &PAINTED_WORD);
    put(&mut expected, 365, &[1]);
    put(&mut expected, 366, &[33, 0, 0, 0]);
    // Granule 17 is tagged, and no block starts there.
    put(&mut expected, 370, &WAITING_WORD);
    put(&mut expected, 386, &[1]);
    // Granule 32: 16 bytes that wait, 16 + 2. Granule 48: 64 painted ones, 64 + 3.
    put(&mut expected, 702, &[18, 0, 0, 0]);
    put(&mut expected, 1038, &[67, 0, 0, 0]);
    // Registers 1 to 3.
    put(&mut expected, 5406, &LIVE_WORD);
    put(&mut expected, 5422, &[1]);
    put(&mut expected, 5423, &WAITING_WORD);
    put(&mut expected, 5439, &[1]);
    put(&mut expected, 5440, &PAINTED_WORD);
    put(&mut expected, 5456, &[1]);
    // Tagged words were written into the page.
    put(&mut expected, 5933, &[1]);
    let bytes = bytes_of(&rt, alloc, &machine);
    assert_eq!(rt; bytes.len(), PAGE_BYTES);
    for (i, byte) in expected.iter().enumerate() {
        assert_eq!(rt; bytes.get(i), Some(byte), "byte {i}");
    }
}

#[test]
fn a_state_is_as_long_as_its_pages_ask(rt: HostRuntime) {
    let alloc = rt.alloc();
    for (pages, length) in [(1, 5934), (2, 11_311), (1024, 5_506_605)] {
        let machine = Machine::new(alloc, 0, pages, cutting(&rt)).expect(&rt, "there is memory");
        assert_eq!(rt; bytes_of(&rt, alloc, &machine).len(), length);
    }
}

// ---- states that come back

// Blocks of all three kinds, words in memory and in registers, pages that are dirty and pages that aren't, and two epochs.
const TWO_EPOCHS: [Command; 22] = [
    Command::Malloc { rd: 1, size: 40 },
    Command::Malloc { rd: 2, size: 16 },
    Command::Malloc { rd: 3, size: 5000 },
    Command::StoreCap { ra: 1, rs: 2 },
    Command::StoreCap { ra: 3, rs: 1 },
    Command::Free { rs: 2 },
    Command::Begin,
    Command::Malloc { rd: 4, size: 48 },
    Command::StoreCap { ra: 4, rs: 2 },
    Command::Free { rs: 1 },
    Command::LoadCap { rd: 5, ra: 3 },
    Command::Write {
        ra: 4,
        bytes: [7; 16],
    },
    Command::End,
    Command::Malloc { rd: 6, size: 16 },
    Command::Free { rs: 4 },
    Command::Begin,
    Command::StoreCap { ra: 3, rs: 4 },
    Command::Free { rs: 6 },
    Command::SetAddr {
        rd: 7,
        rs: 3,
        address: 0x4000_0800,
    },
    Command::End,
    Command::Sweep,
    Command::Malloc { rd: 8, size: 1 },
];

fn are_same(rt: &impl Abort, machine: &Machine, again: &Machine) {
    assert_eq!(rt; again.heap().base(), machine.heap().base());
    assert_eq!(rt; again.heap().is_open(), machine.heap().is_open());
    assert_eq!(rt; again.live_bytes(), machine.live_bytes());
    assert_eq!(rt; again.held_bytes(), machine.held_bytes());
    assert_eq!(rt; again.heap().due_bytes(), machine.heap().due_bytes());
    assert_eq!(rt; again.memory().granules(), machine.memory().granules());
    for address in (0x4000_0000..0x4000_2000).step_by(16) {
        let found = machine.heap().block_of(address);
        assert_eq!(rt; again.heap().block_of(address), found, "at {address}");
    }
    for i in 0..again.memory().granules().min(machine.memory().granules()) {
        assert_eq!(rt;
            again.memory().cell(i),
            machine.memory().cell(i),
            "granule {i}"
        );
    }
    for page in 0..again.memory().pages().min(machine.memory().pages()) {
        assert_eq!(rt;
            again.memory().dirty(page),
            machine.memory().dirty(page),
            "page {page}"
        );
    }
    for r in 0..32 {
        assert_eq!(rt;
            again.registers().get(r),
            machine.registers().get(r),
            "register {r}"
        );
    }
}

fn come_back<R: Abort + Threads + Sync>(rt: &R, alloc: Global, commands: &[Command]) {
    let two = Machine::new(alloc, 0x4000_0000, 2, cutting(rt));
    let mut machine = two.expect(rt, "there is memory");
    let mut kinds = [false; 3];
    for command in commands {
        assert!(rt; command.is_valid());
        let reply = machine.step(rt, alloc, *command, &Open);
        assert!(rt; reply.is_ok(), "{command:?}");
        let bytes = bytes_of(rt, alloc, &machine);
        let again = decode(alloc, cutting(rt), &bytes).expect(rt, "they are a state's");
        are_same(rt, &machine, &again);
        assert!(rt; bytes_of(rt, alloc, &again) == bytes, "{command:?}");
        for address in (0x4000_0000..0x4000_2000).step_by(16) {
            note(
                &mut kinds,
                again.heap().block_of(address).map(|found| found.1),
            );
        }
        // What was read goes on.
        machine = again;
    }
    assert_eq!(rt; kinds, [true; 3]);
}

fn note(kinds: &mut [bool; 3], kind: Option<Kind>) {
    match kind {
        Some(Kind::Live) => kinds[0] = true,
        Some(Kind::Waiting) => kinds[1] = true,
        Some(Kind::Painted) => kinds[2] = true,
        None => {}
    }
}

#[test]
fn the_states_of_two_epochs_come_back(rt: HostRuntime) {
    come_back(&rt, rt.alloc(), &TWO_EPOCHS);
}

// ---- other bytes

#[test]
fn bytes_of_another_length_are_refused(rt: HostRuntime) {
    let alloc = rt.alloc();
    let mut bytes = empty_bytes(&rt, alloc, 1);
    assert!(rt; bytes.push(0).is_ok());
    for length in [0, 1, 12, 13, 5388, PAGE_BYTES - 1, PAGE_BYTES + 1] {
        let some = bytes.get(..length).unwrap_or(&[]);
        let fault = fault_of(&rt, alloc, some);
        assert_eq!(rt; fault, Some(BytesFault::Length), "{length} bytes");
    }
}

#[test]
fn each_fault_is_told(rt: HostRuntime) {
    let alloc = rt.alloc();
    // No page, two pages, and a base that is none.
    assert_eq!(rt; fault_with(&rt, alloc, 8, &[0]), Some(BytesFault::Length));
    assert_eq!(rt; fault_with(&rt, alloc, 8, &[2]), Some(BytesFault::Length));
    assert_eq!(rt; fault_with(&rt, alloc, 0, &[16]), Some(BytesFault::Head));
    // Blocks over one another, and past the end.
    assert_eq!(rt;
        fault_with(&rt, alloc, 366, &[1, 2]),
        Some(BytesFault::Blocks)
    );
    assert_eq!(rt;
        fault_with(&rt, alloc, 1038, &[3, 16]),
        Some(BytesFault::Blocks)
    );
    // A tagged word without its block, and one of a painted block in a clean page.
    assert_eq!(rt; fault_with(&rt, alloc, 366, &[0]), Some(BytesFault::Words));
    assert_eq!(rt; fault_with(&rt, alloc, 702, &[0]), Some(BytesFault::Words));
    assert_eq!(rt; fault_with(&rt, alloc, 5933, &[0]), Some(BytesFault::Words));
    // A kind that is none, flags that are none, and a register 0 that isn't null.
    assert_eq!(rt;
        fault_with(&rt, alloc, 1500, &[4]),
        Some(BytesFault::Spelling)
    );
    assert_eq!(rt; fault_with(&rt, alloc, 5933, &[3]), Some(BytesFault::Words));
    assert_eq!(rt;
        fault_with(&rt, alloc, 407, &[2]),
        Some(BytesFault::Spelling)
    );
    assert_eq!(rt;
        fault_with(&rt, alloc, 5389, &[1]),
        Some(BytesFault::Spelling)
    );
    assert_eq!(rt;
        fault_with(&rt, alloc, 5405, &[1]),
        Some(BytesFault::Spelling)
    );
    // Untagged bytes may be any.
    assert_eq!(rt; fault_with(&rt, alloc, 391, &[1, 2, 3]), None);
    assert_eq!(rt; fault_with(&rt, alloc, 5474, &[9]), None);
}

// A block that is painted, without an epoch, in one, and with a flag that is none.
#[test]
fn painted_blocks_ask_for_an_open_epoch(rt: HostRuntime) {
    let alloc = rt.alloc();
    let mut bytes = empty_bytes(&rt, alloc, 1);
    put(&mut bytes, 30, &[19]);
    assert_eq!(rt; fault_of(&rt, alloc, &bytes), Some(BytesFault::Spelling));
    put(&mut bytes, 12, &[1]);
    assert_eq!(rt; first_kind(&rt, alloc, &bytes), Some(Kind::Painted));
    put(&mut bytes, 12, &[2]);
    assert_eq!(rt; fault_of(&rt, alloc, &bytes), Some(BytesFault::Spelling));
}

// A block of 20,480 bytes starts at a multiple of 32: from 2^14 bytes on, bounds are held in steps of that.
#[test]
fn blocks_have_bounds_that_a_capability_can_hold(rt: HostRuntime) {
    let alloc = rt.alloc();
    let mut odd = empty_bytes(&rt, alloc, 8);
    put(&mut odd, 51, &[1, 0x50]);
    assert_eq!(rt; fault_of(&rt, alloc, &odd), Some(BytesFault::Blocks));
    let mut even = empty_bytes(&rt, alloc, 8);
    put(&mut even, 30, &[1, 0x50]);
    assert_eq!(rt; first_kind(&rt, alloc, &even), Some(Kind::Live));
    put(&mut even, 30, &[0, 0]);
    put(&mut even, 72, &[1, 0x50]);
    assert_eq!(rt; fault_of(&rt, alloc, &even), None);
}

// One bit changed in each of 200 bytes: what isn't refused is the state that the new bytes tell of. Refused are one in the
// head, 9 of tags, 35 of blocks' numbers, one of register 0, one of the tag of register 2, and of two in tagged words the
// one that moves its address out of the heap. 138 are in granules and 13 in registers without a tag.
#[test]
fn changed_bytes_are_refused_or_are_another_state(rt: HostRuntime) {
    let alloc = rt.alloc();
    let machine = three_blocks(&rt, alloc);
    let mut refused = 0u32;
    for k in 0..200usize {
        let mut bytes = bytes_of(&rt, alloc, &machine);
        let place = k * 37 % PAGE_BYTES;
        let change = 1 << (k % 8);
        put_changed(&mut bytes, place, change);
        match decode(alloc, cutting(&rt), &bytes) {
            Ok(other) => assert!(rt; bytes_of(&rt, alloc, &other) == bytes, "byte {place}"),
            Err(_) => refused = refused.saturating_add(1),
        }
    }
    assert_eq!(rt; refused, 48);
}

fn put_changed(bytes: &mut Vec<u8>, place: usize, change: u8) {
    if let Some(at) = bytes.get_mut(place) {
        *at ^= change;
    }
}

// ---- want of memory

// Run with each allocation refused in turn.
#[test]
fn a_refused_allocation_of_bytes_is_told(rt: HostRuntime) {
    let alloc = rt.alloc();
    let cutting = cutting(&rt);
    let Ok(machine) = Machine::new(alloc, 0x4000_0000, 1, cutting) else {
        return;
    };
    let Ok(bytes) = encode(alloc, &machine) else {
        return;
    };
    match decode(alloc, cutting, &bytes) {
        Ok(again) => assert_eq!(rt; again.free_bytes(), 4096),
        Err(why) => assert_eq!(rt; why, BytesFault::Memory),
    }
}
