//! Memories with their images.

use cap_codec::from_bytes;
use heap_trace::{MachineFault, image_text};
use tag_memory::Memory;

#[test]
fn a_new_memory_has_an_empty_image(rt: HostRuntime) {
    let memory = Memory::new(rt.alloc(), 0x4000_0000, 1).expect(&rt, "there is memory");
    let image = image_text(rt.alloc(), &memory).expect(&rt, "there is memory");
    assert!(rt; image.is_empty());
}

#[test]
fn bytes_are_shown_in_the_order_of_memory(rt: HostRuntime) {
    let mut memory = Memory::new(rt.alloc(), 0x4000_0000, 1).expect(&rt, "there is memory");
    let word = from_bytes([0, 1, 2, 3, 4, 5, 6, 7, 8, 9, 10, 11, 12, 13, 14, 15]);
    memory.put(0, word.bits, false);
    let image = image_text(rt.alloc(), &memory).expect(&rt, "there is memory");
    let line = "0x40000000 0 000102030405060708090a0b0c0d0e0f\n";
    assert_eq!(rt; image.as_slice(), line.as_bytes());
}

#[test]
fn a_tagged_zero_granule_has_a_line(rt: HostRuntime) {
    let mut memory = Memory::new(rt.alloc(), 0x4000_0000, 1).expect(&rt, "there is memory");
    memory.put(255, 0, true);
    let image = image_text(rt.alloc(), &memory).expect(&rt, "there is memory");
    let line = "0x40000ff0 1 00000000000000000000000000000000\n";
    assert_eq!(rt; image.as_slice(), line.as_bytes());
}

#[test]
fn lines_rise_up_to_the_last_address(rt: HostRuntime) {
    let mut memory = Memory::new(rt.alloc(), 0xffff_ffff_ffff_f000, 1).expect(
        &rt,
        "there is memory",
    );
    memory.put(255, 1, false);
    memory.put(1, 1 << 127, true);
    memory.put(2, 7, true);
    memory.put(2, 0, false);
    let image = image_text(rt.alloc(), &memory).expect(&rt, "there is memory");
    let lines = "0xfffffffffffff010 1 00000000000000000000000000000080\n\
                 0xfffffffffffffff0 0 01000000000000000000000000000000\n";
    assert_eq!(rt; image.as_slice(), lines.as_bytes());
}

// Run with each allocation refused in turn, too.
#[test]
fn a_refused_allocation_of_an_image_is_told(rt: HostRuntime) {
    let Ok(mut memory) = Memory::new(rt.alloc(), 0, 1) else {
        return;
    };
    memory.put(0, 0x1234, true);
    memory.put(9, 5, false);
    let lines = "0x0 1 34120000000000000000000000000000\n\
                 0x90 0 05000000000000000000000000000000\n";
    match image_text(rt.alloc(), &memory) {
        Ok(image) => assert_eq!(rt; image.as_slice(), lines.as_bytes()),
        Err(fault) => assert_eq!(rt; fault, MachineFault::Memory),
    }
}
