//! Machines in the state that given lines tell of, and what other lines lack.

use cap_codec::from_bytes;
use given_state::{Lack, StartFault, start};
use heap_machine::{Block, Kind, Machine, Obstacle, Reply, Trap};
use log_text::parse;
use std::alloc::Global;
use std::process::Abort;
use sweep_pool::{Cutting, Open};
use trace_text::Command;

fn started(rt: &impl Abort, alloc: Global, text: &str) -> Result<Machine, StartFault> {
    let log = parse(alloc, text.as_bytes()).expect(rt, "it is a log");
    let cutting = Cutting::new(1, 16).expect(rt, "it is a cutting");
    start(alloc, log.base, log.pages, &log.givens, cutting)
}

// The machine that lines tell of, with a live block at 0x40000100, one of 16 bytes that waits at 0x40000200, and a painted
// one at 0x40000300, each with its words in registers and in memory.
pub(crate) fn three_blocks(rt: &impl Abort, alloc: Global) -> Machine {
    let text = "heap 0x40000000 16
given register c3 1 00030040000000000483d10400003d00
given live 0x40000100 0x40000120
given waiting 0x40000200 0x40000210
given painted 0x40000300 0x40000340
given register c1 1 00010040000000000481490400003d00
given register c2 1 00020040000000000482850400003d00
given granule 0x40000100 1 00030040000000000483d10400003d00
given granule 0x40000110 1 00020040000000000482850400003d00
given granule 0x4000fff0 1 10010040000000001481490400003d00
";
    let machine = started(rt, alloc, text);
    machine.expect(rt, "the lines are safe")
}

#[test]
fn blocks_are_of_the_given_kinds(rt: HostRuntime) {
    let machine = three_blocks(&rt, rt.alloc());
    let heap = machine.heap();
    let live = Block {
        base: 0x4000_0100,
        top: 0x4000_0120,
    };
    let waits = Block {
        base: 0x4000_0200,
        top: 0x4000_0210,
    };
    let painted = Block {
        base: 0x4000_0300,
        top: 0x4000_0340,
    };
    assert_eq!(rt; heap.block_of(0x4000_011f), Some((live, Kind::Live)));
    assert_eq!(rt; heap.block_of(0x4000_0200), Some((waits, Kind::Waiting)));
    assert_eq!(rt; heap.block_of(0x4000_0300), Some((painted, Kind::Painted)));
    assert_eq!(rt; heap.block_of(0x4000_0120), None);
    assert!(rt; heap.is_open());
    assert_eq!(rt; machine.live_bytes(), 32);
    assert_eq!(rt; machine.held_bytes(), 80);
}

#[test]
fn words_are_where_they_were_given(rt: HostRuntime) {
    let machine = three_blocks(&rt, rt.alloc());
    let first = [0, 1, 0, 0x40, 0, 0, 0, 0, 4, 0x81, 0x49, 4, 0, 0, 0x3d, 0];
    let inside = [
        0x10, 1, 0, 0x40, 0, 0, 0, 0, 0x14, 0x81, 0x49, 4, 0, 0, 0x3d, 0,
    ];
    let painted = [0, 3, 0, 0x40, 0, 0, 0, 0, 4, 0x83, 0xd1, 4, 0, 0, 0x3d, 0];
    assert_eq!(rt; machine.registers().get(1), (from_bytes(first), true));
    assert_eq!(rt; machine.registers().get(3), (from_bytes(painted), true));
    assert_eq!(rt; machine.registers().get(4), (from_bytes([0; 16]), false));
    let memory = machine.memory();
    assert_eq!(rt; memory.granules(), 4096);
    assert_eq!(rt; memory.cell(16), (from_bytes(painted).bits, true));
    assert_eq!(rt; memory.cell(4095), (from_bytes(inside).bits, true));
    assert_eq!(rt; memory.tagged(), 3);
}

#[test]
fn the_given_epoch_ends(rt: HostRuntime) {
    let alloc = rt.alloc();
    let mut machine = three_blocks(&rt, alloc);
    // Register 3 and the granule at 0x40000100 have words of the painted block.
    let ended = machine.step(&rt, alloc, Command::End, &Open);
    let taken = Reply::Swept {
        cleared: 2,
        released: 64,
    };
    assert_eq!(rt; ended, Ok(taken));
    // Register 2 and the granule at 0x40000110 have words of the block that waits.
    let swept = machine.step(&rt, alloc, Command::Sweep, &Open);
    let others = Reply::Swept {
        cleared: 2,
        released: 16,
    };
    assert_eq!(rt; swept, Ok(others));
    let freed = machine.step(&rt, alloc, Command::Free { rs: 1 }, &Open);
    assert_eq!(rt; freed, Ok(Reply::Held(32)));
}

#[test]
fn an_epoch_is_open_without_painted_blocks(rt: HostRuntime) {
    let alloc = rt.alloc();
    let text = "heap 0x40000000 16\ngiven epoch\ngiven waiting 0x40000200 0x40000210\n";
    let mut machine = started(&rt, alloc, text).expect(&rt, "the lines are safe");
    let begun = machine.step(&rt, alloc, Command::Begin, &Open);
    assert_eq!(rt; begun, Ok(Reply::Trap(Trap::Open)));
    let ended = machine.step(&rt, alloc, Command::End, &Open);
    let nothing = Reply::Swept {
        cleared: 0,
        released: 0,
    };
    assert_eq!(rt; ended, Ok(nothing));
    assert_eq!(rt; machine.held_bytes(), 16);
}

#[test]
fn without_lines_nothing_is_given(rt: HostRuntime) {
    let alloc = rt.alloc();
    let mut machine = started(&rt, alloc, "heap 0x40000000 16\n").expect(&rt, "there is memory");
    assert_eq!(rt; machine.live_bytes(), 0);
    assert_eq!(rt; machine.held_bytes(), 0);
    assert_eq!(rt; machine.memory().tagged(), 0);
    let ended = machine.step(&rt, alloc, Command::End, &Open);
    assert_eq!(rt; ended, Ok(Reply::Trap(Trap::NotOpen)));
}

#[test]
fn given_words_are_held(rt: HostRuntime) {
    let text = "heap 0x40000000 16
given live 0x40000100 0x40000120
given register c1 0 ffffffffffffffffffffffffffffffff
given granule 0x40000100 1 10010040000000001481490400003d00
given register c0 0 00000000000000000000000000000000
";
    let machine = started(&rt, rt.alloc(), text).expect(&rt, "the lines are safe");
    let inside = [
        0x10, 1, 0, 0x40, 0, 0, 0, 0, 0x14, 0x81, 0x49, 4, 0, 0, 0x3d, 0,
    ];
    assert_eq!(rt; machine.registers().get(0), (from_bytes([0; 16]), false));
    assert_eq!(rt; machine.registers().get(1), (from_bytes([0xff; 16]), false));
    assert_eq!(rt; machine.memory().granules(), 4096);
    assert_eq!(rt; machine.memory().cell(16), (from_bytes(inside).bits, true));
}

#[test]
fn blocks_that_may_not_lie_there(rt: HostRuntime) {
    let other = Obstacle::OverLive(Block {
        base: 0x4000_0100,
        top: 0x4000_0120,
    });
    let rows = [
        (
            "given live 0x40000100 0x40000120\ngiven live 0x40000100 0x40000120\n",
            3,
            other,
        ),
        (
            "given waiting 0x40000100 0x40000120\ngiven painted 0x40000100 0x40000120\n",
            3,
            other,
        ),
        (
            "given epoch\ngiven painted 0x40000100 0x40000120\n\ngiven live 0x40000110 0x40000130\n",
            5,
            other,
        ),
        ("given live 0x40000108 0x40000120\n", 2, Obstacle::Uneven),
        ("given waiting 0x40000100 0x40000118\n", 2, Obstacle::Uneven),
        ("given painted 0x40000100 0x40000100\n", 2, Obstacle::Empty),
        ("given live 0x3ffffff0 0x40000010\n", 2, Obstacle::Outside),
        ("given live 0x4000fff0 0x40010010\n", 2, Obstacle::Outside),
        // 16,400 bytes are held in units of 32.
        ("given live 0x40000410 0x40004420\n", 2, Obstacle::Inexact),
    ];
    for (lines, line, reason) in rows {
        let text = format!(in rt.alloc(); "heap 0x40000000 16\n{lines}");
        let text = text.expect(&rt, "there is memory");
        let fault = started(&rt, rt.alloc(), &text).err();
        let lack = Lack::Block(reason);
        assert_eq!(rt; fault, Some(StartFault::Unsafe { line, lack }), "{lines:?}");
    }
}

#[test]
fn words_that_may_not_be_held(rt: HostRuntime) {
    let live = Lack::Unguarded {
        base: 0x4000_0100,
        top: 0x4000_0120,
    };
    let rows = [
        // No block lies there.
        (
            "given register c1 1 00010040000000000481490400003d00\n",
            2,
            live,
        ),
        (
            "given granule 0x40000000 1 00010040000000000481490400003d00\n",
            2,
            live,
        ),
        // Register 0 is null, whatever a block guards.
        (
            "given live 0x40000100 0x40000120\ngiven register c0 1 00010040000000000481490400003d00\n",
            3,
            Lack::NotNull,
        ),
        (
            "given register c0 1 00000000000000000000000000000000\n",
            2,
            Lack::NotNull,
        ),
        (
            "given register c0 0 00000000000000000000000000000001\n",
            2,
            Lack::NotNull,
        ),
        // The word's bounds end past the block.
        (
            "given live 0x40000100 0x40000110\ngiven register c1 1 00010040000000000481490400003d00\n",
            3,
            live,
        ),
        // They begin before it.
        (
            "given live 0x40000110 0x40000120\ngiven register c1 1 00010040000000000481490400003d00\n",
            3,
            live,
        ),
        // They are empty.
        (
            "given live 0x40000100 0x40000120\ngiven register c1 1 10010040000000001481450400003d00\n",
            3,
            Lack::Unguarded {
                base: 0x4000_0110,
                top: 0x4000_0110,
            },
        ),
        // They are those of all addresses.
        (
            "given live 0x40000000 0x40000020\ngiven register c1 1 00000000000000000000000000000000\n",
            3,
            Lack::Unguarded {
                base: 0,
                top: 1 << 64,
            },
        ),
        (
            "given granule 0x3ffffff0 0 00000000000000000000000000000000\n",
            2,
            Lack::NoGranule,
        ),
        (
            "given granule 0x40010000 1 00010040000000000481490400003d00\n",
            2,
            Lack::NoGranule,
        ),
        (
            "given granule 0x40000008 0 00000000000000000000000000000000\n",
            2,
            Lack::NoGranule,
        ),
    ];
    for (lines, line, lack) in rows {
        let text = format!(in rt.alloc(); "heap 0x40000000 16\n{lines}");
        let text = text.expect(&rt, "there is memory");
        let fault = started(&rt, rt.alloc(), &text).err();
        assert_eq!(rt; fault, Some(StartFault::Unsafe { line, lack }), "{lines:?}");
    }
}

#[test]
fn words_are_given_once(rt: HostRuntime) {
    let first = Lack::RegisterAgain {
        register: 31,
        line: 2,
    };
    let granule = Lack::GranuleAgain {
        address: 0x4000_0010,
        line: 3,
    };
    let nowhere = Lack::GranuleAgain {
        address: 1,
        line: 2,
    };
    let rows = [
        // The same once more, and another word.
        (
            "given register c31 0 00000000000000000000000000000000\ngiven register c31 0 00000000000000000000000000000000\n",
            3,
            first,
        ),
        (
            "given register c31 1 00010040000000000481490400003d00\n\ngiven register c1 0 00000000000000000000000000000000\ngiven register c31 0 00000000000000000000000000000000\n",
            5,
            first,
        ),
        // The number of a register is that of no granule.
        (
            "given register c16 0 00000000000000000000000000000000\ngiven granule 0x40000010 0 00000000000000000000000000000000\ngiven granule 0x10 0 00000000000000000000000000000000\ngiven granule 0x40000010 1 00010040000000000481490400003d00\n",
            5,
            granule,
        ),
        // It is told before what a word lacks, and the first line of three is.
        (
            "given granule 1 0 00000000000000000000000000000000\ngiven granule 1 0 00000000000000000000000000000000\ngiven granule 1 0 00000000000000000000000000000000\n",
            3,
            nowhere,
        ),
        (
            "given register c31 1 00010040000000000481490400003d00\ngiven register c0 1 00000000000000000000000000000000\ngiven register c31 0 00000000000000000000000000000000\ngiven register c31 0 00000000000000000000000000000000\n",
            4,
            first,
        ),
    ];
    for (lines, line, lack) in rows {
        let text = format!(in rt.alloc(); "heap 0x40000000 16\n{lines}");
        let text = text.expect(&rt, "there is memory");
        let fault = started(&rt, rt.alloc(), &text).err();
        assert_eq!(rt; fault, Some(StartFault::Unsafe { line, lack }), "{lines:?}");
    }
}

#[test]
fn blocks_are_judged_before_words(rt: HostRuntime) {
    let text = "heap 0x40000000 16
given granule 0x40010000 0 00000000000000000000000000000000
given register c1 1 00010040000000000481490400003d00
given live 0x40000100 0x40000118
";
    let fault = started(&rt, rt.alloc(), text).err();
    let block = StartFault::Unsafe {
        line: 4,
        lack: Lack::Block(Obstacle::Uneven),
    };
    assert_eq!(rt; fault, Some(block));
    // The block of a later line guards the word of an earlier one.
    let text = "heap 0x40000000 16
given register c1 1 00010040000000000481490400003d00
given granule 0x40010000 0 00000000000000000000000000000000
given live 0x40000100 0x40000120
";
    let fault = started(&rt, rt.alloc(), text).err();
    let granule = StartFault::Unsafe {
        line: 3,
        lack: Lack::NoGranule,
    };
    assert_eq!(rt; fault, Some(granule));
}
