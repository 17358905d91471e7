//! Logs, and what is said of them.

use crate::givens::three_blocks;
use crate::machine::sweeps::sums;
use agreed_log::agreed;
use heap_log::{
    Difference, DueWord, Tally, Verdict, due_words, follow_event, freed_line, given_line,
    handed_out_line, judge,
};
use heap_machine::{Alone, Block, Machine, MachineFault, Obstacle, Reply, Stepper, Why, Workers};
use log_text::{Event, parse};
use std::alloc::Global;
use std::process::Abort;
use std::thread::Threads;
use sweep_pool::{Cutting, Open};
use trace_text::Command;

fn judged<R: Abort + Threads + Sync>(rt: &R, alloc: Global, text: &[u8]) -> Verdict {
    judged_by(rt, &Workers { rt }, alloc, text)
}

fn judged_by<R: Abort, S: Stepper>(rt: &R, stepper: &S, alloc: Global, text: &[u8]) -> Verdict
    requires ready { S.ready }
{
    let log = parse(alloc, text).expect(rt, "it is a log");
    let cutting = Cutting::new(1, 16).expect(rt, "it is a cutting");
    let mut machine = Machine::new(alloc, log.base, log.pages, cutting).expect(
        rt,
        "there is memory",
    );
    assert!(rt; log.events.len() < 1 << 24);
    judge(stepper, alloc, &mut machine, &log.events).expect(rt, "there is memory")
}

fn agrees(commands: u32, blocks: u32, passes: u32, tags: u64) -> Verdict {
    Verdict::Agrees(Tally {
        tags,
        commands,
        blocks,
        passes,
    })
}

#[test]
fn a_block_that_waits_is_handed_out(rt: HostRuntime) {
    let text = b"heap 0x40000000 16
malloc c1 20 -> block 0x40000100 0x40000120
free c1 -> held 32
malloc c2 16 -> block 0x40000100 0x40000110
sweep -> trap open
";
    let over = Block {
        base: 0x4000_0100,
        top: 0x4000_0120,
    };
    let verdict = judged(&rt, rt.alloc(), text);
    assert_eq!(rt;
        verdict,
        Verdict::Differs {
            line: 4,
            count: 2,
            difference: Difference::Answer(Why::Refused(Obstacle::OverHeld(over))),
        }
    );
}

#[test]
fn a_log_agrees(rt: HostRuntime) {
    let text = b"heap 0x40000000 16
malloc c1 20 -> block 0x40000100 0x40000120
write c1 000102030405060708090a0b0c0d0e0f -> ok
granule 0x40000100 -> 0 000102030405060708090a0b0c0d0e0f
storecap c1 c1 -> ok
free c1 -> held 32

# both words that lead into the block lose their tags
malloc c2 16 -> block 0x40000110 0x40000120 swept 2
malloc c3 65536 -> nospace
sweep -> cleared 0 released 0
begin -> cleared 0
malloc c4 16 -> block 0x40000100 0x40000110
end -> cleared 0 released 0
";
    let verdict = judged(&rt, rt.alloc(), text);
    assert_eq!(rt; verdict, agrees(10, 3, 4, 2));
}

#[test]
fn a_log_without_events_agrees(rt: HostRuntime) {
    let verdict = judged(&rt, rt.alloc(), b"heap 0x40000000 16\n");
    assert_eq!(rt; verdict, agrees(0, 0, 0, 0));
}

#[test]
fn granules_are_as_they_were_seen(rt: HostRuntime) {
    let text = b"heap 0x40000000 16
granule 0x40000000 -> 0 00000000000000000000000000000000
granule 0x4000fff0 -> 0 00000000000000000000000000000000
";
    let verdict = judged(&rt, rt.alloc(), text);
    assert_eq!(rt; verdict, agrees(0, 0, 0, 0));
}

#[test]
fn granules_are_not_as_they_were_seen(rt: HostRuntime) {
    let alloc = rt.alloc();
    let other = Difference::Granule {
        tag: false,
        bytes: [0; 16],
    };
    let rows = [
        (
            b"heap 0x40000000 16\ngranule 0x40000010 -> 1 00000000000000000000000000000000\n",
            other,
        ),
        (
            b"heap 0x40000000 16\ngranule 0x4000fff0 -> 0 00000000000000000000000000000001\n",
            other,
        ),
        (
            b"heap 0x40000000 16\ngranule 0x3ffffff0 -> 0 00000000000000000000000000000000\n",
            Difference::NoGranule,
        ),
        (
            b"heap 0x40000000 16\ngranule 0x40010000 -> 0 00000000000000000000000000000000\n",
            Difference::NoGranule,
        ),
        (
            b"heap 0x40000000 16\ngranule 0x40000008 -> 0 00000000000000000000000000000000\n",
            Difference::NoGranule,
        ),
    ];
    for (text, difference) in rows {
        let verdict = judged(&rt, alloc, text);
        assert_eq!(rt;
            verdict,
            Verdict::Differs {
                line: 2,
                count: 0,
                difference,
            }
        );
    }
}

// The words of a block that waits are due for a sweep, and where an epoch is open, those of the painted ones instead.
#[test]
fn words_are_due(rt: HostRuntime) {
    let alloc = rt.alloc();
    let mut machine = three_blocks(&rt, alloc);
    let painted = 0x4000_0300;
    let register = DueWord::Register {
        register: 3,
        base: painted,
    };
    let granule = DueWord::Granule {
        address: 0x4000_0100,
        base: painted,
    };
    let all = due_words(alloc, &machine, true).expect(&rt, "there is memory");
    assert_eq!(rt; all.as_slice(), [register, granule].as_slice());
    let stored = due_words(alloc, &machine, false).expect(&rt, "there is memory");
    assert_eq!(rt; stored.as_slice(), [granule].as_slice());
    machine
        .step(&rt, alloc, Command::End, &Open)
        .expect(&rt, "there is memory");
    let waits = 0x4000_0200;
    let register = DueWord::Register {
        register: 2,
        base: waits,
    };
    let granule = DueWord::Granule {
        address: 0x4000_0110,
        base: waits,
    };
    let all = due_words(alloc, &machine, true).expect(&rt, "there is memory");
    assert_eq!(rt; all.as_slice(), [register, granule].as_slice());
    let stored = due_words(alloc, &machine, false).expect(&rt, "there is memory");
    assert_eq!(rt; stored.as_slice(), [granule].as_slice());
    machine
        .step(&rt, alloc, Command::Sweep, &Open)
        .expect(&rt, "there is memory");
    let none = due_words(alloc, &machine, true).expect(&rt, "there is memory");
    assert_eq!(rt; none.len(), 0);
}

// Where a capability was narrowed, its own base is told, and not that of the block.
#[test]
fn a_narrowed_word_is_told_with_its_own_base(rt: HostRuntime) {
    let alloc = rt.alloc();
    let mut machine = three_blocks(&rt, alloc);
    machine
        .step(&rt, alloc, Command::Free { rs: 1 }, &Open)
        .expect(&rt, "there is memory");
    machine
        .step(&rt, alloc, Command::End, &Open)
        .expect(&rt, "there is memory");
    let words = due_words(alloc, &machine, true).expect(&rt, "there is memory");
    let freed = DueWord::Register {
        register: 1,
        base: 0x4000_0100,
    };
    let waits = DueWord::Register {
        register: 2,
        base: 0x4000_0200,
    };
    let within = DueWord::Granule {
        address: 0x4000_0110,
        base: 0x4000_0200,
    };
    let last = DueWord::Granule {
        address: 0x4000_fff0,
        base: 0x4000_0110,
    };
    assert_eq!(rt; words.as_slice(), [freed, waits, within, last].as_slice());
}

// A block that is freed, swept, handed out again and freed again, and one after a pass of a malloc.
const TWICE: &[u8] = b"heap 0x40000000 16
malloc c1 20 -> block 0x40000100 0x40000120
free c1 -> held 32
sweep -> cleared 1 released 32
malloc c2 20 -> block 0x40000100 0x40000120
malloc c3 16 -> block 0x40000120 0x40000130
free c2 -> held 32
free c3 -> held 16

free c2 -> trap freed
malloc c4 16 -> block 0x40000100 0x40000110 swept 2
";

const SHORT: Block = Block {
    base: 0x4000_0100,
    top: 0x4000_0110,
};

const LONG: Block = Block {
    base: 0x4000_0100,
    top: 0x4000_0120,
};

const AFTER: Block = Block {
    base: 0x4000_0120,
    top: 0x4000_0130,
};

#[test]
fn the_last_event_that_hands_out_a_block_is_found(rt: HostRuntime) {
    let log = parse(rt.alloc(), TWICE).expect(&rt, "it is a log");
    let never = Block {
        base: 0x4000_0110,
        top: 0x4000_0120,
    };
    let rows = [
        (LONG, Some(5)),
        (AFTER, Some(6)),
        (SHORT, Some(11)),
        (never, None),
    ];
    for (block, line) in rows {
        assert_eq!(rt; handed_out_line(&log.events, block), line);
    }
}

#[test]
fn the_first_line_that_gives_a_block_is_found(rt: HostRuntime) {
    let text = b"heap 0x40000000 16
given epoch
given register c1 0 00010040000000000481490400003d00
given painted 0x40000120 0x40000130

given waiting 0x40000100 0x40000110
given live 0x40000100 0x40000120
given live 0x40000100 0x40000110
";
    let log = parse(rt.alloc(), text).expect(&rt, "it is a log");
    let never = Block {
        base: 0x4000_0100,
        top: 0x4000_0130,
    };
    let rows = [
        (AFTER, Some(4)),
        (SHORT, Some(6)),
        (LONG, Some(7)),
        (never, None),
    ];
    for (block, line) in rows {
        assert_eq!(rt; given_line(&log.givens, block), line);
    }
}

// The line of the last event of a log without given lines that frees the block, where the log agrees.
fn freed_at<R: Abort + Threads + Sync>(
    rt: &R,
    alloc: Global,
    text: &[u8],
    block: Block,
) -> Option<Option<u32>> {
    let log = parse(alloc, text).expect(rt, "it is a log");
    let cutting = Cutting::new(1, 16).expect(rt, "it is a cutting");
    let mut judging = Machine::new(alloc, log.base, log.pages, cutting).expect(
        rt,
        "there is memory",
    );
    let mut machine = Machine::new(alloc, log.base, log.pages, cutting).expect(
        rt,
        "there is memory",
    );
    assert!(rt; log.events.len() < 1 << 24);
    match judge(&Workers { rt }, alloc, &mut judging, &log.events) {
        Ok(Verdict::Agrees(_)) => {
            let found = freed_line(&Workers { rt }, alloc, &mut machine, &log.events, block);
            Some(found.expect(rt, "there is memory"))
        }
        _ => None,
    }
}

#[test]
fn the_last_event_that_frees_a_block_is_found(rt: HostRuntime) {
    let rows = [(LONG, Some(7)), (AFTER, Some(8)), (SHORT, None)];
    for (block, line) in rows {
        assert_eq!(rt; freed_at(&rt, rt.alloc(), TWICE, block), Some(line));
    }
}

// Four events, of which the last alone takes memory.
const SWEPT: &[u8] = b"heap 0x40000000 16
malloc c1 20 -> block 0x40000100 0x40000120
storecap c1 c1 -> ok
free c1 -> held 32
sweep -> cleared 2 released 32
";

// The same with another number of tags.
const MISCOUNTED: &[u8] = b"heap 0x40000000 16
malloc c1 20 -> block 0x40000100 0x40000120
storecap c1 c1 -> ok
free c1 -> held 32
sweep -> cleared 1 released 32
";

// The calling thread alone says of a log what threads say, also where it makes a pass.
#[test]
fn a_log_is_judged_alone_as_by_threads(rt: HostRuntime) {
    let alloc = rt.alloc();
    assert_eq!(rt; judged_by(&rt, &Alone, alloc, SWEPT), agrees(4, 1, 1, 2));
    assert_eq!(rt; judged(&rt, alloc, SWEPT), agrees(4, 1, 1, 2));
    let differs = Verdict::Differs {
        line: 5,
        count: 3,
        difference: Difference::Answer(Why::MustBe(Reply::Swept {
            cleared: 2,
            released: 32,
        })),
    };
    assert_eq!(rt; judged_by(&rt, &Alone, alloc, MISCOUNTED), differs);
    assert_eq!(rt; judged(&rt, alloc, MISCOUNTED), differs);
}

// In one pass over the text too.
#[test]
fn a_log_is_found_alone(rt: HostRuntime) {
    let alloc = rt.alloc();
    let cutting = Cutting::new(1, 16).expect(&rt, "it is a cutting");
    let tally = Tally {
        tags: 2,
        commands: 4,
        blocks: 1,
        passes: 1,
    };
    assert_eq!(rt; agreed(&Alone, alloc, SWEPT, cutting), Some(tally));
    assert_eq!(rt; agreed(&Alone, alloc, MISCOUNTED, cutting), None);
}

// Run with each allocation refused in turn: a machine whose sweep is refused is as the events before it leave it, and does the
// sweep when it is asked for again.
#[test]
fn a_refused_allocation_of_a_judged_log_leaves_the_events_before(rt: HostRuntime) {
    let alloc = rt.alloc();
    let Ok(log) = parse(alloc, SWEPT) else {
        return;
    };
    let cutting = Cutting::new(1, 16).expect(&rt, "it is a cutting");
    let Ok(mut machine) = Machine::new(alloc, log.base, log.pages, cutting) else {
        return;
    };
    assert!(rt; log.events.len() < 1 << 24);
    let stepper = Workers { rt: &rt };
    let verdict = judge(&stepper, alloc, &mut machine, &log.events);
    if verdict == Err(MachineFault::Memory) {
        assert_eq!(rt; sums(&machine), (1, 1, 0, 32, 65_504));
        let sweep = Event::Done {
            command: Command::Sweep,
            answer: Reply::Swept {
                cleared: 2,
                released: 32,
            },
        };
        assert_eq!(rt;
            follow_event(&stepper, alloc, &mut machine, sweep),
            Ok(None)
        );
    } else {
        assert_eq!(rt; verdict, Ok(agrees(4, 1, 1, 2)));
    }
    assert_eq!(rt; sums(&machine), (0, 0, 0, 0, 65_536));
}
