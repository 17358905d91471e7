//! A revoker with a barrier at loads, with replies worked out by hand.

use crate::heap::machine_before_an_epoch;
use heap_machine::{Alone, Reply, Trap};
use revokers::{Barrier, Finished, MOST_ACTS, Reloaded, Stepped};
use trace_text::Command;

// A load into register 3, by this register.
fn load(ra: u8) -> Command {
    Command::LoadCap { rd: 3, ra }
}

// What is answered where the barrier visits a page.
fn after_a_visit(page: u32, cleared: u32) -> Stepped {
    Stepped {
        barrier: Some(Barrier { page, cleared }),
        reply: Reply::Done,
    }
}

// And where it does nothing.
fn at_once(reply: Reply) -> Stepped {
    Stepped {
        barrier: None,
        reply,
    }
}

#[test]
fn a_page_is_visited_before_a_load_from_it(rt: HostRuntime) {
    let alloc = rt.alloc();
    let machine = machine_before_an_epoch(alloc).expect(&rt, "there is memory");
    let mut revoker = Reloaded::new(alloc, machine).expect(&rt, "there is memory");
    let mut acts = Vec::with_capacity(alloc, MOST_ACTS).expect(&rt, "there is memory");
    acts.clear();
    assert_eq!(rt; revoker.start(&mut acts), Some(1));
    acts.clear();
    assert_eq!(rt; revoker.start(&mut acts), None);
    assert!(rt; !revoker.machine().registers().get(1).1);
    for (command, wanted) in [
        // Register 5's block begins on page 0, and the load is from page 1.
        (load(5), after_a_visit(1, 1)),
        (load(5), at_once(Reply::Done)),
        (load(1), at_once(Reply::Trap(Trap::Tag))),
        (Command::StoreCap { ra: 2, rs: 2 }, at_once(Reply::Done)),
        (load(2), after_a_visit(0, 0)),
    ] {
        assert!(rt; command.is_valid());
        assert_eq!(rt;
            revoker.step(&Alone, alloc, command),
            Ok(wanted),
            "{command:?}"
        );
    }
    assert!(rt; revoker.machine().registers().get(3).1);
    let finished = Finished {
        cleared: 0,
        bytes: 32,
    };
    acts.clear();
    assert_eq!(rt; revoker.finish(&mut acts), Some(finished));
    acts.clear();
    assert_eq!(rt; revoker.finish(&mut acts), None);
}

#[test]
fn pages_that_were_not_seen_are_visited_at_the_end(rt: HostRuntime) {
    let alloc = rt.alloc();
    let machine = machine_before_an_epoch(alloc).expect(&rt, "there is memory");
    let mut revoker = Reloaded::new(alloc, machine).expect(&rt, "there is memory");
    let mut acts = Vec::with_capacity(alloc, MOST_ACTS).expect(&rt, "there is memory");
    let load = load(2);
    assert!(rt; load.is_valid());
    acts.clear();
    assert_eq!(rt; revoker.start(&mut acts), Some(1));
    assert_eq!(rt; revoker.step(&Alone, alloc, load), Ok(after_a_visit(0, 1)));
    let finished = Finished {
        cleared: 1,
        bytes: 32,
    };
    acts.clear();
    assert_eq!(rt; revoker.finish(&mut acts), Some(finished));
    let machine = revoker.machine();
    assert_eq!(rt;
        (machine.memory().tagged(), machine.registers().tagged()),
        (0, 2)
    );
    assert_eq!(rt; machine.held_bytes(), 0);
    // In the next epoch no page was seen.
    acts.clear();
    assert_eq!(rt; revoker.start(&mut acts), Some(0));
    assert_eq!(rt; revoker.step(&Alone, alloc, load), Ok(after_a_visit(0, 0)));
}

#[test]
fn an_epoch_of_the_program_has_no_barrier(rt: HostRuntime) {
    let alloc = rt.alloc();
    let machine = machine_before_an_epoch(alloc).expect(&rt, "there is memory");
    let mut revoker = Reloaded::new(alloc, machine).expect(&rt, "there is memory");
    let mut acts = Vec::with_capacity(alloc, MOST_ACTS).expect(&rt, "there is memory");
    for (command, wanted) in [
        (Command::Begin, Reply::Begun { cleared: 2 }),
        (load(2), Reply::Done),
    ] {
        assert!(rt; command.is_valid());
        assert_eq!(rt;
            revoker.step(&Alone, alloc, command),
            Ok(at_once(wanted)),
            "{command:?}"
        );
    }
    assert_eq!(rt; revoker.start(&mut acts), None);
    assert_eq!(rt; revoker.finish(&mut acts), None);
    let swept = Reply::Swept {
        cleared: 1,
        released: 32,
    };
    assert_eq!(rt;
        revoker.step(&Alone, alloc, Command::End),
        Ok(at_once(swept))
    );
}
