//! A machine, command by command.

mod answers;
mod cuttings;
mod epochs;
mod parts;
mod revoker;
pub mod sweeps;
mod workers;

use heap_machine::{Machine, MachineFault, Reply};
use sweep_pool::{Cutting, Open};
use trace_text::Command;

#[test]
fn a_machine_does_one_command_after_another(rt: HostRuntime) {
    let cutting = Cutting::new(64, 256).expect(&rt, "it is a cutting");
    let alloc = rt.alloc();
    let faults = [
        (8, 0, MachineFault::BadSize),
        (8, 1, MachineFault::BadBase),
        (0xffff_ffff_ffff_f000, 2, MachineFault::BadBase),
    ];
    for (base, pages, fault) in faults {
        assert_eq!(rt;
            Machine::new(alloc, base, pages, cutting).err(),
            Some(fault)
        );
    }
    let mut machine = Machine::new(alloc, 0x1000, 1, cutting).expect(&rt, "there is memory");
    let reply = machine.step(&rt, alloc, Command::Malloc { rd: 7, size: 17 }, &Open);
    assert_eq!(rt;
        reply,
        Ok(Reply::Block {
            base: 0x1000,
            top: 0x1020
        })
    );
    let reply = machine.step(&rt, alloc, Command::Copy { rd: 0, rs: 7 }, &Open);
    assert_eq!(rt; reply, Ok(Reply::Done));
    assert_eq!(rt;
        (
            machine.live_bytes(),
            machine.held_bytes(),
            machine.free_bytes()
        ),
        (32, 0, 4064)
    );
    assert_eq!(rt;
        (machine.registers().tagged(), machine.memory().tagged()),
        (1, 0)
    );
}

#[test]
fn faults_by_their_names(rt: HostRuntime) {
    let cases = [
        (MachineFault::Memory, "Memory"),
        (MachineFault::BadBase, "BadBase"),
        (MachineFault::BadSize, "BadSize"),
    ];
    for (fault, name) in cases {
        let message = format!(in rt.alloc(); "{fault}").expect(&rt, "there is memory");
        assert_eq!(rt; message.as_str(), name);
    }
}
