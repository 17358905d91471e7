//! Plans and their logs, worked out by hand.

use heap_machine::Alone;
use heap_trace::RunFault;
use revoker_runs::{Way, log_of_plan};
use std::alloc::Global;
use sweep_pool::Cutting;
use trace_text::TraceFault;

// What a plan comes to.
fn log_of(alloc: Global, way: Way, text: &str) -> Result<Vec<u8>, RunFault> {
    let Ok(cutting) = Cutting::new(1, 1) else {
        return Err(RunFault::Memory);
    };
    log_of_plan(&Alone, alloc, text.as_bytes(), way, cutting)
}

const BY_HAND: &str = "# A heap of two pages.
heap 0x40000000 2
malloc c1 32
malloc c2 4096
setaddr c5 c2 0x40001000

storecap c5 c1
  storecap  c2 c1
free c1
paint
paint
visit 1
visit 2
untag 0x40000020
untag 0x40000024
release
untag c1
release
release
";

const BY_HAND_LOG: &str = "# A heap of two pages.
heap 0x40000000 2
malloc c1 32 -> block 0x40000000 0x40000020
malloc c2 4096 -> block 0x40000020 0x40001020
setaddr c5 c2 0x40001000 -> ok

storecap c5 c1 -> ok
  storecap  c2 c1 -> ok
free c1 -> held 32
paint -> ok
paint -> trap open
visit 1 -> cleared 1
visit 2 -> trap bounds
untag 0x40000020 -> cleared 1
untag 0x40000024 -> trap align
release -> trap left
untag c1 -> cleared 1
release -> released 32
release -> trap notopen
";

#[test]
fn steps_are_made_by_hand(rt: HostRuntime) {
    let log = log_of(rt.alloc(), Way::ByHand, BY_HAND).expect(&rt, "it is a plan");
    assert_eq!(rt; log.as_slice(), BY_HAND_LOG.as_bytes());
}

const EPOCHS: &str = "heap 0x40000000 2
malloc c1 32
malloc c2 4096
setaddr c5 c2 0x40001000
storecap c5 c1
storecap c2 c1
free c1
begin
paint
visit 0
storecap c2 c1
loadcap c3 c5
end
release
sweep";

const MARKED_LOG: &str = "heap 0x40000000 2
malloc c1 32 -> block 0x40000000 0x40000020
malloc c2 4096 -> block 0x40000020 0x40001020
setaddr c5 c2 0x40001000 -> ok
storecap c5 c1 -> ok
storecap c2 c1 -> ok
free c1 -> held 32
paint -> ok
paint -> trap open
visit 0 -> cleared 1
storecap c2 c1 -> ok
loadcap c3 c5 -> ok
visit 0 -> cleared 1
visit 1 -> cleared 1
untag c1 -> cleared 1
untag c3 -> cleared 1
release -> released 32
release -> trap notopen
sweep -> cleared 0 released 0
";

// Register 1 has nothing to store again, and the load waits for its page.
const BARRED_LOG: &str = "heap 0x40000000 2
malloc c1 32 -> block 0x40000000 0x40000020
malloc c2 4096 -> block 0x40000020 0x40001020
setaddr c5 c2 0x40001000 -> ok
storecap c5 c1 -> ok
storecap c2 c1 -> ok
free c1 -> held 32
paint -> ok
untag c1 -> cleared 1
paint -> trap open
visit 0 -> cleared 1
storecap c2 c1 -> ok
visit 1 -> cleared 1
loadcap c3 c5 -> ok
release -> released 32
release -> trap notopen
sweep -> cleared 0 released 0
";

#[test]
fn a_revoker_marks_pages(rt: HostRuntime) {
    let log = log_of(rt.alloc(), Way::Cornucopia, EPOCHS).expect(&rt, "it is a plan");
    assert_eq!(rt; log.as_slice(), MARKED_LOG.as_bytes());
}

#[test]
fn a_revoker_has_a_barrier(rt: HostRuntime) {
    let log = log_of(rt.alloc(), Way::Reloaded, EPOCHS).expect(&rt, "it is a plan");
    assert_eq!(rt; log.as_slice(), BARRED_LOG.as_bytes());
}

#[test]
fn faults_are_told(rt: HostRuntime) {
    let rows = [
        (Way::ByHand, "", TraceFault::NoHeap(1)),
        (Way::ByHand, "heap 0x40000000\n", TraceFault::BadHeap(1)),
        (
            Way::ByHand,
            "\nheap 0x40000000 1\n#\ngranule 0x40000000\n",
            TraceFault::BadCommand(4),
        ),
        (
            Way::ByHand,
            "heap 0x40000000 1\nvisit\n",
            TraceFault::BadCount(2),
        ),
        (
            Way::ByHand,
            "heap 0x40000000 1\nuntag c32\nvisit x",
            TraceFault::BadRegister(2),
        ),
        (
            Way::Cornucopia,
            "heap 0x40000000 1\nuntag c1",
            TraceFault::BadCommand(2),
        ),
        (
            Way::Reloaded,
            "heap 0x40000000 1\nuntag 0x40000000",
            TraceFault::BadCommand(2),
        ),
        (
            Way::Reloaded,
            "heap 0x40000000 1\npaint -> ok",
            TraceFault::BadCount(2),
        ),
    ];
    for (way, text, fault) in rows {
        assert_eq!(rt;
            log_of(rt.alloc(), way, text),
            Err(RunFault::Trace(fault)),
            "{way:?} {text}"
        );
    }
}
