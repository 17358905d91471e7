//! Traces with quarantine and sweeps.

use crate::runs::answer;
use heap_trace::{RunFault, image_text};

// Traces with the reports of their runs.
pub(super) const SWEEPS: [(&str, &str); 6] = [
    // A block that is held isn't handed out, and its capabilities are gone before it is.
    (
        "heap 0x40000000 1
malloc c1 32
copy c2 c1
free c1
malloc c3 32
sweep
malloc c4 32
",
        "2 malloc block 0x40000000 0x40000020
3 copy ok
4 free held 32
5 malloc block 0x40000020 0x40000040
6 sweep cleared 2 released 32
7 malloc block 0x40000000 0x40000020
end live 64 held 0 free 4032 tags 2
",
    ),
    // The base of a capability decides, and not its address.
    (
        "heap 0x40000000 1
malloc c1 32
malloc c4 512
setaddr c2 c1 0x40000005
narrow c3 c2 4
setaddr c3 c3 0x40000100
setaddr c5 c4 0x40000008
free c1
sweep
show c3
show c5
",
        "2 malloc block 0x40000000 0x40000020
3 malloc block 0x40000020 0x40000220
4 setaddr ok
5 narrow ok
6 setaddr ok
7 setaddr ok
8 free held 32
9 sweep cleared 3 released 32
10 show tag 0 address 0x40000100 base 0x40000005 top 0x40000009 perms 0x3d type 0x3ffff exponent 0
11 show tag 1 address 0x40000008 base 0x40000020 top 0x40000220 perms 0x3d type 0x3ffff exponent 0
end live 512 held 0 free 3584 tags 2
",
    ),
    // A sweep and a new block leave contents alone.
    (
        "heap 0x40000000 1
malloc c1 32
malloc c2 32
storecap c1 c2
free c1
sweep
malloc c3 32
loadcap c4 c3
show c4
",
        "2 malloc block 0x40000000 0x40000020
3 malloc block 0x40000020 0x40000040
4 storecap ok
5 free held 32
6 sweep cleared 1 released 32
7 malloc block 0x40000000 0x40000020
8 loadcap ok
9 show tag 1 address 0x40000020 base 0x40000020 top 0x40000040 perms 0x3d type 0x3ffff exponent 0
end live 64 held 0 free 4032 tags 4
",
    ),
    // A block is freed once, by exactly its bounds.
    (
        "heap 0x40000000 1
malloc c1 32
setaddr c2 c1 0x40000010
narrow c2 c2 16
free c2
free c1
free c1
free c2
sweep
free c1
",
        "2 malloc block 0x40000000 0x40000020
3 setaddr ok
4 narrow ok
5 free trap notblock
6 free held 32
7 free trap freed
8 free trap notblock
9 sweep cleared 2 released 32
10 free trap tag
end live 0 held 0 free 4096 tags 0
",
    ),
    // A malloc without a place sweeps first, where some block is held. The tag of the register that it
    // writes counts too.
    (
        "heap 0x40000000 1
malloc c1 4096
free c1
malloc c2 32
malloc c3 8192
copy c4 c2
free c2
malloc c2 8192
show c4
",
        "2 malloc block 0x40000000 0x40001000
3 free held 4096
4 malloc block 0x40000000 0x40000020 swept 1
5 malloc nospace
6 copy ok
7 free held 32
8 malloc nospace swept 2
9 show tag 0 address 0x40000000 base 0x40000000 top 0x40000020 perms 0x3d type 0x3ffff exponent 0
end live 0 held 0 free 4096 tags 0
",
    ),
    (
        "heap 0x40000000 1
malloc c1 4096
free c1
begin
malloc c2 16
",
        "2 malloc block 0x40000000 0x40001000
3 free held 4096
4 begin cleared 0
5 malloc nospace
end live 0 held 4096 free 0 tags 1
",
    ),
];

const IMAGE: &str = "0x40000000 1 20000040000000002480110400003d00\n";

#[test]
fn sweeps_are_reported(rt: HostRuntime) {
    for (text, report) in SWEEPS {
        let outcome = answer(&rt, rt.alloc(), text).expect(&rt, "it is a trace");
        assert_eq!(rt; outcome.report.as_slice(), report.as_bytes(), "{text:?}");
    }
}

#[test]
fn a_sweep_leaves_contents_alone(rt: HostRuntime) {
    let (text, _) = SWEEPS[2];
    let outcome = answer(&rt, rt.alloc(), text).expect(&rt, "it is a trace");
    let image = image_text(rt.alloc(), &outcome.memory).expect(&rt, "there is memory");
    assert_eq!(rt; image.as_slice(), IMAGE.as_bytes());
}

// The same trace, with each allocation refused in turn.
#[test]
fn a_refused_allocation_of_a_run_with_a_sweep_is_told(rt: HostRuntime) {
    let (text, report) = SWEEPS[0];
    match answer(&rt, rt.alloc(), text) {
        Ok(outcome) => assert_eq!(rt; outcome.report.as_slice(), report.as_bytes()),
        Err(fault) => assert_eq!(rt; fault, RunFault::Memory),
    }
}
