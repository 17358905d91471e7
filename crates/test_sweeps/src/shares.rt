//! Which of the blocks that are due a worker paints.

use std::ops::Range;
use sweep_pool::share_of;

fn ends_of(share: Range<usize>) -> (usize, usize) {
    (share.start, share.end)
}

// Ten blocks are cut at 10 / 4, 20 / 4 and 30 / 4, rounded down; where there are fewer blocks than workers, some have
// none.
#[test]
fn shares_have_their_blocks(rt: HostRuntime) {
    assert_eq!(rt; ends_of(share_of(0, 4, 10)), (0, 2));
    assert_eq!(rt; ends_of(share_of(1, 4, 10)), (2, 5));
    assert_eq!(rt; ends_of(share_of(2, 4, 10)), (5, 7));
    assert_eq!(rt; ends_of(share_of(3, 4, 10)), (7, 10));
    assert_eq!(rt; ends_of(share_of(0, 3, 2)), (0, 0));
    assert_eq!(rt; ends_of(share_of(1, 3, 2)), (0, 1));
    assert_eq!(rt; ends_of(share_of(2, 3, 2)), (1, 2));
    assert_eq!(rt; ends_of(share_of(63, 64, 0)), (0, 0));
    assert_eq!(rt; ends_of(share_of(63, 64, 262_144)), (258_048, 262_144));
}
