//! Boxes taken apart, so that a pointer of one can be held where no box can be, as in C.
#![tactic(auto)]

ghost use Rattle.std.specs.Prelude.{◌≡◌};
ghost use Rattle.std.specs.Box.Ownership.{box_owns};

use std::alloc::Allocator;
use std::marker::Model;

/// A box taken apart into its pointer and its allocator. It owns what the box owned, the value and its memory, so that the
/// box can be had back; to drop it frees nothing.
pub struct LooseBox<T, A: Allocator> {
    /// Where the value lies, which came from the allocator.
    pub at: *mut T,
    pub alloc: A,
    pub ghost value: { T },
}

impl<T, A: Allocator> Model for LooseBox<T, A> {
    ghost also_owns = { λ l. box_owns (A.dealloc_token l.alloc) T.row l.at l.value };
}

impl<T: Drop, A: Allocator> LooseBox<T, A> {
    /// Takes a box apart.
    pub fn of(value: Box<T, A>) -> LooseBox<T, A>
        ensures { result.value ≡ value.value }
    {
        let (at, alloc) = Box::into_raw_with_allocator(value);
        LooseBox { at, alloc }
    }

    /// Puts the box together again.
    pub fn into_box(self) -> Box<T, A>
        ensures { result.value ≡ self.value }
    {
        let LooseBox { at, alloc } = self;
        unsafe { Box::from_raw(alloc, at) }
    }
}
