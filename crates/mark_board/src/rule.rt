//! The rule of a board's table, and what its steps tell.

ghost use Rattle.mark_board.specs.Rule as spec;

use atomic_table::{Join, Play, Split, TableRule};
use std::collections::LinkedList;

/// What a table is told when it is made.
#[derive(Drop)]
pub struct Shape {
    /// The bits of the board.
    pub bits: u32,
    /// The parts that all its seats have together.
    pub parts: u32,
}

/// What a table keeps for each seat. A clause sees a `LinkedList` as a list; no value is ever made.
pub struct View {
    /// That of the seat's board.
    pub shape: Shape,
    /// The seat's share of all parts.
    pub parts: u32,
    /// The bits that its own marks set first.
    pub mine: LinkedList<u64>,
    /// The bits that it has seen set.
    pub seen: LinkedList<u64>,
    /// What the first of two seats had set, from their join to the next step.
    pub left: LinkedList<u64>,
    /// What the second had set.
    pub right: LinkedList<u64>,
}

/// A mark, and the rule that each step keeps.
pub struct Marks;

impl TableRule<(), View, Shape> for Marks {
    ghost holds = { spec.IsLawfulState };

    ghost first = { spec.first_view };
}

impl Play<(), View> for Marks {
    ghost then = { spec.Marks };
}

/// A seat cut in two.
pub struct Cut;

impl Split<View> for Cut {
    ghost left = { spec.kept_part };

    ghost right = { spec.cut_part };
}

/// Two seats made one.
pub struct Both;

impl Join<View> for Both {
    ghost both = { spec.both_parts };

    ghost spent = { spec.spent_view };
}

/// The load that settles what a join has made.
pub struct Settles;

impl Play<(), View> for Settles {
    ghost then = { spec.Settles };
}
