//! Tests of memory, rows of bits, boards and heaps. They are a crate of their own, so
//! that no crate of the product is proved once more for them.
#![tactic(auto)]

#[cfg(test)]
mod board;
#[cfg(test)]
mod heap;
#[cfg(test)]
mod memory;
#[cfg(test)]
mod rows;
