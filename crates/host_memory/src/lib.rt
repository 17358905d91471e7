//! The memory in which the product's own values live. All of its crates name the allocator by this one, so that a host which hands
//! out memory in another way puts a crate of this name in its place.
#![tactic(auto)]

pub use std::alloc::Global;
