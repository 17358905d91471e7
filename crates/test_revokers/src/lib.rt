//! Tests of revokers beside a program. They are a crate of their own, so that no crate of the product is proved once more
//! for them.
#![tactic(auto)]

#[cfg(test)]
mod bytes;
#[cfg(test)]
mod cornucopia;
#[cfg(test)]
mod heap;
#[cfg(test)]
mod plans;
#[cfg(test)]
mod reloaded;
