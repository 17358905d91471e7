//! Tests of the programs, over devices of the tests' own and the standard library's. They are a crate of their own, so
//! that no crate of the product is proved once more for them.
#![tactic(auto)]

#[cfg(test)]
mod bytes;
#[cfg(test)]
mod devices;
#[cfg(test)]
mod large;
#[cfg(test)]
mod logs;
#[cfg(test)]
mod runs;
#[cfg(test)]
mod states;
#[cfg(test)]
mod words;
