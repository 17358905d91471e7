//! Tests of machines and runs. They are a crate of their own, so
//! that no crate of the product is proved once more for them.
#![tactic(auto)]

#[cfg(test)]
mod agreed;
#[cfg(test)]
mod bytes;
#[cfg(test)]
mod givens;
#[cfg(test)]
mod logs;
#[cfg(test)]
mod machine;
#[cfg(test)]
mod runs;
