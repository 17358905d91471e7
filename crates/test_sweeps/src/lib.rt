//! Tests of sweeps, of the shadow, and of the workers that make them. They are a crate of their own, so
//! that no crate of the product is proved once more for them.
#![tactic(auto)]

#[cfg(test)]
mod alone;
#[cfg(test)]
mod dirty;
#[cfg(test)]
mod gates;
#[cfg(test)]
mod gathering;
#[cfg(test)]
mod painting;
#[cfg(test)]
mod pool;
#[cfg(test)]
mod refusals;
#[cfg(test)]
mod shares;
#[cfg(test)]
mod tasks;
