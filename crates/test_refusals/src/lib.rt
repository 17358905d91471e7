//! Hostile use. Traces, sweeps and paintings of which allocations and threads are refused: whatever is
//! refused, an answer is right or it is want of memory, and nothing is half done. `testing/try_refusals`
//! runs these tests over and over, and their names say what it refuses. And traces that are cut off.
#![tactic(auto)]

#[cfg(test)]
mod beginnings;
#[cfg(test)]
mod commands;
#[cfg(test)]
mod rows;
#[cfg(test)]
mod runs;
#[cfg(test)]
mod shared;
#[cfg(test)]
mod steps;
#[cfg(test)]
mod sweeps;
