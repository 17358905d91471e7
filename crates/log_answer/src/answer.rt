//! What is answered for a log.

use host_memory::Global;

/// What is said of a log, and the status that goes with it: 0 where it agrees, 3 where it is faulty, and 5 where an event
/// differs, or the given lines tell no safe state.
#[derive(Drop)]
pub struct LogAnswer {
    pub status: u8,
    pub text: Vec<u8, Global>,
}
