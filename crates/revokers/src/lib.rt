//! Revokers that work while the program runs, each a machine whose every step is one of the definition.
//!
//! A revoker opens an epoch, takes tags between the program's commands in an order of its own, and frees the painted blocks
//! once no tagged word points into them. That none is left when it does so is proved of each revoker here.
//!
//! ```rust
//! use heap_machine::{Alone, Machine, RevokerReply};
//! use revokers::{Cornucopia, MOST_ACTS};
//! use sweep_pool::Cutting;
//! use trace_text::Command;
//!
//! let machine = Machine::new(alloc, 0x4000_0000, 1, Cutting::new(1, 16)?)?;
//! let mut revoker = Cornucopia::new(machine);
//! revoker.step(&Alone, alloc, Command::Malloc { rd: 1, size: 32 })?;
//! revoker.step(&Alone, alloc, Command::Free { rs: 1 })?;
//! assert_eq!(rt; revoker.start(), RevokerReply::Done);
//! // The program runs on, and holds what it has freed.
//! assert_eq!(rt; revoker.visit(0), RevokerReply::Cleared { cleared: 0 });
//! let mut acts = Vec::with_capacity(alloc, MOST_ACTS)?;
//! let Some(finished) = revoker.finish(&mut acts) else {
//!     return;
//! };
//! assert_eq!(rt; (finished.cleared, finished.bytes), (1, 32));
//! ```
#![tactic(auto)]

mod acts;
mod cornucopia;
mod ending;
mod reloaded;

pub use crate::acts::{Act, MOST_ACTS};
pub use crate::cornucopia::Cornucopia;
pub use crate::ending::Finished;
pub use crate::reloaded::{Barrier, Reloaded, Stepped};
