//! Which tags a sweep takes, as masks of bits, and how it is cut into tasks for workers.
#![tactic(auto)]

mod alone;
mod claims;
mod cutting;
mod dirty;
mod gate;
mod gathering;
mod pool;
mod sweep;
mod task;
mod workers;

pub use crate::claims::sweep_next;
pub use crate::cutting::{CutFault, Cutting};
pub use crate::dirty::{sweep_dirty, sweep_dirty_alone};
pub use crate::gate::{Gate, Open};
pub use crate::gathering::{GatherFault, gather};
pub use crate::pool::{sweep_masks, sweep_masks_alone};
pub use crate::sweep::{SweepFault, swept_registers};
pub use crate::task::{Swept, sweep_task};
