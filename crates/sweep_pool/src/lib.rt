//! What a pass of a revoker finds: a heap's shadow, painted by workers, and the masks of `sweep_masks`.
#![tactic(auto)]

mod painting;

pub use crate::painting::{paint_shadow, share_of};
pub use heap_core::due_registers;
pub use sweep_masks::{
    CutFault, Cutting, Gate, GatherFault, Open, SweepFault, Swept, gather, sweep_dirty,
    sweep_dirty_alone, sweep_masks, sweep_masks_alone, sweep_next, sweep_task, swept_registers,
};
