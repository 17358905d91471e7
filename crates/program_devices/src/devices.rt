//! The devices that the program reads from and writes to.

mod reading;
mod writing;

pub use crate::devices::reading::{FromRead, ReadFault, Source, read_text};
pub use crate::devices::writing::{FromWrite, Sink, send};
use thiserror::Error;

/// A device failed. It does not say by what.
#[derive(Debug, PartialEq, Drop, Error)]
#[error("Failed")]
pub struct Failed;
