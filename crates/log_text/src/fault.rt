//! What can be wrong with the text of a log.

ghost use Rattle.std.specs.Prelude.{◌≡◌, Some};
ghost use Rattle.trace_text.specs.declared.fault.TraceFault.TheVariants.{Memory};
ghost use Rattle.log_text.specs.declared.fault.LogFault.TheVariants.{Trace};
ghost use Rattle.log_text.specs.Fault.{log_fault_text};

use std::alloc::AllocFailed;
use std::error::Error;
use std::fmt;
use trace_text::TraceFault;

/// Why a text is no log: its first fault, with the number of the faulty line, counted from 1.
#[derive(Debug, PartialEq, Eq, Drop)]
pub enum LogFault {
    /// What can be wrong with a trace too: its length, the heap line, or the words before an arrow.
    Trace(TraceFault),
    /// No arrow stands in the line, or no answer follows it.
    BadAnswer(u32),
}

impl fmt::Display for LogFault {
    ghost output = { λ fault. Some (log_fault_text fault) };

    fn fmt<W: fmt::Write>(&self, f: &mut fmt::Formatter<W>) -> fmt::Result {
        match self {
            LogFault::Trace(fault) => write!(f, "{fault}"),
            LogFault::BadAnswer(line) => write!(f, "bad-answer {line}"),
        }
    }
}

impl Error for LogFault {}

impl From<TraceFault> for LogFault {
    ghost from_gives = { λ found fault. fault ≡ Trace found };

    fn from(found: TraceFault) -> LogFault {
        LogFault::Trace(found)
    }
}

impl<T: Drop> From<AllocFailed<T>> for LogFault {
    ghost from_gives = { λ _ fault. fault ≡ Trace Memory };

    fn from(_refused: AllocFailed<T>) -> LogFault {
        LogFault::Trace(TraceFault::Memory)
    }
}
