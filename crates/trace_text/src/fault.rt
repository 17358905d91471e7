//! What can be wrong with the text of a trace.

ghost use Rattle.std.specs.Prelude.{◌≡◌, IfOk, Some, string_bytes};
ghost use Rattle.trace_text.specs.declared.fault.TraceFault.TheVariants.{Memory};
ghost use Rattle.trace_text.specs.Fault.{fault_text, line_of_fault};

use host_memory::Global;
use std::alloc::{AllocError, AllocFailed};
use std::error::Error;
use std::fmt;

/// What is wrong with a line that should be a command.
#[derive(Clone, Copy, Debug, PartialEq, Eq)]
pub enum LineFault {
    BadCommand,
    BadCount,
    BadRegister,
    BadNumber,
    BadData,
}

impl LineFault {
    ghost use Rattle.trace_text.specs.Reading.{fault_at};

    /// The fault of a text whose first faulty line is the one with this number.
    pub fn at_line(self, number: u32) -> TraceFault
        ensures { result ≡ fault_at number self }
    {
        match self {
            LineFault::BadCommand => TraceFault::BadCommand(number),
            LineFault::BadCount => TraceFault::BadCount(number),
            LineFault::BadRegister => TraceFault::BadRegister(number),
            LineFault::BadNumber => TraceFault::BadNumber(number),
            LineFault::BadData => TraceFault::BadData(number),
        }
    }
}

/// Why a text is no trace: its first fault, with the number of the faulty line, counted from 1.
#[derive(Debug, PartialEq, Eq, Drop)]
pub enum TraceFault {
    /// Memory of the simulator itself ran out.
    Memory,
    /// The text has more bytes than a trace has.
    TooLong,
    /// The first line that counts is no heap line, or there is none.
    NoHeap(u32),
    /// The heap line isn't of its form, or its numbers are out of their range.
    BadHeap(u32),
    /// No command has this name.
    BadCommand(u32),
    /// The command has more or fewer words.
    BadCount(u32),
    /// A word should be a register.
    BadRegister(u32),
    /// A word should be a number, or one in its range.
    BadNumber(u32),
    /// A word should be 32 hexadecimal digits.
    BadData(u32),
}

impl fmt::Display for TraceFault {
    ghost output = { λ fault. Some (fault_text fault) };

    fn fmt<W: fmt::Write>(&self, f: &mut fmt::Formatter<W>) -> fmt::Result {
        match *self {
            TraceFault::Memory => write!(f, "memory"),
            TraceFault::TooLong => write!(f, "too-long"),
            TraceFault::NoHeap(line) => write!(f, "no-heap {line}"),
            TraceFault::BadHeap(line) => write!(f, "bad-heap {line}"),
            TraceFault::BadCommand(line) => write!(f, "bad-command {line}"),
            TraceFault::BadCount(line) => write!(f, "bad-count {line}"),
            TraceFault::BadRegister(line) => write!(f, "bad-register {line}"),
            TraceFault::BadNumber(line) => write!(f, "bad-number {line}"),
            TraceFault::BadData(line) => write!(f, "bad-data {line}"),
        }
    }
}

impl Error for TraceFault {}

impl<T: Drop> From<AllocFailed<T>> for TraceFault {
    ghost from_gives = { λ _ fault. fault ≡ Memory };

    fn from(_refused: AllocFailed<T>) -> TraceFault {
        TraceFault::Memory
    }
}

/// The line that names the fault of a text that is no trace.
pub fn fault_line(alloc: Global, fault: &TraceFault) -> Result<String<Global>, AllocError>
    ensures { IfOk result (λ text. string_bytes text ≡ line_of_fault fault.now) }
{
    format!(in alloc; "fault {fault}\n")
}
