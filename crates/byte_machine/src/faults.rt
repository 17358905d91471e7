//! What is wrong with a text, as a record of plain numbers.

ghost use Rattle.std.specs.Prelude.{◌≡◌};
ghost use Rattle.byte_machine.specs.Records as records;

use trace_text::TraceFault;

/// A fault in plain numbers. Kinds count from 1: too long, no heap, bad heap, bad command, bad count, bad register, bad number,
/// bad data. Lines count from 1; 0 where no line is at fault. Want of memory is of kind 0.
#[repr(C)]
#[derive(Debug, Clone, Copy, PartialEq, Eq)]
pub struct FaultRecord {
    pub line: u32,
    pub kind: u8,
}

fn of_line(kind: u8, line: u32) -> FaultRecord
    ensures { result ≡ records.fault_of_line kind line }
{
    FaultRecord { line, kind }
}

/// The record of a fault.
pub fn fault_record(fault: &TraceFault) -> FaultRecord
    ensures { result ≡ records.record_of_fault fault.now }
{
    match *fault {
        TraceFault::Memory => of_line(0, 0),
        TraceFault::TooLong => of_line(1, 0),
        TraceFault::NoHeap(line) => of_line(2, line),
        TraceFault::BadHeap(line) => of_line(3, line),
        TraceFault::BadCommand(line) => of_line(4, line),
        TraceFault::BadCount(line) => of_line(5, line),
        TraceFault::BadRegister(line) => of_line(6, line),
        TraceFault::BadNumber(line) => of_line(7, line),
        TraceFault::BadData(line) => of_line(8, line),
    }
}
