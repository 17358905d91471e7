//! Commands as records of plain numbers.

ghost use Rattle.std.specs.Prelude.{◌≡◌, Some};
ghost use Rattle.cap_codec.specs.Bytes.{bytes_of};
ghost use Rattle.trace_text.specs.declared.trace.Command.TheVariants.{Write};
ghost use Rattle.byte_machine.specs.Records.{IsRead, command_of_record, record_of_command};
ghost use Rattle.byte_machine.specs.Records as records;

use crate::halves::{high_half, low_half, wide};
use cap_codec::{Word, from_bytes, to_bytes};
use trace_text::Command;

/// A command in plain numbers. Kinds count from 0: malloc, free, copy, setaddr, narrow, andperm, storecap, loadcap, write,
/// show, sweep, begin, end. The registers stand in the order of a trace's line. `number` is a size, an address, a length or
/// a mask; `low` and `high` are the first and the last eight bytes of a write, little endian.
#[repr(C)]
#[derive(Debug, Clone, Copy, PartialEq, Eq)]
pub struct CommandRecord {
    pub kind: u8,
    pub first: u8,
    pub second: u8,
    pub number: u64,
    pub low: u64,
    pub high: u64,
}

// The 16 bytes of a record.
fn bytes_in(given: CommandRecord) -> [u8; 16]
    ensures { result ≡ bytes_of (records.wide given.low given.high) }
{
    to_bytes(Word {
        bits: wide(given.low, given.high),
    })
}

// The command that takes permissions, where its mask is one.
fn and_perm_from(given: CommandRecord) -> Option<Command>
    ensures { result ≡ records.and_perm_command given }
{
    if given.number < 65_536 {
        Some(Command::AndPerm {
            rd: given.first,
            rs: given.second,
            mask: given.number as u16,
        })
    } else {
        None
    }
}

// The command of a record, whatever its registers.
#[tactic(auto, unfolding(crate::specs::Records::command_of_record))]
fn any_command(given: CommandRecord) -> Option<Command>
    ensures { result ≡ command_of_record given }
{
    let first = given.first;
    let second = given.second;
    let number = given.number;
    match given.kind {
        0 => Some(Command::Malloc {
            rd: first,
            size: number,
        }),
        1 => Some(Command::Free { rs: first }),
        2 => Some(Command::Copy {
            rd: first,
            rs: second,
        }),
        3 => Some(Command::SetAddr {
            rd: first,
            rs: second,
            address: number,
        }),
        4 => Some(Command::Narrow {
            rd: first,
            rs: second,
            length: number,
        }),
        5 => and_perm_from(given),
        6 => Some(Command::StoreCap {
            ra: first,
            rs: second,
        }),
        7 => Some(Command::LoadCap {
            rd: first,
            ra: second,
        }),
        8 => Some(Command::Write {
            ra: first,
            bytes: bytes_in(given),
        }),
        9 => Some(Command::Show { rs: first }),
        10 => Some(Command::Sweep),
        11 => Some(Command::Begin),
        12 => Some(Command::End),
        _ => None,
    }
}

/// The command of a record. None where no kind has its number, where a register that it uses is 32 or more, or where a mask
/// has more than 16 bits; what a kind doesn't use isn't looked at.
pub fn command_of(given: CommandRecord) -> Option<Command>
    ensures { IsRead given result }
{
    let Some(command) = any_command(given) else {
        return None;
    };
    if command.is_valid() {
        Some(command)
    } else {
        None
    }
}

// A record with these registers and this number.
fn number_record(kind: u8, first: u8, second: u8, number: u64) -> CommandRecord
    ensures { result ≡ records.number_record kind first second number }
{
    CommandRecord {
        kind,
        first,
        second,
        number,
        low: 0,
        high: 0,
    }
}

// The record of a write.
fn write_record(ra: u8, bytes: [u8; 16]) -> CommandRecord
    ensures value { result ≡ record_of_command (Write ra bytes) }
    ensures back { bytes_of (records.wide result.low result.high) ≡ bytes }
{
    let word = from_bytes(bytes);
    CommandRecord {
        kind: 8,
        first: ra,
        second: 0,
        number: 0,
        low: low_half(word.bits),
        high: high_half(word.bits),
    }
}

/// The record of a command; what it doesn't use is 0.
#[tactic(auto, unfolding(crate::specs::Records::command_of_record))]
pub fn record_of(command: Command) -> CommandRecord
    ensures value { result ≡ record_of_command command }
    ensures back { command_of_record result ≡ Some command }
{
    match command {
        Command::Malloc { rd, size } => number_record(0, rd, 0, size),
        Command::Free { rs } => number_record(1, rs, 0, 0),
        Command::Copy { rd, rs } => number_record(2, rd, rs, 0),
        Command::SetAddr { rd, rs, address } => number_record(3, rd, rs, address),
        Command::Narrow { rd, rs, length } => number_record(4, rd, rs, length),
        Command::AndPerm { rd, rs, mask } => number_record(5, rd, rs, u64::from(mask)),
        Command::StoreCap { ra, rs } => number_record(6, ra, rs, 0),
        Command::LoadCap { rd, ra } => number_record(7, rd, ra, 0),
        Command::Write { ra, bytes } => write_record(ra, bytes),
        Command::Show { rs } => number_record(9, rs, 0, 0),
        Command::Sweep => number_record(10, 0, 0, 0),
        Command::Begin => number_record(11, 0, 0, 0),
        Command::End => number_record(12, 0, 0, 0),
    }
}
