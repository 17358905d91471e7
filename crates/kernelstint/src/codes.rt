//! The codes that exports answer: 0 where they did what they were asked, and else why not.

ghost use Rattle.std.specs.Prelude.{◌≡◌, ◌≢◌, ◌↔◌};
ghost use Rattle.byte_machine.specs.declared.fault.CallFault.TheVariants as fault_of;
ghost use Rattle.kernelstint.specs.Codes.{bad_room, done};
ghost use Rattle.kernelstint.specs.Calls.{call_code};

use byte_machine::CallFault;

pub const DONE: u32 = 0;

/// Bytes that aren't 16.
pub const BAD_LENGTH: u32 = 1;

/// Fields of which one is past its width.
pub const BAD_FIELDS: u32 = 2;

/// Bounds that end before they begin, or past 2^64.
pub const BAD_BOUNDS: u32 = 3;

/// The room for a state isn't as long as that state.
pub const BAD_ROOM: u32 = 5;

/// The bytes are no state's.
pub const BAD_STATE: u32 = 6;

/// No pages, or more than 1,024.
pub const BAD_SIZE: u32 = 7;

/// A base that is no multiple of 4,096, or an end past 2^64.
pub const BAD_BASE: u32 = 8;

/// A register of 32 or more.
pub const BAD_REGISTER: u32 = 9;

/// An address where no granule starts.
pub const BAD_ADDRESS: u32 = 10;

/// The room for a text is too short.
pub const SHORT_TEXT: u32 = 11;

/// A line that has no word, or is a comment.
pub const PASSED_OVER: u32 = 12;

/// A line that is no command.
pub const BAD_LINE: u32 = 13;

/// Memory ran out.
pub const NO_MEMORY: u32 = 14;

/// A record that is no command's.
pub const BAD_COMMAND: u32 = 15;

/// A record that is no reply's.
pub const BAD_REPLY: u32 = 16;

/// An answer that isn't allowed.
pub const DIFFERS: u32 = 17;

/// A text that is no trace.
pub const BAD_TRACE: u32 = 18;

// The code of a call that gave no answer.
pub fn code_of_fault(fault: CallFault) -> u32
    ensures value { result ≡ call_code fault }
    ensures other { result ≢ done }
{
    match fault {
        CallFault::Memory => NO_MEMORY,
        CallFault::Room => BAD_ROOM,
        CallFault::State(_) => BAD_STATE,
        CallFault::BadSize => BAD_SIZE,
        CallFault::BadBase => BAD_BASE,
        CallFault::Register => BAD_REGISTER,
        CallFault::Address => BAD_ADDRESS,
        CallFault::TextRoom => SHORT_TEXT,
        CallFault::PassedOver => PASSED_OVER,
        CallFault::Line(_) => BAD_LINE,
    }
}
