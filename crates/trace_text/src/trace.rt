//! What a trace says.

ghost use Rattle.std.specs.Prelude.{◌↔◌, IsTrue};

use host_memory::Global;
use tag_memory::REGISTERS;

/// A command of a trace. Registers go by their numbers; sizes and lengths are in bytes.
/// `ra` is the register whose capability allows a store or a load.
#[derive(Clone, Copy, Debug, PartialEq, Eq)]
pub enum Command {
    Malloc { rd: u8, size: u64 },
    Free { rs: u8 },
    Copy { rd: u8, rs: u8 },
    SetAddr { rd: u8, rs: u8, address: u64 },
    Narrow { rd: u8, rs: u8, length: u64 },
    AndPerm { rd: u8, rs: u8, mask: u16 },
    StoreCap { ra: u8, rs: u8 },
    LoadCap { rd: u8, ra: u8 },
    Write { ra: u8, bytes: [u8; 16] },
    Show { rs: u8 },
    Sweep,
    Begin,
    End,
}

impl Command {
    ghost use Rattle.trace_text.specs.Command.{IsValid};

    /// Whether each register number is below 32.
    pub fn is_valid(&self) -> bool
        ensures { IsTrue result ↔ IsValid self.now }
    {
        match *self {
            Command::Malloc { rd, .. } => rd < REGISTERS,
            Command::Copy { rd, rs }
            | Command::SetAddr { rd, rs, .. }
            | Command::Narrow { rd, rs, .. }
            | Command::AndPerm { rd, rs, .. } => rd < REGISTERS && rs < REGISTERS,
            Command::StoreCap { ra, rs } => ra < REGISTERS && rs < REGISTERS,
            Command::LoadCap { rd, ra } => rd < REGISTERS && ra < REGISTERS,
            Command::Write { ra, .. } => ra < REGISTERS,
            Command::Free { rs } | Command::Show { rs } => rs < REGISTERS,
            Command::Sweep | Command::Begin | Command::End => true,
        }
    }
}

/// The base address of a heap, its pages of 4,096 bytes, and the commands with their lines, from 1.
#[derive(Debug, PartialEq, Eq, Drop)]
pub struct Trace {
    pub base: u64,
    pub pages: u32,
    pub commands: Vec<(u32, Command), Global>,
}
