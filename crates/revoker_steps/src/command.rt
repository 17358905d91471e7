//! What a revoker does beside the program, and what that is answered.

ghost use Rattle.std.specs.Prelude.{◌↔◌, IsTrue};
ghost use Rattle.revoker_steps.specs.Valid.{IsValid};

use tag_memory::REGISTERS;

/// A step of a revoker: between two of them the program's commands run. In what order a revoker takes tags is its own choice.
#[derive(Clone, Copy, Debug, PartialEq, Eq)]
pub enum RevokerCommand {
    /// Opens an epoch: the blocks that wait are painted. It takes no tag.
    Paint,
    /// Takes the tags on a page, from 0, of words whose base lies in a painted block.
    Visit { page: u32 },
    /// Takes the tag of the granule at an address, if its word's base lies in a painted block.
    UntagGranule { address: u64 },
    /// The same of a register.
    UntagRegister { register: u8 },
    /// Closes the epoch: the painted blocks are free. It takes no tag.
    Release,
}

impl RevokerCommand {
    /// Whether its register number, if it has one, is that of a register. What is no page and no address of the heap is trapped.
    pub fn is_valid(&self) -> bool
        ensures { IsTrue result ↔ IsValid self.now }
    {
        match *self {
            RevokerCommand::UntagRegister { register } => register < REGISTERS,
            RevokerCommand::Paint
            | RevokerCommand::Visit { .. }
            | RevokerCommand::UntagGranule { .. }
            | RevokerCommand::Release => true,
        }
    }
}

/// Why a revoker's command changed nothing: the first of its checks that failed.
#[derive(Clone, Copy, Debug, PartialEq, Eq)]
pub enum RevokerTrap {
    /// An epoch is open.
    Open,
    /// No epoch is open.
    NotOpen,
    /// The heap has no such page, or no such address.
    Bounds,
    /// The address is no multiple of 16.
    Align,
    /// A tagged word has its base in a painted block.
    Left,
}

/// What a revoker's command is answered.
#[derive(Clone, Copy, Debug, PartialEq, Eq)]
pub enum RevokerReply {
    /// The blocks are painted.
    Done,
    /// So many tags were taken.
    Cleared { cleared: u32 },
    /// So many bytes are free again.
    Released { bytes: u64 },
    Trap(RevokerTrap),
}
