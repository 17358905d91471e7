//! The texts of what a revoker's commands are answered.

ghost use Rattle.std.specs.Prelude.{◌≡◌, Some};
ghost use Rattle.revoker_steps.specs.RevokerText.{revoker_trap_name, text_of_revoker_reply};

use crate::command::{RevokerReply, RevokerTrap};
use std::fmt;

impl RevokerTrap {
    /// The word that names it.
    pub fn name(self) -> &'static str
        ensures { result.now ≡ revoker_trap_name self }
    {
        match self {
            RevokerTrap::Open => "open",
            RevokerTrap::NotOpen => "notopen",
            RevokerTrap::Bounds => "bounds",
            RevokerTrap::Align => "align",
            RevokerTrap::Left => "left",
        }
    }
}

impl fmt::Display for RevokerReply {
    ghost output = { λ reply. Some (text_of_revoker_reply reply) };

    fn fmt<W: fmt::Write>(&self, f: &mut fmt::Formatter<W>) -> fmt::Result {
        match *self {
            RevokerReply::Done => write!(f, "ok"),
            RevokerReply::Cleared { cleared } => write!(f, "cleared {cleared}"),
            RevokerReply::Released { bytes } => write!(f, "released {bytes}"),
            RevokerReply::Trap(trap) => write!(f, "trap {}", trap.name()),
        }
    }
}
