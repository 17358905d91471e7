//! Permissions, each by its bit (CHERI ISA version 9: architectural permissions).

ghost use Rattle.std.specs.Prelude.{◌≡◌};
ghost use Rattle.cap_codec.specs.Words.{allows};

use crate::decode::fields;
use crate::word::Word;

/// May be stored by way of any capability that may store capabilities.
pub const GLOBAL: u16 = 1 << 0;

/// May load data.
pub const LOAD: u16 = 1 << 2;

/// May store data.
pub const STORE: u16 = 1 << 3;

/// May load capabilities with their tags.
pub const LOAD_CAPABILITY: u16 = 1 << 4;

/// May store capabilities with their tags.
pub const STORE_CAPABILITY: u16 = 1 << 5;

/// Whether a word has this permission; of several bits, any of them.
#[tactic(auto, unfolding(crate::specs::Words::allows))]
pub fn is_allowed(w: Word, permission: u16) -> bool
    ensures { result ≡ allows permission w }
{
    fields(w).perms & permission != 0
}
