//! What replies tell of.

ghost use Rattle.std.specs.Prelude.{◌≡◌};
ghost use Rattle.state_data.specs.States as states;
ghost use Rattle.state_data.specs.Recording as snapshot;

use heap_reply::Reply;

/// Whether a reply tells of a pass over memory.
pub fn tells_pass(reply: Reply) -> bool
    ensures { result ≡ states.tells_pass reply }
{
    match reply {
        Reply::BlockAfter { .. }
        | Reply::NoSpaceAfter { .. }
        | Reply::Swept { .. }
        | Reply::Begun { .. } => true,
        Reply::Block { .. }
        | Reply::NoSpace
        | Reply::Held(_)
        | Reply::Done
        | Reply::Cleared
        | Reply::Shown(_)
        | Reply::Trap(_) => false,
    }
}

/// And of one over the registers.
pub fn tells_registers(reply: Reply) -> bool
    ensures { result ≡ states.tells_registers reply }
{
    match reply {
        Reply::BlockAfter { .. } | Reply::NoSpaceAfter { .. } | Reply::Swept { .. } => true,
        Reply::Block { .. }
        | Reply::NoSpace
        | Reply::Held(_)
        | Reply::Done
        | Reply::Cleared
        | Reply::Begun { .. }
        | Reply::Shown(_)
        | Reply::Trap(_) => false,
    }
}

/// And of one that took a tag.
pub fn takes_tags(reply: Reply) -> bool
    ensures { result ≡ snapshot.takes_tags reply }
{
    match reply {
        Reply::BlockAfter { cleared, .. } => cleared != 0,
        Reply::NoSpaceAfter { cleared } => cleared != 0,
        Reply::Swept { cleared, .. } => cleared != 0,
        Reply::Begun { cleared } => cleared != 0,
        Reply::Block { .. }
        | Reply::NoSpace
        | Reply::Held(_)
        | Reply::Done
        | Reply::Cleared
        | Reply::Shown(_)
        | Reply::Trap(_) => false,
    }
}
