//! What the words of the program's command line ask for.

ghost use Rattle.std.specs.Prelude.{◌≡◌, Err, IfOk};
ghost use Rattle.command_line.specs.Asked.{texts};
ghost use Rattle.revoker_command.specs.Words.{NamesPlan, way_in, way_named};
ghost use Rattle.revoker_command.specs.declared.words.Choice.{Choice as TheChoice};

use command_line::{Options, Refusal, states_options_by};
use host_memory::Global;
use revoker_runs::Way;

/// Who does the steps of the plan's revoker, and how its sweeps are cut.
#[derive(Clone, Copy, Debug, PartialEq, Eq)]
pub struct Choice {
    pub way: Way,
    pub options: Options,
}

// Who has this name.
fn way_named(name: &str) -> Option<Way>
    ensures { result ≡ way_named name.now }
{
    match name {
        "by-hand" => Some(Way::ByHand),
        "cornucopia" => Some(Way::Cornucopia),
        "reloaded" => Some(Way::Reloaded),
        _ => None,
    }
}

/// Reads the words of a command line: the program's name, who does the revoker's steps, and then the options of a program
/// that tells states.
pub fn choice_by<'a>(alloc: Global, words: &'a [&'a str]) -> Result<Choice, Refusal>
    ensures ok { IfOk result (NamesPlan (texts words.entry.now)) }
    ensures refused { result ≡ Err Refusal.Words → (choice : TheChoice) → NamesPlan (texts words.entry.now) choice → ⊥ }
{
    let Some(name) = words.get(1) else {
        return Err(Refusal::Words);
    };
    let Some(way) = way_named(name) else {
        return Err(Refusal::Words);
    };
    let options = states_options_by(alloc, &words[1..])?;
    Ok(Choice { way, options })
}
