//! Lines whose answers aren't read.

ghost use Rattle.std.specs.Prelude.{MatchOption};
ghost use Rattle.trace_text.specs.Lines.{words_of};
ghost use Rattle.log_text.specs.Asking.{IsAskedLine, IsFaultyLine};

use crate::event::{Asked, question};
use trace_text::{Line, split_name};

/// What a line after the given lines asks, and what follows its arrow, which isn't read. The outer None is for a line
/// that is faulty before that, and the inner one for a line that is passed over.
#[inline(always)]
#[tactic(auto, unfolding(crate::specs::Log::event_at, crate::specs::Log::event_of))]
pub fn asked_line<'a>(line: &Line<'a>) -> Option<Option<(Asked, Line<'a>)>>
    ensures { MatchOption result (IsFaultyLine (words_of line.now)) (IsAskedLine (words_of line.now)) }
{
    let Some((name, words)) = split_name(line) else {
        return Some(None);
    };
    let (operands, told) = words.split_at_word(b"->")?;
    match question(name, &operands) {
        Ok(asked) => Some(Some((asked, told))),
        Err(_) => None,
    }
}
