//! The lines that say what happened.

ghost use Rattle.std.specs.Prelude.{◌≡◌, ℕ, List, IfOk, IfSome};
ghost use Rattle.trace_text.specs.Lines.{words_of};
ghost use Rattle.trace_text.specs.Reading.{number_in, one_of};
ghost use Rattle.log_text.specs.Log.{IsValidAsked, IsValidEvent, asked_of, content_in, event_at, event_of, event_of_answer};

use crate::fault::LogFault;
use crate::given::{nothing, tag};
use crate::log::Event;
use crate::replies::reply;
use crate::revoking::{revoker_reply, untagged, visited};
use revoker_steps::RevokerCommand;
use trace_text::{
    Command, Line, LineFault, command, data, one_word, operand_number, split_name, two_words,
};

/// What stands before a line's arrow: a command, a revoker's command, or the address of a granule that was looked at.
#[derive(Clone, Copy)]
pub enum Asked {
    Command(Command),
    Revoker(RevokerCommand),
    Granule(u64),
}

// The address of a granule.
#[tactic(auto, unfolding(trace_text::specs::Reading::one_of))]
fn address(operands: &Line<'_>) -> Result<u64, LineFault>
    ensures { result ≡ one_of number_in (words_of operands.now) }
{
    let Some(word) = one_word(operands) else {
        return Err(LineFault::BadCount);
    };
    operand_number(word)
}

/// What a name and its operands ask.
#[tactic(auto, unfolding(crate::specs::Log::asked_of))]
pub fn question(name: &[u8], operands: &Line<'_>) -> Result<Asked, LineFault>
    ensures value { result ≡ asked_of name.now (words_of operands.now) }
    ensures valid { IfOk result IsValidAsked }
{
    if name == b"granule".as_slice() {
        let address = address(operands)?;
        return Ok(Asked::Granule(address));
    }
    if name == b"paint".as_slice() {
        nothing(operands)?;
        return Ok(Asked::Revoker(RevokerCommand::Paint));
    }
    if name == b"visit".as_slice() {
        let page = visited(operands)?;
        return Ok(Asked::Revoker(RevokerCommand::Visit { page }));
    }
    if name == b"untag".as_slice() {
        let command = untagged(operands)?;
        return Ok(Asked::Revoker(command));
    }
    if name == b"release".as_slice() {
        nothing(operands)?;
        return Ok(Asked::Revoker(RevokerCommand::Release));
    }
    let command = command(name, operands)?;
    Ok(Asked::Command(command))
}

// The tag and the bytes of a granule.
#[tactic(auto, unfolding(crate::specs::Log::content_in, trace_text::specs::Reading::two_of))]
fn content(line: &Line<'_>) -> Option<(bool, [u8; 16])>
    ensures { result ≡ content_in (words_of line.now) }
{
    let (first, second) = two_words(line)?;
    let Ok(tag) = tag(first) else { return None };
    let Ok(bytes) = data(second) else { return None };
    Some((tag, bytes))
}

/// What was asked, with what these words answer. None where they are no answer to it.
#[tactic(auto, unfolding(crate::specs::Log::event_of_answer))]
pub fn event_of_answer(asked: Asked, line: &Line<'_>) -> Option<Event>
    ensures value { result ≡ event_of_answer asked (words_of line.now) }
    ensures valid { IsValidAsked asked → IfSome result IsValidEvent }
{
    match asked {
        Asked::Granule(address) => {
            let (tag, bytes) = content(line)?;
            Some(Event::Seen {
                address,
                tag,
                bytes,
            })
        }
        Asked::Command(command) => {
            let answer = reply(line)?;
            Some(Event::Done { command, answer })
        }
        Asked::Revoker(command) => {
            let answer = revoker_reply(line)?;
            Some(Event::Revoked { command, answer })
        }
    }
}

// A line with an arrow.
#[tactic(auto, unfolding(crate::specs::Log::event_of))]
fn answered(
    number: u32,
    name: &[u8],
    operands: &Line<'_>,
    line: &Line<'_>,
) -> Result<Event, LogFault>
    ensures value { (words : List (List ℕ)) → result ≡ event_of number name.now words (Some (words_of operands.now, words_of line.now)) }
    ensures valid { IfOk result IsValidEvent }
{
    let asked = match question(name, operands) {
        Ok(asked) => asked,
        Err(fault) => return Err(LogFault::Trace(fault.at_line(number))),
    };
    event_of_answer(asked, line).ok_or(LogFault::BadAnswer(number))
}

// What is wrong with a line without an arrow: its words, or that the answer lacks.
#[tactic(auto, unfolding(crate::specs::Log::event_of))]
fn unanswered(number: u32, name: &[u8], words: &Line<'_>) -> LogFault
    ensures { event_of number name.now (words_of words.now) None ≡ Err result }
{
    match question(name, words) {
        Ok(_) => LogFault::BadAnswer(number),
        Err(fault) => LogFault::Trace(fault.at_line(number)),
    }
}

/// What a line after the given lines is: nothing, where it is passed over, or what happened.
#[tactic(auto, unfolding(crate::specs::Log::event_at))]
pub fn event_line(number: u32, line: &Line<'_>) -> Result<Option<Event>, LogFault>
    ensures value { result ≡ event_at number (words_of line.now) }
    ensures valid { IfOk result (λ read. IfSome read IsValidEvent) }
{
    let Some((name, words)) = split_name(line) else {
        return Ok(None);
    };
    let Some((operands, told)) = words.split_at_word(b"->") else {
        return Err(unanswered(number, name, &words));
    };
    let event = answered(number, name, &operands, &told)?;
    Ok(Some(event))
}
