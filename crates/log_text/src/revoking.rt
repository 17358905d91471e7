//! What a revoker does: the operands of its commands, and the words of an answer to one.

ghost use Rattle.std.specs.Prelude.{◌≡◌, IfOk};
ghost use Rattle.trace_text.specs.Lines.{words_of};
ghost use Rattle.trace_text.specs.Reading.{one_of};
ghost use Rattle.revoker_steps.specs.Valid.{IsValid};
ghost use Rattle.log_text.specs.RevokerLines.{page_in, revoker_reply_in, revoker_trap_in, untag_in};

use crate::numbers::decimal;
use revoker_steps::{RevokerCommand, RevokerReply, RevokerTrap};
use trace_text::{Line, LineFault, no_word, number, one_word, operand_number, register};

// The page that a word names.
fn page(word: &[u8]) -> Result<u32, LineFault>
    ensures { result ≡ page_in word.now }
{
    match number(word) {
        Some(page) if page <= u64::from(u32::MAX) => Ok(page as u32),
        _ => Err(LineFault::BadNumber),
    }
}

/// The page that the one operand names.
#[tactic(auto, unfolding(trace_text::specs::Reading::one_of))]
pub fn visited(operands: &Line<'_>) -> Result<u32, LineFault>
    ensures { result ≡ one_of page_in (words_of operands.now) }
{
    let Some(word) = one_word(operands) else {
        return Err(LineFault::BadCount);
    };
    page(word)
}

// What loses its tag by this word.
fn untag(word: &[u8]) -> Result<RevokerCommand, LineFault>
    ensures value { result ≡ untag_in word.now }
    ensures valid { IfOk result IsValid }
{
    if word.strip_prefix(b"c").is_some() {
        let register = register(word)?;
        return Ok(RevokerCommand::UntagRegister { register });
    }
    let address = operand_number(word)?;
    Ok(RevokerCommand::UntagGranule { address })
}

/// What loses its tag by the one operand.
#[tactic(auto, unfolding(trace_text::specs::Reading::one_of))]
pub fn untagged(operands: &Line<'_>) -> Result<RevokerCommand, LineFault>
    ensures value { result ≡ one_of untag_in (words_of operands.now) }
    ensures valid { IfOk result IsValid }
{
    let Some(word) = one_word(operands) else {
        return Err(LineFault::BadCount);
    };
    untag(word)
}

// The trap with this name.
#[tactic(auto, unfolding(crate::specs::RevokerLines::revoker_trap_in))]
fn revoker_trap(name: &[u8]) -> Option<RevokerTrap>
    ensures { result ≡ revoker_trap_in name.now }
{
    if name == b"open".as_slice() {
        return Some(RevokerTrap::Open);
    }
    if name == b"notopen".as_slice() {
        return Some(RevokerTrap::NotOpen);
    }
    if name == b"bounds".as_slice() {
        return Some(RevokerTrap::Bounds);
    }
    if name == b"align".as_slice() {
        return Some(RevokerTrap::Align);
    }
    if name == b"left".as_slice() {
        return Some(RevokerTrap::Left);
    }
    None
}

/// The answer to a revoker's command whose text has the words of this line.
#[tactic(auto, unfolding(crate::specs::RevokerLines::revoker_reply_in))]
pub fn revoker_reply(line: &Line<'_>) -> Option<RevokerReply>
    ensures { result ≡ revoker_reply_in (words_of line.now) }
{
    let (name, rest) = line.split_word()?;
    if name == b"ok".as_slice() {
        return no_word(&rest).then_some(RevokerReply::Done);
    }
    if name == b"cleared".as_slice() {
        let cleared = decimal(one_word(&rest)?, u64::from(u32::MAX))? as u32;
        return Some(RevokerReply::Cleared { cleared });
    }
    if name == b"released".as_slice() {
        let bytes = decimal(one_word(&rest)?, u64::MAX)?;
        return Some(RevokerReply::Released { bytes });
    }
    if name == b"trap".as_slice() {
        return Some(RevokerReply::Trap(revoker_trap(one_word(&rest)?)?));
    }
    None
}
