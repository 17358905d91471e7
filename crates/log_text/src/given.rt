//! The given lines, which say how the heap was when the log begins.

ghost use Rattle.std.specs.Prelude.{◌≡◌, ◌<◌, IfOk};
ghost use Rattle.tag_memory.specs.Cells.{register_count};
ghost use Rattle.trace_text.specs.Lines.{words_of};
ghost use Rattle.trace_text.specs.Reading.{data_in, none_of, number_in, register_in, three_of, two_of};
ghost use Rattle.log_text.specs.Log.{IsValidEarly, IsValidGiven, early_at, given_of, tag_in, top_in};

use crate::fault::LogFault;
use crate::log::Given;
use crate::numbers::bit;
use trace_text::{
    Line, LineFault, data, no_word, operand_number, register, split_name, three_words, two_words,
};

/// The tag that an operand writes.
pub fn tag(word: &[u8]) -> Result<bool, LineFault>
    ensures { result ≡ tag_in word.now }
{
    bit(word).ok_or(LineFault::BadNumber)
}

// The end of a block that an operand writes: an address, or 2^64.
fn top(word: &[u8]) -> Result<u128, LineFault>
    ensures { result ≡ top_in word.now }
{
    if word == b"0x10000000000000000".as_slice() {
        return Ok(1 << 64);
    }
    let top = operand_number(word)?;
    Ok(u128::from(top))
}

// The base and the top of a block.
#[tactic(auto, unfolding(trace_text::specs::Reading::two_of))]
fn block(operands: &Line<'_>) -> Result<(u64, u128), LineFault>
    ensures { result ≡ two_of number_in top_in (words_of operands.now) }
{
    let Some((base, end)) = two_words(operands) else {
        return Err(LineFault::BadCount);
    };
    let base = operand_number(base)?;
    let top = top(end)?;
    Ok((base, top))
}

/// That no operand follows.
#[tactic(auto, unfolding(trace_text::specs::Reading::none_of))]
pub fn nothing(operands: &Line<'_>) -> Result<(), LineFault>
    ensures { result ≡ none_of (words_of operands.now) }
{
    if no_word(operands) {
        Ok(())
    } else {
        Err(LineFault::BadCount)
    }
}

// A register, and its tag and bytes.
#[tactic(auto, unfolding(trace_text::specs::Reading::three_of))]
fn register_content(operands: &Line<'_>) -> Result<(u8, bool, [u8; 16]), LineFault>
    ensures value { result ≡ three_of register_in tag_in data_in (words_of operands.now) }
    ensures below { IfOk result (λ read. read.0 < register_count) }
{
    let Some((first, second, third)) = three_words(operands) else {
        return Err(LineFault::BadCount);
    };
    let register = register(first)?;
    let tag = tag(second)?;
    let bytes = data(third)?;
    Ok((register, tag, bytes))
}

// The address of a granule, and its tag and bytes.
#[tactic(auto, unfolding(trace_text::specs::Reading::three_of))]
fn granule_content(operands: &Line<'_>) -> Result<(u64, bool, [u8; 16]), LineFault>
    ensures { result ≡ three_of number_in tag_in data_in (words_of operands.now) }
{
    let Some((first, second, third)) = three_words(operands) else {
        return Err(LineFault::BadCount);
    };
    let address = operand_number(first)?;
    let tag = tag(second)?;
    let bytes = data(third)?;
    Ok((address, tag, bytes))
}

// What the words after `given` say.
#[tactic(auto, unfolding(crate::specs::Log::given_of))]
fn read_given(words: &Line<'_>) -> Result<Given, LineFault>
    ensures value { result ≡ given_of (words_of words.now) }
    ensures valid { IfOk result IsValidGiven }
{
    let Some((kind, operands)) = words.split_word() else {
        return Err(LineFault::BadCount);
    };
    if kind == b"live".as_slice() {
        let (base, top) = block(&operands)?;
        return Ok(Given::Live { base, top });
    }
    if kind == b"waiting".as_slice() {
        let (base, top) = block(&operands)?;
        return Ok(Given::Waiting { base, top });
    }
    if kind == b"painted".as_slice() {
        let (base, top) = block(&operands)?;
        return Ok(Given::Painted { base, top });
    }
    if kind == b"epoch".as_slice() {
        nothing(&operands)?;
        return Ok(Given::Epoch);
    }
    if kind == b"register".as_slice() {
        let (register, tag, bytes) = register_content(&operands)?;
        return Ok(Given::Register {
            register,
            tag,
            bytes,
        });
    }
    if kind == b"granule".as_slice() {
        let (address, tag, bytes) = granule_content(&operands)?;
        return Ok(Given::Granule {
            address,
            tag,
            bytes,
        });
    }
    Err(LineFault::BadCommand)
}

/// What a line before the first event is.
#[derive(Clone, Copy)]
pub enum Early {
    Passed,
    Given(Given),
    Event,
}

/// What a line after the heap line is, as long as no event came. The words of an event aren't looked at.
#[tactic(auto, unfolding(crate::specs::Log::early_at))]
pub fn early_line(number: u32, line: &Line<'_>) -> Result<Early, LogFault>
    ensures value { result ≡ early_at number (words_of line.now) }
    ensures valid { IfOk result IsValidEarly }
{
    let Some((name, words)) = split_name(line) else {
        return Ok(Early::Passed);
    };
    if name != b"given".as_slice() {
        return Ok(Early::Event);
    }
    match read_given(&words) {
        Ok(given) => Ok(Early::Given(given)),
        Err(fault) => Err(LogFault::Trace(fault.at_line(number))),
    }
}
