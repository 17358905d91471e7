//! The program over any devices.

ghost use Rattle.std.specs.Prelude.{◌≡◌, ◌≢◌, ◌↔◌, ◌||◌, IfOk, false, true};
ghost use Rattle.std.specs.Io.KnownBytes.{Appends};
ghost use Rattle.cap_codec.specs.declared.word.Word.{Word};
ghost use Rattle.command_line.specs.declared.asked.Options.{Options as TheOptions};
ghost use Rattle.command_line.specs.Asked.{NamesRun, texts};
ghost use Rattle.program_devices.specs.Answer.{BeginsAnswer, HasAnswered, refusal_line, refusal_status};
ghost use Rattle.program_devices.specs.Device.{AppendsBeginning, ReadsFew, most_read};
ghost use Rattle.heap_command.specs.Answer.{IsAnswer};
ghost use Rattle.heap_reply.specs.WordLine.{word_line};
ghost use Rattle.heap_command.specs.Text.{usage_line};
ghost use Rattle.heap_command.specs.Hex.{IsTextOf};

use crate::runs::run_answer;
use cap_codec::from_bytes;
use command_line::{Asked, Refusal, asked_by};
use heap_reply::word_line;
use hex::FromHex;
use host_memory::Global;
use program_devices::{Answer, ReadFault, Sink, Source, give, read_text};
use std::alloc::AllocError;
use std::thread::Threads;
use trace_text::LONGEST_TEXT;

const USAGE: &[u8] =
    b"usage: heap_tool run [--workers N] [--cut N] [--image] or heap_tool word HEX\n";

/// Runs the program on these words, of which the first is its name, and answers the exit status: 0
/// where it is done, 1 for want of memory, 2 where the words are refused, 3 where the trace is faulty,
/// and 4 where a device failed. The words are judged before the first read, and nothing is written
/// before the last. No more than 4,194,305 bytes are read, whatever the status.
pub fn tool<'a, R: Threads + Sync, I: Source, O: Sink>(
    rt: &R,
    alloc: Global,
    words: &'a [&'a str],
    reader: &mut I,
    writer: &mut O,
) -> u8
    requires reader { I.failed reader.old ≡ false }
    requires writer { O.failed writer.old ≡ false }
    ensures complete { result ≢ 4 → HasAnswered (IsAnswer (texts words.entry.now) (I.remaining reader.old) (I.remaining reader.new))
        result (O.contents writer.old) (O.contents writer.new) }
    ensures part { result ≡ 4 → BeginsAnswer (IsAnswer (texts words.entry.now) (I.remaining reader.old) (I.remaining reader.new))
        (O.contents writer.old) (O.contents writer.new) }
    ensures failed { (result ≡ 4) ↔ ((I.failed reader.new || O.failed writer.new) ≡ true) }
    ensures consumed { ReadsFew most_read 0 (I.remaining reader.old) (I.remaining reader.new) }
    ensures unread { ((options : TheOptions) → NamesRun (texts words.entry.now) options → ⊥) → reader.new ≡ reader.old }
    // Where a read failed nothing is written.
    ensures unwritten { I.failed reader.new ≡ true → writer.new ≡ writer.old }
{
    match asked_by(alloc, words) {
        Ok(Asked::Word(hex)) => give(writer, word_answer(alloc, hex), USAGE),
        Ok(Asked::Run(options)) => match read_text(alloc, reader, LONGEST_TEXT) {
            Ok(text) => give(writer, run_answer(rt, alloc, &text, options), USAGE),
            Err(ReadFault::Memory) => refuse(writer, Refusal::Memory),
            Err(ReadFault::Failed) => 4,
        },
        Err(refusal) => refuse(writer, refusal),
    }
}

/// Writes the line of a refusal, and answers its status, or 4 where a write failed.
pub fn refuse<O: Sink>(writer: &mut O, refusal: Refusal) -> u8
    requires { O.failed writer.old ≡ false }
    ensures complete { result ≢ 4 → (result ≡ refusal_status refusal) × Appends (O.contents writer.old) (O.contents writer.new) (refusal_line usage_line refusal) }
    ensures part { result ≡ 4 → AppendsBeginning (O.contents writer.old) (O.contents writer.new) (refusal_line usage_line refusal) }
    ensures failed { (result ≡ 4) ↔ (O.failed writer.new ≡ true) }
{
    program_devices::refuse(writer, refusal, USAGE)
}

// The line of the word that this text is.
fn word_answer(alloc: Global, hex: &str) -> Result<Answer, Refusal>
    ensures status { IfOk result (λ answer. answer.status ≡ 0) }
    ensures ok { IfOk result (λ answer. (w : Word) × IsTextOf hex.now w × (answer.text.items ≡ word_line w)) }
    ensures refused { result ≡ Err Refusal.Words → (w : Word) → IsTextOf hex.now w → ⊥ }
{
    let Ok(bytes) = <[u8; 16] as FromHex>::from_hex(hex) else {
        return Err(Refusal::Words);
    };
    match word_line(alloc, from_bytes(bytes)) {
        Ok(line) => Ok(Answer {
            status: 0,
            text: line.into_bytes(),
        }),
        Err(AllocError) => Err(Refusal::Memory),
    }
}
