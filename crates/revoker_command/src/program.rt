//! The program over any devices.

ghost use Rattle.std.specs.Prelude.{◌≡◌, ◌≢◌, ◌↔◌, ◌||◌, IfErr, IfOk, false, true};
ghost use Rattle.std.specs.Io.KnownBytes.{Appends};
ghost use Rattle.command_line.specs.Asked.{AreWithinLimits, texts};
ghost use Rattle.program_devices.specs.Answer.{BeginsAnswer, HasAnswered, refusal_line, refusal_status};
ghost use Rattle.program_devices.specs.Device.{AppendsBeginning, ReadsFew, most_read};
ghost use Rattle.revoker_runs.specs.Answer.{IsPlanAnswer};
ghost use Rattle.revoker_command.specs.Answer.{IsAnswer, usage_line};
ghost use Rattle.revoker_command.specs.Words.{NamesPlan};
ghost use Rattle.revoker_command.specs.declared.words.Choice.{Choice as TheChoice};

use crate::words::{Choice, choice_by};
use command_line::Refusal;
use heap_machine::Workers;
use host_memory::Global;
use program_devices::{Answer, ReadFault, Sink, Source, cutting_of, give, read_text};
use revoker_runs::plan_answer;
use std::alloc::AllocError;
use std::thread::Threads;
use trace_text::LONGEST_TEXT;

const USAGE: &[u8] = b"usage: heap_revoker by-hand|cornucopia|reloaded [--workers N] [--cut N]\n";

/// Runs the plan that the reader has, for these words, of which the first is the program's name, writes the log of what
/// happened, and answers the exit status: 0 where it is done, 1 for want of memory, 2 where the words are refused, 3 where the
/// plan is faulty, and 4 where a device failed. The words are judged before the first read, and nothing is written before the
/// last. No more than 4,194,305 bytes are read, whatever the status.
pub fn plan_tool<'a, R: Threads + Sync, I: Source, O: Sink>(
    rt: &R,
    alloc: Global,
    words: &'a [&'a str],
    reader: &mut I,
    writer: &mut O,
) -> u8
    requires reader { I.failed reader.old ≡ false }
    requires writer { O.failed writer.old ≡ false }
    ensures complete { result ≢ 4 → HasAnswered (IsAnswer (texts words.entry.now) (I.remaining reader.old) (I.remaining reader.new))
        result (O.contents writer.old) (O.contents writer.new) }
    ensures part { result ≡ 4 → BeginsAnswer (IsAnswer (texts words.entry.now) (I.remaining reader.old) (I.remaining reader.new))
        (O.contents writer.old) (O.contents writer.new) }
    ensures failed { (result ≡ 4) ↔ ((I.failed reader.new || O.failed writer.new) ≡ true) }
    ensures consumed { ReadsFew most_read 0 (I.remaining reader.old) (I.remaining reader.new) }
    ensures unread { ((choice : TheChoice) → NamesPlan (texts words.entry.now) choice → ⊥) → reader.new ≡ reader.old }
    // Where a read failed nothing is written.
    ensures unwritten { I.failed reader.new ≡ true → writer.new ≡ writer.old }
{
    match choice_by(alloc, words) {
        Ok(choice) => match read_text(alloc, reader, LONGEST_TEXT) {
            Ok(text) => give(writer, answer_for(rt, alloc, &text, choice), USAGE),
            Err(ReadFault::Memory) => refuse(writer, Refusal::Memory),
            Err(ReadFault::Failed) => 4,
        },
        Err(refusal) => refuse(writer, refusal),
    }
}

/// Writes the line of a refusal, and answers its status, or 4 where a write failed.
pub fn refuse<O: Sink>(writer: &mut O, refusal: Refusal) -> u8
    requires { O.failed writer.old ≡ false }
    ensures complete { result ≢ 4 → (result ≡ refusal_status refusal) × Appends (O.contents writer.old) (O.contents writer.new) (refusal_line usage_line refusal) }
    ensures part { result ≡ 4 → AppendsBeginning (O.contents writer.old) (O.contents writer.new) (refusal_line usage_line refusal) }
    ensures failed { (result ≡ 4) ↔ (O.failed writer.new ≡ true) }
{
    program_devices::refuse(writer, refusal, USAGE)
}

// The log of the plan that this text is, or the line of its fault.
fn answer_for<R: Threads + Sync>(
    rt: &R,
    alloc: Global,
    text: &[u8],
    choice: Choice,
) -> Result<Answer, Refusal>
    requires limits { AreWithinLimits choice.options }
    ensures ok { IfOk result (λ answer. IsPlanAnswer choice.way text.now answer.status answer.text.items) }
    ensures err { IfErr result (λ refusal. refusal ≡ Refusal.Memory) }
{
    let Choice { way, options } = choice;
    match plan_answer(&Workers { rt }, alloc, text, way, cutting_of(options)) {
        Ok(answer) => Ok(Answer {
            status: answer.status,
            text: answer.text,
        }),
        Err(AllocError) => Err(Refusal::Memory),
    }
}
