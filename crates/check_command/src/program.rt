//! The program over any devices.

ghost use Rattle.std.specs.Prelude.{◌≡◌, ◌≢◌, ◌↔◌, ◌||◌, ℕ, List, None, false, true};
ghost use Rattle.std.specs.Io.KnownBytes.{Appends};
ghost use Rattle.command_line.specs.declared.asked.Options.{Options as TheOptions};
ghost use Rattle.command_line.specs.Asked.{NamesStates, texts};
ghost use Rattle.program_devices.specs.Answer.{BeginsAnswer, HasAnswered, refusal_line, refusal_status};
ghost use Rattle.program_devices.specs.Device.{AppendsBeginning, ReadsFew, ReadsUpTo};
ghost use Rattle.check_command.specs.Answer.{IsAnswer, most_read};
ghost use Rattle.check_command.specs.Beside.{IsBesideRead, IsSaid, is_silent};
ghost use Rattle.log_notes.specs.Beside.{IsBeside};
ghost use Rattle.log_notes.specs.Part.{part_comment};
ghost use Rattle.check_command.specs.Text.{usage_line};

use crate::checking::check_answer;
use crate::part::say_part;
use command_line::{Refusal, states_options_by};
use host_memory::Global;
use log_notes::hint_of;
use log_text::LONGEST_LOG;
use program_devices::{Failed, ReadFault, Sink, Source, give, read_text, send};
use std::thread::Threads;

const USAGE: &[u8] = b"usage: heap_check [--workers N] [--cut N]\n";

/// Judges the log that the reader has, for these words, of which the first is the program's name, and answers the exit
/// status: 0 where it agrees, 1 for want of memory, 2 where the words are refused, 3 where the log is faulty, 4 where a device
/// failed, and 5 where an event differs, or the given lines tell no safe state. The words are judged before the first read,
/// and nothing is written before the last. No more than 16,777,217 bytes are read, whatever the status. Where the log is faulty,
/// a line goes to `errors` that tells what is wanted in its faulty line; and where its last line says that it has a part of
/// a run, a line that tells it. Whether these went out changes nothing.
pub fn check_tool<'a, R: Threads + Sync, I: Source, O: Sink, E: Sink>(
    rt: &R,
    alloc: Global,
    words: &'a [&'a str],
    reader: &mut I,
    writer: &mut O,
    errors: &mut E,
) -> u8
    requires reader { I.failed reader.old ≡ false }
    requires writer { O.failed writer.old ≡ false }
    requires errors { E.failed errors.old ≡ false }
    ensures complete { result ≢ 4 → HasAnswered (IsAnswer (texts words.entry.now) (I.remaining reader.old) (I.remaining reader.new))
        result (O.contents writer.old) (O.contents writer.new) }
    ensures part { result ≡ 4 → BeginsAnswer (IsAnswer (texts words.entry.now) (I.remaining reader.old) (I.remaining reader.new))
        (O.contents writer.old) (O.contents writer.new) }
    ensures failed { (result ≡ 4) ↔ ((I.failed reader.new || O.failed writer.new) ≡ true) }
    ensures consumed { ReadsFew most_read 0 (I.remaining reader.old) (I.remaining reader.new) }
    ensures unread { ((options : TheOptions) → NamesStates (texts words.entry.now) options → ⊥) → reader.new ≡ reader.old }
    // Where a read failed nothing is written.
    ensures unwritten { I.failed reader.new ≡ true → writer.new ≡ writer.old }
    // Beside a log that isn't faulty nothing is said, unless it has a part of a run.
    ensures unsaid { result ≢ 3 → ((input : List ℕ) → ReadsUpTo most_read (I.remaining reader.old) (I.remaining reader.new) input → part_comment input ≡ None)
        → errors.new ≡ errors.old }
    ensures silent { is_silent result ≡ true → errors.new ≡ errors.old }
    ensures said { is_silent result ≡ false → IsSaid (IsBesideRead (I.remaining reader.old) (I.remaining reader.new) result)
        (E.failed errors.new) (E.contents errors.old) (E.contents errors.new) }
{
    match states_options_by(alloc, words) {
        Ok(options) => match read_text(alloc, reader, LONGEST_LOG) {
            Ok(text) => {
                let status = give(writer, check_answer(rt, alloc, &text, options), USAGE);
                say(alloc, errors, status, &text);
                status
            }
            Err(ReadFault::Memory) => refuse(writer, Refusal::Memory),
            Err(ReadFault::Failed) => 4,
        },
        Err(refusal) => refuse(writer, refusal),
    }
}

// Says what is wanted in the faulty line of a log, and that it has a part of a run, where it does.
fn say_fault<E: Sink>(alloc: Global, errors: &mut E, log: &[u8])
    requires { E.failed errors.old ≡ false }
    ensures { IsSaid (IsBeside log.now 3) (E.failed errors.new) (E.contents errors.old) (E.contents errors.new) }
{
    let Ok(Some(text)) = hint_of(alloc, log) else {
        return say_part(alloc, errors, log);
    };
    match send(errors, &text) {
        Ok(()) => say_part(alloc, errors, log),
        Err(Failed) => {}
    }
}

// Says what goes with this status of a log.
fn say<E: Sink>(alloc: Global, errors: &mut E, status: u8, log: &[u8])
    requires { E.failed errors.old ≡ false }
    ensures unsaid { status ≢ 3 → part_comment log.now ≡ None → errors.new ≡ errors.old }
    ensures silent { is_silent status ≡ true → errors.new ≡ errors.old }
    ensures said { is_silent status ≡ false → IsSaid (IsBeside log.now status) (E.failed errors.new) (E.contents errors.old) (E.contents errors.new) }
{
    match status {
        1 | 2 | 4 => {}
        3 => say_fault(alloc, errors, log),
        _ => say_part(alloc, errors, log),
    }
}

/// Writes the line of a refusal, and answers its status, or 4 where a write failed.
pub fn refuse<O: Sink>(writer: &mut O, refusal: Refusal) -> u8
    requires { O.failed writer.old ≡ false }
    ensures complete { result ≢ 4 → (result ≡ refusal_status refusal) × Appends (O.contents writer.old) (O.contents writer.new) (refusal_line usage_line refusal) }
    ensures part { result ≡ 4 → AppendsBeginning (O.contents writer.old) (O.contents writer.new) (refusal_line usage_line refusal) }
    ensures failed { (result ≡ 4) ↔ (O.failed writer.new ≡ true) }
{
    program_devices::refuse(writer, refusal, USAGE)
}
