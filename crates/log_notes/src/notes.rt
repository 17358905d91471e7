//! All that is said beside a verdict.

ghost use Rattle.std.specs.Prelude.{IfOk};
ghost use Rattle.log_notes.specs.Notes.{AreNotes};

use crate::hint::hint_of;
use crate::part::part_note;
use host_memory::Global;
use std::alloc::AllocError;

// The status of a faulty log.
const FAULTY: u32 = 3;

/// What is said beside a log that gets this status: what is wanted in its faulty line, where it is faulty, and then that it has
/// a part of a run, where it does. An error is want of memory.
pub fn notes_of(alloc: Global, log: &[u8], status: u32) -> Result<Vec<u8, Global>, AllocError>
    ensures { IfOk result (λ text. AreNotes log.now status text.items) }
{
    let part = part_note(alloc, log)?;
    if status != FAULTY {
        return Ok(part);
    }
    match hint_of(alloc, log)? {
        Some(mut text) => {
            text.extend_from_slice(&part)?;
            Ok(text)
        }
        None => Ok(part),
    }
}
