//! That a log has a part of a run is said beside its verdict.

ghost use Rattle.std.specs.Prelude.{◌≡◌, None, false};
ghost use Rattle.check_command.specs.Beside.{IsSaid};
ghost use Rattle.log_notes.specs.Part.{IsPartTold, part_comment};

use host_memory::Global;
use log_notes::{part_comment, part_line};
use program_devices::{Sink, send};
use std::alloc::AllocError;

const BARE: &[u8] = b"heap_check: the log has a part, as its last line says\n";

/// Says that a log has a part of a run, where its last line does. Whether it goes out changes nothing.
pub fn say_part<E: Sink>(alloc: Global, errors: &mut E, log: &[u8])
    requires { E.failed errors.old ≡ false }
    ensures whole_run { part_comment log.now ≡ None → errors.new ≡ errors.old }
    ensures said { IsSaid (IsPartTold log.now) (E.failed errors.new) (E.contents errors.old) (E.contents errors.new) }
{
    let Some(comment) = part_comment(log) else {
        return;
    };
    match part_line(alloc, comment) {
        Ok(line) => {
            let _ = send(errors, &line);
        }
        Err(AllocError) => {
            let _ = send(errors, BARE);
        }
    }
}
