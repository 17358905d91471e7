//! Texts that are logs that agree.

ghost use Rattle.std.specs.Prelude.{IfSome};
ghost use Rattle.agreed_log.specs.Agreed.{IsAgreed};

use crate::judge::Judge;
use given_state::start;
use heap_log::Tally;
use heap_machine::Stepper;
use heap_reply::ShortText;
use host_memory::Global;
use log_text::read_start;
use sweep_pool::Cutting;

/// What the events of a log come to, where it agrees: its given lines are safe, and each event follows. Its sweeps are cut as
/// `cutting` says. None says nothing: the text may be faulty or differ, or be a log that agrees in an unusual spelling, as
/// with two blanks before an answer, or memory ran out.
pub fn agreed<S: Stepper>(
    stepper: &S,
    alloc: Global,
    text: &[u8],
    cutting: Cutting,
) -> Option<Tally>
    requires ready { S.ready }
    ensures { IfSome result (IsAgreed text.now) }
{
    let Ok(opening) = read_start(alloc, text) else {
        return None;
    };
    let Ok(machine) = start(alloc, opening.base, opening.pages, &opening.givens, cutting) else {
        return None;
    };
    let mut judge = Judge {
        machine,
        tally: Tally {
            tags: 0,
            commands: 0,
            blocks: 0,
            passes: 0,
        },
        text: ShortText::new(),
    };
    judge.lines(stepper, alloc, opening.next, opening.rest)?;
    Some(judge.tally)
}
