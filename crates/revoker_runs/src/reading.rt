//! Lines of a plan.

ghost use Rattle.std.specs.Prelude.{◌≡◌, ◌≢◌, Err, IfOk, IfSome, true};
ghost use Rattle.trace_text.specs.Command.{IsValid};
ghost use Rattle.trace_text.specs.Lines.{words_of};
ghost use Rattle.log_text.specs.Log.{IsValidAsked};
ghost use Rattle.revoker_runs.specs.Plan.{plan_at, planned};
ghost use Rattle.revoker_runs.specs.Ways.{MayDo};

use crate::revoker::Revoker;
use log_text::{Asked, question};
use trace_text::{Line, LineFault, TraceFault, split_name};

// What a line asks whose words ask this in a log.
fn planned<R: Revoker>(revoker: &R, number: u32, asked: Asked) -> Result<Option<Asked>, TraceFault>
    requires { IsValidAsked asked }
    ensures value { result ≡ planned R.own R.takes number (Ok asked) }
    ensures valid { IfOk result (λ read. IfSome read (λ asked. IsValidAsked asked × MayDo R.takes asked)) }
    ensures memory { result ≢ Err TraceFault.Memory }
{
    match asked {
        Asked::Command(command) => match revoker.own_step(command) {
            Some(step) => Ok(Some(Asked::Revoker(step))),
            None => Ok(Some(asked)),
        },
        Asked::Revoker(step) if revoker.takes_step(step) => Ok(Some(asked)),
        Asked::Revoker(_) | Asked::Granule(_) => Err(TraceFault::BadCommand(number)),
    }
}

/// What the line with this number asks: nothing, a command, or a step of the revoker.
#[tactic(auto, unfolding(crate::specs::Plan::plan_at))]
pub fn plan_line<R: Revoker>(
    revoker: &R,
    number: u32,
    line: &Line<'_>,
) -> Result<Option<Asked>, TraceFault>
    ensures value { result ≡ plan_at R.own R.takes number (words_of line.now) }
    ensures valid { IfOk result (λ read. IfSome read (λ asked. IsValidAsked asked × MayDo R.takes asked)) }
    ensures memory { result ≢ Err TraceFault.Memory }
{
    let Some((name, operands)) = split_name(line) else {
        return Ok(None);
    };
    match question(name, &operands) {
        Ok(asked) => planned(revoker, number, asked),
        Err(fault) => Err(fault.at_line(number)),
    }
}
