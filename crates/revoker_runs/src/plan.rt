//! Runs of plans.

ghost use Rattle.std.specs.Prelude.{◌≡◌, ◌≢◌, ◌<◌, ◌≤◌, ◌+◌, ◌++◌, ◌^◌, ℕ, Err, List, OnOk, Some, length, true};
ghost use Rattle.std.specs.Vec.{vec_capacity};
ghost use Rattle.trace_text.specs.Command.{IsValid};
ghost use Rattle.trace_text.specs.Lines.{lines_of, words_of};
ghost use Rattle.trace_text.specs.declared.fault.TraceFault.{TraceFault as TheTraceFault};
ghost use Rattle.revoker_steps.specs.Valid as allowed;
ghost use Rattle.revoker_runs.specs.Plan.{Writes, WritesActs, WritesAnswer, WritesRead, fault_in, plan_at};

use crate::lines::{push_acts, push_answered, push_line};
use crate::reading::plan_line;
use crate::revoker::Revoker;
use heap_machine::{RevokerCommand, Stepper};
use heap_trace::RunFault;
use host_memory::Global;
use log_text::Asked;
use revokers::Act;
use std::alloc::AllocError;
use trace_text::{Command, Line, TraceFault, split_line};

// Does a command of the program, and writes what the revoker did before it, and the line with its answer.
fn write_command<S: Stepper, R: Revoker>(
    stepper: &S,
    alloc: Global,
    revoker: &mut R,
    acts: &mut Vec<Act, Global>,
    text: &mut Vec<u8, Global>,
    line: &Line<'_>,
    command: Command,
) -> Result<(), AllocError>
    requires ready { S.ready }
    requires valid { IsValid command }
    requires room { 1057 ≤ vec_capacity acts.old }
    ensures writes { OnOk result ((told : List ℕ) × WritesAnswer R.steps revoker.old line.now command told revoker.new × (text.new.items ≡ text.old.items ++ told)) }
    ensures kept { vec_capacity acts.new ≡ vec_capacity acts.old }
{
    acts.clear();
    let Ok(answer) = revoker.step(stepper, alloc, command, acts) else {
        return Err(AllocError);
    };
    push_acts(alloc, text, acts)?;
    push_answered(text, line, &answer)
}

// Does a step of the revoker, and writes each that this took.
fn write_step<R: Revoker>(
    alloc: Global,
    revoker: &mut R,
    acts: &mut Vec<Act, Global>,
    text: &mut Vec<u8, Global>,
    step: RevokerCommand,
) -> Result<(), AllocError>
    requires valid { allowed.IsValid step }
    requires taken { R.takes step ≡ true }
    requires room { 1057 ≤ vec_capacity acts.old }
    ensures writes { OnOk result ((told : List ℕ) × WritesActs R.does revoker.old step told revoker.new × (text.new.items ≡ text.old.items ++ told)) }
    ensures kept { vec_capacity acts.new ≡ vec_capacity acts.old }
{
    acts.clear();
    revoker.revoke(step, acts);
    push_acts(alloc, text, acts)
}

// Does what the line with this number asks, and writes it with what that came to.
fn write_line<S: Stepper, R: Revoker>(
    stepper: &S,
    alloc: Global,
    revoker: &mut R,
    acts: &mut Vec<Act, Global>,
    text: &mut Vec<u8, Global>,
    number: u32,
    line: &Line<'_>,
) -> Result<(), RunFault>
    requires ready { S.ready }
    requires room { 1057 ≤ vec_capacity acts.old }
    ensures writes { OnOk result ((told : List ℕ) × WritesRead R.does R.steps revoker.old line.now (plan_at R.own R.takes number (words_of line.now)) told revoker.new
        × (text.new.items ≡ text.old.items ++ told)) }
    ensures fault { (fault : TheTraceFault) → result ≡ Err (RunFault.Trace fault) → plan_at R.own R.takes number (words_of line.now) ≡ Err fault }
    ensures memory { result ≢ Err (RunFault.Trace TraceFault.Memory) }
    ensures kept { vec_capacity acts.new ≡ vec_capacity acts.old }
{
    let done = match plan_line(revoker, number, line) {
        Err(fault) => return Err(RunFault::Trace(fault)),
        Ok(None) => push_line(text, line),
        Ok(Some(Asked::Command(command))) => {
            write_command(stepper, alloc, revoker, acts, text, line, command)
        }
        Ok(Some(Asked::Revoker(step))) => write_step(alloc, revoker, acts, text, step),
        // No line of a plan asks for a granule.
        Ok(Some(Asked::Granule(_))) => Ok(()),
    };
    match done {
        Ok(()) => Ok(()),
        Err(AllocError) => Err(RunFault::Memory),
    }
}

/// Does what the lines of a text ask, of which the first has this number, and writes them behind `log` with what that came to.
/// Where one is faulty, the first of these is the answer. `acts` has room for what one line makes the revoker do.
pub fn write_plan<S: Stepper, R: Revoker>(
    stepper: &S,
    alloc: Global,
    revoker: &mut R,
    acts: &mut Vec<Act, Global>,
    log: &mut Vec<u8, Global>,
    first: u32,
    text: &[u8],
) -> Result<(), RunFault>
    requires ready { S.ready }
    requires room { 1057 ≤ vec_capacity acts.old }
    requires few { first + length text.now < 2 ^ 32 }
    ensures writes { OnOk result ((told : List ℕ) × Writes R.own R.takes R.does R.steps first revoker.old (lines_of text.now) told revoker.new × (log.new.items ≡ log.old.items ++ told)) }
    ensures fault { (fault : TheTraceFault) → result ≡ Err (RunFault.Trace fault) → fault_in R.own R.takes first (lines_of text.now) ≡ Some fault }
    ensures memory { result ≢ Err (RunFault.Trace TraceFault.Memory) }
{
    let mut number = first;
    let mut rest = text;
    while let Some((line, after)) = split_line(rest) {
        write_line(stepper, alloc, revoker, acts, log, number, &line)?;
        rest = after;
        number += 1;
    }
    Ok(())
}
