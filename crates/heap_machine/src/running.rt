//! Runs of whole traces, whoever makes their passes.

ghost use Rattle.std.specs.Prelude.{◌≡◌, ◌≢◌, Err, IfOk, IfSome};
ghost use Rattle.std.specs.List.{All};
ghost use denote.Param.Send.{IsSync};
ghost use Rattle.trace_text.specs.declared.fault.TraceFault.{TraceFault as TheTraceFault};
ghost use Rattle.trace_text.specs.Command.{IsListed};
ghost use Rattle.trace_text.specs.Grammar.{IsFaulty, IsTrace};
ghost use Rattle.trace_text.specs.Heap.{IsHeap};
ghost use Rattle.trace_text.specs.Reading.{Script, script_of};
ghost use Rattle.trace_report.specs.Outcome.{HasOutcome, IsOutcome};
ghost use Rattle.trace_report.specs.Run.{Reported};
ghost use Rattle.trace_report.specs.Report as report;
ghost use Rattle.machine_steps.specs.Safety.{IsSafe};

use crate::machine::Machine;
use crate::stepper::{Alone, Stepper, Workers};
use host_memory::Global;
use std::thread::Threads;
use sweep_pool::Cutting;
use trace_report::{Outcome, Report, RunFault, Runner, Sums};
use trace_text::{Command, Trace, TraceFault, parse, trace_grammar_law};

impl<R: Threads + Sync> Runner for Workers<'_, R> {
    ghost ready = { IsSync R.row };

    fn run(&self, alloc: Global, text: &[u8], cutting: Cutting) -> Result<Outcome, RunFault> {
        run_by(self, alloc, text, cutting)
    }
}

impl Runner for Alone {
    ghost ready = { Unit {0} };

    fn run(&self, alloc: Global, text: &[u8], cutting: Cutting) -> Result<Outcome, RunFault> {
        run_by(self, alloc, text, cutting)
    }
}

// Runs a trace, whoever makes its passes.
fn run_by<S: Stepper>(
    stepper: &S,
    alloc: Global,
    text: &[u8],
    cutting: Cutting,
) -> Result<Outcome, RunFault>
    requires ready { S.ready }
    ensures answer { HasOutcome text.now result }
    ensures trace { IfOk result (λ outcome. (script : Script) × IsTrace text.now script × IsOutcome script outcome) }
    ensures fault { (fault : TheTraceFault) → result ≡ Err (RunFault.Trace fault) → IsFaulty text.now fault }
    ensures memory { result ≢ Err (RunFault.Trace TraceFault.Memory) }
{
    trace_grammar_law();
    match parse(alloc, text) {
        Err(TraceFault::Memory) => Err(RunFault::Memory),
        Err(fault) => Err(RunFault::Trace(fault)),
        Ok(trace) => match run_trace(stepper, alloc, &trace, cutting) {
            Some(outcome) => Ok(outcome),
            None => Err(RunFault::Memory),
        },
    }
}

// Runs a trace; `None` where memory runs out.
fn run_trace<S: Stepper>(
    stepper: &S,
    alloc: Global,
    trace: &Trace,
    cutting: Cutting,
) -> Option<Outcome>
    requires ready { S.ready }
    requires heap { IsHeap trace.now.base trace.now.pages }
    requires valid { All IsListed trace.now.commands.items }
    ensures { IfSome result (λ outcome. IsOutcome (script_of trace.now) outcome) }
{
    let Ok(mut machine) = Machine::new(alloc, trace.base, trace.pages, cutting) else {
        return None;
    };
    let lines = run_commands(stepper, alloc, &mut machine, &trace.commands)?;
    let Ok(report) = lines.end(alloc, sums_of(&machine)) else {
        return None;
    };
    let (memory, registers) = machine.finish();
    Some(Outcome {
        report,
        memory,
        registers,
    })
}

// Runs the commands, and answers the lines of the report but the last; `None` where memory runs out.
fn run_commands<S: Stepper>(
    stepper: &S,
    alloc: Global,
    machine: &mut Machine,
    commands: &[(u32, Command)],
) -> Option<Report>
    requires ready { S.ready }
    requires valid { All IsListed commands.now }
    requires safe { IsSafe machine.old.state }
    ensures { IfSome result (λ report. Reported machine.old.state commands.now machine.new.state report) }
{
    let mut report = Report::new(alloc);
    for (line, command) in commands {
        let Ok(reply) = stepper.step(machine, alloc, *command) else {
            return None;
        };
        let Ok(()) = report.push(*line, *command, &reply) else {
            return None;
        };
    }
    Some(report)
}

// The numbers of a report's last line.
fn sums_of(machine: &Machine) -> Sums
    ensures { result ≡ report.sums_of machine.now.state }
{
    Sums {
        live: machine.live_bytes(),
        held: machine.held_bytes(),
        free: machine.free_bytes(),
        tags: machine.memory().tagged() as u128 + machine.registers().tagged() as u128,
    }
}
