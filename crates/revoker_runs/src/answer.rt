//! The log of a plan.

ghost use Rattle.std.specs.Prelude.{◌≡◌, ◌≢◌, ◌≤◌, ◌<◌, ◌+◌, ◌^◌, ◌++◌, Err, IfErr, IfOk, List, OnOk, Some, false, flat_map, length, ℕ};
ghost use Rattle.std.specs.Vec.{vec_capacity};
ghost use Rattle.trace_text.specs.Lines.{lines_of};
ghost use Rattle.trace_text.specs.declared.fault.TraceFault.{TraceFault as TheTraceFault};
ghost use Rattle.revoker_runs.specs.Answer.{IsFirst, IsLogOf, IsPlanAnswer, WritesBarred, WritesBy, WritesByHand, WritesMarked, head_text, opening_of, own_by, plan_fault, takes_by};
ghost use Rattle.revoker_runs.specs.Plan.{fault_in};
ghost use Rattle.revoker_runs.specs.Ways.{all_steps, no_step, own_step, page_steps};

use crate::lines::push_line;
use crate::plan::write_plan;
use heap_machine::{Machine, Stepper};
use heap_trace::RunFault;
use host_memory::Global;
use revokers::{Act, Cornucopia, MOST_ACTS, Reloaded};
use std::alloc::AllocError;
use sweep_pool::Cutting;
use trace_text::{LONGEST_TEXT, Opening, TraceFault, fault_line, read_heap, split_line};

/// Who does the steps of a plan's revoker.
#[derive(Clone, Copy, Debug, PartialEq, Eq)]
pub enum Way {
    /// A bare machine, which does just what a line says.
    ByHand,
    /// A revoker that looks again at pages into which the program stored a capability (`revokers::Cornucopia`).
    Cornucopia,
    /// One that looks at a page before the program loads from it (`revokers::Reloaded`).
    Reloaded,
}

// The first lines of a text, as they were read.
fn head(alloc: Global, text: &[u8], next: u32) -> Result<Vec<u8, Global>, AllocError>
    ensures { IfOk result (λ head. head.items ≡ head_text text.now next) }
{
    let mut head = Vec::new(alloc);
    let mut rest = text;
    for _ in 1..next {
        let Some((line, after)) = split_line(rest) else {
            return Ok(head);
        };
        push_line(&mut head, &line)?;
        rest = after;
    }
    Ok(head)
}

// The lines after the heap line, run on a bare machine, and written behind the log.
fn write_by_hand<S: Stepper>(
    stepper: &S,
    alloc: Global,
    machine: Machine,
    acts: &mut Vec<Act, Global>,
    log: &mut Vec<u8, Global>,
    opening: Opening<'_>,
) -> Result<(), RunFault>
    requires ready { S.ready }
    requires first { IsFirst opening.base opening.pages machine }
    requires room { 1057 ≤ vec_capacity acts.old }
    requires few { opening.next + length opening.rest.now < 2 ^ 32 }
    ensures writes { OnOk result ((told : List ℕ) × WritesByHand (opening_of opening.entry) told × (log.new.items ≡ log.old.items ++ told)) }
    ensures fault { (fault : TheTraceFault) → result ≡ Err (RunFault.Trace fault) → fault_in no_step all_steps opening.entry.next (lines_of opening.entry.rest.now) ≡ Some fault }
    ensures memory { result ≢ Err (RunFault.Trace TraceFault.Memory) }
{
    let mut machine = machine;
    write_plan(
        stepper,
        alloc,
        &mut machine,
        acts,
        log,
        opening.next,
        opening.rest,
    )
}

// The same by a revoker without a barrier.
fn write_marked<S: Stepper>(
    stepper: &S,
    alloc: Global,
    machine: Machine,
    acts: &mut Vec<Act, Global>,
    log: &mut Vec<u8, Global>,
    opening: Opening<'_>,
) -> Result<(), RunFault>
    requires ready { S.ready }
    requires first { IsFirst opening.base opening.pages machine }
    requires room { 1057 ≤ vec_capacity acts.old }
    requires few { opening.next + length opening.rest.now < 2 ^ 32 }
    ensures writes { OnOk result ((told : List ℕ) × WritesMarked (opening_of opening.entry) told × (log.new.items ≡ log.old.items ++ told)) }
    ensures fault { (fault : TheTraceFault) → result ≡ Err (RunFault.Trace fault) → fault_in own_step page_steps opening.entry.next (lines_of opening.entry.rest.now) ≡ Some fault }
    ensures memory { result ≢ Err (RunFault.Trace TraceFault.Memory) }
{
    let mut revoker = Cornucopia::new(machine);
    write_plan(
        stepper,
        alloc,
        &mut revoker,
        acts,
        log,
        opening.next,
        opening.rest,
    )
}

// And by one with a barrier.
fn write_barred<S: Stepper>(
    stepper: &S,
    alloc: Global,
    machine: Machine,
    acts: &mut Vec<Act, Global>,
    log: &mut Vec<u8, Global>,
    opening: Opening<'_>,
) -> Result<(), RunFault>
    requires ready { S.ready }
    requires first { IsFirst opening.base opening.pages machine }
    requires room { 1057 ≤ vec_capacity acts.old }
    requires few { opening.next + length opening.rest.now < 2 ^ 32 }
    ensures writes { OnOk result ((told : List ℕ) × WritesBarred (opening_of opening.entry) told × (log.new.items ≡ log.old.items ++ told)) }
    ensures fault { (fault : TheTraceFault) → result ≡ Err (RunFault.Trace fault) → fault_in own_step page_steps opening.entry.next (lines_of opening.entry.rest.now) ≡ Some fault }
    ensures memory { result ≢ Err (RunFault.Trace TraceFault.Memory) }
{
    let Some(mut revoker) = Reloaded::new(alloc, machine) else {
        return Err(RunFault::Memory);
    };
    write_plan(
        stepper,
        alloc,
        &mut revoker,
        acts,
        log,
        opening.next,
        opening.rest,
    )
}

// By whom it is asked for.
fn write_by<S: Stepper>(
    stepper: &S,
    alloc: Global,
    machine: Machine,
    way: Way,
    acts: &mut Vec<Act, Global>,
    log: &mut Vec<u8, Global>,
    opening: Opening<'_>,
) -> Result<(), RunFault>
    requires ready { S.ready }
    requires first { IsFirst opening.base opening.pages machine }
    requires room { 1057 ≤ vec_capacity acts.old }
    requires few { opening.next + length opening.rest.now < 2 ^ 32 }
    ensures writes { OnOk result ((told : List ℕ) × WritesBy way (opening_of opening.entry) told × (log.new.items ≡ log.old.items ++ told)) }
    ensures fault { (fault : TheTraceFault) → result ≡ Err (RunFault.Trace fault) → fault_in (own_by way) (takes_by way) opening.entry.next (lines_of opening.entry.rest.now) ≡ Some fault }
    ensures memory { result ≢ Err (RunFault.Trace TraceFault.Memory) }
{
    match way {
        Way::ByHand => write_by_hand(stepper, alloc, machine, acts, log, opening),
        Way::Cornucopia => write_marked(stepper, alloc, machine, acts, log, opening),
        Way::Reloaded => write_barred(stepper, alloc, machine, acts, log, opening),
    }
}

/// The log of the run of a plan that a text of at most 4,194,304 bytes is. Nothing is told where the text is faulty.
pub fn log_of_plan<S: Stepper>(
    stepper: &S,
    alloc: Global,
    text: &[u8],
    way: Way,
    cutting: Cutting,
) -> Result<Vec<u8, Global>, RunFault>
    requires ready { S.ready }
    ensures log { IfOk result (λ log. IsLogOf text.now way log.items) }
    ensures fault { (fault : TheTraceFault) → result ≡ Err (RunFault.Trace fault) → plan_fault way text.now ≡ Some fault }
    ensures memory { result ≢ Err (RunFault.Trace TraceFault.Memory) }
{
    if text.len() > LONGEST_TEXT {
        return Err(RunFault::Trace(TraceFault::TooLong));
    }
    let opening = match read_heap(text) {
        Ok(opening) => opening,
        Err(TraceFault::Memory) => return Err(RunFault::Memory),
        Err(fault) => return Err(RunFault::Trace(fault)),
    };
    let Ok(machine) = Machine::new(alloc, opening.base, opening.pages, cutting) else {
        return Err(RunFault::Memory);
    };
    let Ok(mut log) = head(alloc, text, opening.next) else {
        return Err(RunFault::Memory);
    };
    let Ok(mut acts) = Vec::with_capacity(alloc, MOST_ACTS) else {
        return Err(RunFault::Memory);
    };
    write_by(stepper, alloc, machine, way, &mut acts, &mut log, opening)?;
    Ok(log)
}

/// What is answered for the text of a plan, and the status that goes with it: 0 with the log of its run, and 3 with the line of
/// its fault.
#[derive(Drop)]
pub struct PlanAnswer {
    pub status: u8,
    pub text: Vec<u8, Global>,
}

/// The answer for a text: the log of the plan that it is, or the line of its fault. An error is want of memory.
pub fn plan_answer<S: Stepper>(
    stepper: &S,
    alloc: Global,
    text: &[u8],
    way: Way,
    cutting: Cutting,
) -> Result<PlanAnswer, AllocError>
    requires ready { S.ready }
    ensures ok { IfOk result (λ answer. IsPlanAnswer way text.now answer.status answer.text.items) }
{
    let fault = match log_of_plan(stepper, alloc, text, way, cutting) {
        Ok(text) => return Ok(PlanAnswer { status: 0, text }),
        Err(RunFault::Memory) => return Err(AllocError),
        Err(RunFault::Trace(fault)) => fault,
    };
    let line = fault_line(alloc, &fault)?;
    Ok(PlanAnswer {
        status: 3,
        text: line.into_bytes(),
    })
}
