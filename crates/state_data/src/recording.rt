//! Runs of whole traces, as data.

ghost use Rattle.std.specs.Prelude.{◌≡◌, ◌≢◌, Err, ◌<◌, ◌*◌, [], ◌++◌, ℕ, All, IfOk, IfSome, List, OnOk, false, length, slice_index_or};
ghost use Rattle.tag_memory.specs.Cells.{null_cell};
ghost use Rattle.machine_steps.specs.Safety.{IsSafe};
ghost use Rattle.machine_steps.specs.State.{tags_of};
ghost use Rattle.data_tokens.specs.Line.{with_tokens};
ghost use Rattle.state_data.specs.States as states;
ghost use Rattle.state_data.specs.States.{IsScriptData, IsDataOf, Tells, end_numbers, end_tokens, heap_tokens, data_line_text};
ghost use Rattle.data_tokens.specs.Changes.{StayBut};
ghost use Rattle.state_data.specs.Recording.{HasOrder, IsSnapshot, Records, step_tokens};
ghost use Rattle.trace_text.specs.Command.{IsListed, IsValid};
ghost use Rattle.trace_text.specs.Heap.{IsHeap};
ghost use Rattle.trace_text.specs.Reading.{script_of, trace_of};
ghost use Rattle.trace_text.specs.declared.fault.TraceFault.{TraceFault as TheTraceFault};

use crate::snapshot::{Before, Snapshot, read_before};
use crate::writing::put_command;
use data_tokens::{DataLine, put_address};
use heap_machine::{Alone, Machine, Stepper, Workers};
use heap_reply::Reply;
use heap_trace::RunFault;
use host_memory::Global;
use std::alloc::AllocError;
use std::thread::Threads;
use sweep_pool::Cutting;
use trace_text::{Command, Trace, TraceFault, parse};

// The lines so far, and room for one more. The room is used again for each line: a writer fills some of it ahead, which would
// be much after a long text.
#[derive(Drop)]
struct Lines {
    text: Vec<u8, Global>,
    room: Vec<u8, Global>,
}

// The data with the line's JSON and a line feed after it. Inlined: the line and the data then aren't copied for a call.
#[inline(always)]
fn with_line(text: Vec<u8, Global>, line: DataLine) -> Result<Lines, AllocError>
    requires { line.before ≡ [] }
    ensures { IfOk result (λ lines. lines.text.items ≡ text.items ++ data_line_text line.tokens) }
{
    let mut text = text;
    let mut room = line.finish();
    let Ok(()) = room.push(b'\n') else {
        return Err(AllocError);
    };
    text.extend_from_slice(&room)?;
    Ok(Lines { text, room })
}

// The data with the line of a command.
fn record_line(
    so_far: Lines,
    snapshot: &Snapshot,
    before: Before,
    machine: &Machine,
    of: (u32, Command, Reply),
) -> Result<Lines, AllocError>
    requires zero { slice_index_or snapshot.now.registers 0 null_cell ≡ null_cell }
    requires tags { 64 * length snapshot.now.tags.items ≡ length machine.now.state.granules }
    requires inside { IfSome before.granule (λ at. at.0 < length machine.now.state.granules) }
    requires order { HasOrder of.2 }
    requires within { before.register < 32 }
    requires stay { states.tells_registers of.2 ≡ false → StayBut before.register snapshot.now.registers machine.now.state.registers }
    ensures { IfOk result (λ told. told.text.items ≡ so_far.text.items ++ data_line_text (step_tokens of.0 of.1 of.2 snapshot.now before machine.now.state.registers machine.now.state.granules)) }
{
    let Lines { text, room } = so_far;
    let mut line = DataLine::within(room);
    put_command(&mut line, snapshot, before, machine, of)?;
    with_line(text, line)
}

// Does a command, and adds its line to the data; `None` where memory runs out.
fn write_step<S: Stepper>(
    stepper: &S,
    alloc: Global,
    machine: &mut Machine,
    snapshot: &mut Snapshot,
    so_far: Lines,
    number: u32,
    command: Command,
) -> Option<Lines>
    requires ready { S.ready }
    requires valid { IsValid command }
    requires safe { IsSafe machine.old.state }
    requires snapshot { IsSnapshot snapshot.old machine.old.state }
    ensures { IfSome result (λ told. Records machine.old.state number command machine.new.state snapshot.new so_far.text.items told.text.items) }
{
    machine.registers().invariant();
    let before = read_before(machine, command);
    let Ok(reply) = stepper.step(machine, alloc, command) else {
        return None;
    };
    snapshot.put_in_order(alloc, reply);
    let Ok(so_far) = record_line(so_far, snapshot, before, machine, (number, command, reply)) else {
        return None;
    };
    let Ok(()) = snapshot.follow(machine, before, reply) else {
        return None;
    };
    Some(so_far)
}

// Does these commands, and adds their lines to the data; `None` where memory runs out.
fn write_commands<S: Stepper>(
    stepper: &S,
    alloc: Global,
    machine: &mut Machine,
    snapshot: Snapshot,
    so_far: Lines,
    commands: &[(u32, Command)],
) -> Option<Lines>
    requires ready { S.ready }
    requires valid { All IsListed commands.now }
    requires safe { IsSafe machine.old.state }
    requires snapshot { IsSnapshot snapshot machine.old.state }
    ensures { IfSome result (λ told. (lines : List ℕ) × Tells machine.old.state commands.now lines machine.new.state × (told.text.items ≡ so_far.text.items ++ lines)) }
{
    let mut snapshot = snapshot;
    let mut so_far = so_far;
    for (line, command) in commands {
        so_far = write_step(
            stepper,
            alloc,
            machine,
            &mut snapshot,
            so_far,
            *line,
            *command,
        )?;
    }
    Some(so_far)
}

// The line of the heap, as the first of the data.
fn write_heap(alloc: Global, base: u64, pages: u32) -> Result<Lines, AllocError>
    ensures { IfOk result (λ told. told.text.items ≡ data_line_text (heap_tokens base pages)) }
{
    let mut line = DataLine::within(Vec::new(alloc));
    line.open()?;
    line.open_object("heap")?;
    put_address(&mut line, "base", u128::from(base))?;
    line.count("pages", u64::from(pages))?;
    line.close()?;
    line.close()?;
    with_line(Vec::new(alloc), line)
}

// How many granules and registers are tagged.
fn count_tags(machine: &Machine) -> u64
    ensures { result ≡ tags_of machine.now.state }
{
    machine.memory().invariant();
    machine.registers().invariant();
    (machine.memory().tagged() + machine.registers().tagged()) as u64
}

fn put_end(line: &mut DataLine, machine: &Machine) -> Result<(), AllocError>
    ensures { OnOk result (line.new ≡ with_tokens line.old (end_numbers machine.now.state)) }
{
    line.count("live", machine.live_bytes())?;
    line.count("held", machine.held_bytes())?;
    line.count("free", machine.free_bytes())?;
    line.count("tags", count_tags(machine))
}

fn put_end_line(line: &mut DataLine, machine: &Machine) -> Result<(), AllocError>
    ensures { OnOk result (line.new ≡ with_tokens line.old (end_tokens machine.now.state)) }
{
    line.open()?;
    line.open_object("end")?;
    put_end(line, machine)?;
    line.close()?;
    line.close()
}

// The data with the line of the end.
fn write_end(so_far: Lines, machine: &Machine) -> Result<Lines, AllocError>
    ensures { IfOk result (λ told. told.text.items ≡ so_far.text.items ++ data_line_text (end_tokens machine.now.state)) }
{
    let Lines { text, room } = so_far;
    let mut line = DataLine::within(room);
    put_end_line(&mut line, machine)?;
    with_line(text, line)
}

// Runs a trace, and answers its data; `None` where memory runs out.
fn write_trace<S: Stepper>(
    stepper: &S,
    alloc: Global,
    trace: &Trace,
    cutting: Cutting,
) -> Option<Vec<u8, Global>>
    requires ready { S.ready }
    requires heap { IsHeap trace.now.base trace.now.pages }
    requires valid { All IsListed trace.now.commands.items }
    ensures { IfSome result (λ text. IsScriptData (script_of trace.now) text.items) }
{
    let Ok(mut machine) = Machine::new(alloc, trace.base, trace.pages, cutting) else {
        return None;
    };
    let Ok(snapshot) = Snapshot::first(alloc, &machine) else {
        return None;
    };
    let Ok(so_far) = write_heap(alloc, trace.base, trace.pages) else {
        return None;
    };
    let so_far = write_commands(
        stepper,
        alloc,
        &mut machine,
        snapshot,
        so_far,
        &trace.commands,
    )?;
    let Ok(so_far) = write_end(so_far, &machine) else {
        return None;
    };
    Some(so_far.text)
}

/// Runs a trace from its text to its states as data: a line of JSON for the heap, one for each command with what it changed,
/// and one for the end. Nothing runs where the text is faulty. Want of memory is `RunFault::Memory`, also while the text is
/// read.
pub fn states<R: Threads + Sync>(
    rt: &R,
    alloc: Global,
    text: &[u8],
    cutting: Cutting,
) -> Result<Vec<u8, Global>, RunFault>
    ensures states { IfOk result (λ told. IsDataOf text.now told.items) }
    ensures fault { (fault : TheTraceFault) → result ≡ Err (RunFault.Trace fault) → trace_of text.now ≡ Err fault }
    ensures memory { result ≢ Err (RunFault.Trace TraceFault.Memory) }
{
    states_by(&Workers { rt }, alloc, text, cutting)
}

/// The states of a trace as `states` tells them, by the calling thread alone, so without a runtime.
pub fn states_alone(
    alloc: Global,
    text: &[u8],
    cutting: Cutting,
) -> Result<Vec<u8, Global>, RunFault>
    ensures states { IfOk result (λ told. IsDataOf text.now told.items) }
    ensures fault { (fault : TheTraceFault) → result ≡ Err (RunFault.Trace fault) → trace_of text.now ≡ Err fault }
    ensures memory { result ≢ Err (RunFault.Trace TraceFault.Memory) }
{
    states_by(&Alone, alloc, text, cutting)
}

// Runs a trace to its states, whoever makes its passes.
fn states_by<S: Stepper>(
    stepper: &S,
    alloc: Global,
    text: &[u8],
    cutting: Cutting,
) -> Result<Vec<u8, Global>, RunFault>
    requires ready { S.ready }
    ensures states { IfOk result (λ told. IsDataOf text.now told.items) }
    ensures fault { (fault : TheTraceFault) → result ≡ Err (RunFault.Trace fault) → trace_of text.now ≡ Err fault }
    ensures memory { result ≢ Err (RunFault.Trace TraceFault.Memory) }
{
    match parse(alloc, text) {
        Err(TraceFault::Memory) => Err(RunFault::Memory),
        Err(fault) => Err(RunFault::Trace(fault)),
        Ok(trace) => match write_trace(stepper, alloc, &trace, cutting) {
            Some(text) => Ok(text),
            None => Err(RunFault::Memory),
        },
    }
}
