//! Machines in the state that given lines tell of.

ghost use Rattle.std.specs.Prelude.{◌≡◌, [], All, IfErr, IfOk, OnOk};
ghost use Rattle.log_text.specs.Log.{IsListedGiven};
ghost use Rattle.trace_text.specs.Heap.{IsHeap};
ghost use Rattle.heap_machine.specs.Making.{machine_of_fields};
ghost use Rattle.machine_steps.specs.Safety.{IsSafe};
ghost use Rattle.given_state.specs.Given.{AreSafe, IsFault, given_state};
ghost use Rattle.given_state.specs.Giving.{FitHeap};

use crate::blocks::heap_given;
use crate::fault::StartFault;
use crate::once::check_once;
use crate::words::hold_all;
use heap_core::Heap;
use heap_machine::Machine;
use host_memory::Global;
use log_text::Given;
use sweep_pool::Cutting;
use tag_memory::{Memory, Registers};

// The machine of parts that fit.
fn machine_of(heap: Heap, memory: Memory, registers: Registers, cutting: Cutting) -> Machine
    requires { FitHeap heap memory registers }
    ensures made { result ≡ machine_of_fields heap memory registers cutting }
    ensures safe { IsSafe result.state }
{
    Machine::of(heap, memory, registers, cutting).unwrap()
}

// The first machine, of which no line tells.
fn first_machine(
    alloc: Global,
    base: u64,
    pages: u32,
    cutting: Cutting,
) -> Result<Machine, StartFault>
    requires { IsHeap base pages }
    ensures made { IfOk result (λ machine. machine.state ≡ given_state base pages []) }
    ensures cutting { IfOk result (λ machine. machine.cutting ≡ cutting) }
    ensures sound { AreSafe base pages [] }
    ensures safe { IfOk result (λ machine. IsSafe machine.state) }
    ensures memory { IfErr result (λ fault. fault ≡ StartFault.Memory) }
{
    let Ok(machine) = Machine::new(alloc, base, pages, cutting) else {
        return Err(StartFault::Memory);
    };
    Ok(machine)
}

// The same, whatever the lines are: all that is made is looked through.
fn machine_given(
    alloc: Global,
    base: u64,
    pages: u32,
    givens: &[(u32, Given)],
    cutting: Cutting,
) -> Result<Machine, StartFault>
    requires heap { IsHeap base pages }
    requires givens { All IsListedGiven givens.now }
    ensures made { IfOk result (λ machine. machine.state ≡ given_state base pages givens.now) }
    ensures cutting { IfOk result (λ machine. machine.cutting ≡ cutting) }
    ensures sound { OnOk result (AreSafe base pages givens.now) }
    ensures safe { IfOk result (λ machine. IsSafe machine.state) }
    ensures flaw { IfErr result (IsFault base pages givens.now) }
{
    let heap = heap_given(alloc, base, pages, givens)?;
    check_once(alloc, givens)?;
    let Ok(mut memory) = Memory::new(alloc, base, pages) else {
        return Err(StartFault::Memory);
    };
    let mut registers = Registers::new();
    if let Err((line, lack)) = hold_all(&heap, &mut memory, &mut registers, givens) {
        return Err(StartFault::Unsafe { line, lack });
    }
    Ok(machine_of(heap, memory, registers, cutting))
}

/// The machine in the state that given lines tell of, of a heap of so many pages of 4,096 bytes from `base` on. Its
/// sweeps are cut into tasks of `cutting`'s pages, and made by no more than its workers. Else their first flaw: first
/// blocks are judged, then whether a register or a granule is given again, and then words, each in the order of their lines.
pub fn start(
    alloc: Global,
    base: u64,
    pages: u32,
    givens: &[(u32, Given)],
    cutting: Cutting,
) -> Result<Machine, StartFault>
    requires heap { IsHeap base pages }
    requires givens { All IsListedGiven givens.now }
    ensures made { IfOk result (λ machine. machine.state ≡ given_state base pages givens.now) }
    ensures cutting { IfOk result (λ machine. machine.cutting ≡ cutting) }
    ensures sound { OnOk result (AreSafe base pages givens.now) }
    ensures safe { IfOk result (λ machine. IsSafe machine.state) }
    ensures flaw { IfErr result (IsFault base pages givens.now) }
{
    if givens.is_empty() {
        return first_machine(alloc, base, pages, cutting);
    }
    machine_given(alloc, base, pages, givens, cutting)
}
