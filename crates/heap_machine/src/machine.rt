//! The machine that runs the commands of a trace.

ghost use Rattle.std.specs.Prelude.{◌≡◌, ◌↔◌, ◌+◌, IfOk, IfSome, false, replicate, true};
ghost use Rattle.heap_model.specs.Blocks.{bytes_in};
ghost use Rattle.heap_model.specs.Heap as heap;
ghost use Rattle.tag_memory.specs.Extent as span;
ghost use Rattle.machine_steps.specs.Dirty.{IsDirtied};
ghost use Rattle.machine_steps.specs.Safety.{IsSafe};
ghost use Rattle.machine_steps.specs.Sound.{IsMachine};
ghost use Rattle.machine_steps.specs.State.{first_state};

mod following;
mod making;
mod revoking;
mod stepping;

pub use crate::machine::making::{Flaw, is_guarded};
use heap_core::Heap;
use host_memory::Global;
use machine_storage::{MachineFault, Storage};
use std::marker::Model;
use sweep_pool::Cutting;
use tag_memory::{Memory, MemoryFault, Registers};

/// One heap with its memory, and 32 registers. Its state is sound, so it is safe, and in an open epoch what the
/// painted blocks have in memory stands in dirty pages.
#[derive(Drop)]
pub struct Machine {
    storage: Storage,
    cutting: Cutting,
}

impl Model for Machine {
    ghost use Rattle.heap_machine.specs.Storage.{MachineState, machine_of};
    ghost use Rattle.machine_storage.specs.Storage.{IsStorage};

    ghost Value = { MachineState };

    ghost view = { λ m. machine_of m.storage m.cutting };

    ghost invariant = { λ m. IsStorage m.storage };
}

impl Machine {
    /// A machine whose heap has so many pages of 4,096 bytes from `base` on. Its sweeps are cut into tasks
    /// of `cutting`'s pages, and made by no more than its workers. The size is judged before the base.
    ///
    /// ```rust
    /// use heap_machine::{Machine, Reply};
    /// use sweep_pool::{Cutting, Open};
    /// use trace_text::Command;
    ///
    /// let mut machine = Machine::new(alloc, 0x4000_0000, 1, Cutting::new(1, 16)?)?;
    /// let malloc = Command::Malloc { rd: 1, size: 20 };
    /// let reply = machine.step_alone(alloc, malloc, &Open)?;
    /// assert_eq!(rt; reply, Reply::Block { base: 0x4000_0000, top: 0x4000_0020 });
    /// assert_eq!(rt; machine.live_bytes(), 32);
    /// ```
    pub fn new(
        alloc: Global,
        base: u64,
        pages: u32,
        cutting: Cutting,
    ) -> Result<Machine, MachineFault>
        ensures bad_size { (result ≡ Err MachineFault.BadSize) ↔ (span.is_size pages ≡ false) }
        ensures bad_base { (result ≡ Err MachineFault.BadBase)
            ↔ ((span.is_size pages ≡ true) × (span.is_base base pages ≡ false)) }
        ensures first { IfOk result (λ machine. machine.state ≡ first_state base pages) }
        ensures cutting { IfOk result (λ machine. machine.cutting ≡ cutting) }
        ensures clean { IfOk result (λ machine. machine.dirty ≡ replicate pages false) }
        ensures safe { IfOk result (λ machine. IsSafe machine.state) }
    {
        let memory = match Memory::new(alloc, base, pages) {
            Ok(memory) => memory,
            Err(MemoryFault::BadSize) => return Err(MachineFault::BadSize),
            Err(MemoryFault::BadBase) => return Err(MachineFault::BadBase),
            Err(MemoryFault::Memory) => return Err(MachineFault::Memory),
        };
        let Ok(heap) = Heap::new(alloc, base, pages) else {
            return Err(MachineFault::Memory);
        };
        let storage = Storage {
            heap,
            memory,
            registers: Registers::new(),
        };
        Ok(Machine { storage, cutting })
    }

    /// The same machine once more; `None` where memory runs out.
    pub fn copy(&self, alloc: Global) -> Option<Machine>
        ensures { IfSome result (λ copy. copy ≡ self.now) }
    {
        let Ok(heap) = self.storage.heap.copy(alloc) else {
            return None;
        };
        let Ok(memory) = self.storage.memory.copy(alloc) else {
            return None;
        };
        let storage = Storage {
            heap,
            memory,
            registers: self.storage.registers.copy(),
        };
        Some(Machine {
            storage,
            cutting: self.cutting,
        })
    }

    /// The registers now.
    pub fn registers(&self) -> &Registers
        ensures { result.now ≡ self.now.state.registers }
    {
        &self.storage.registers
    }

    /// The heap now.
    pub fn heap(&self) -> &Heap
        ensures { result.now ≡ self.now.state.heap }
    {
        &self.storage.heap
    }

    /// Tells what holds of every machine. Nothing is done.
    pub fn invariant(&self)
        ensures sound { IsMachine self.now.state }
        ensures dirtied { IsDirtied self.now.state self.now.dirty }
    {
        let _ = &self.storage.heap;
    }

    /// The memory now.
    pub fn memory(&self) -> &Memory
        ensures base { result.now.base ≡ self.now.state.heap.base }
        ensures granules { result.now.granules ≡ self.now.state.granules }
        ensures dirty { result.now.dirty ≡ self.now.dirty }
    {
        &self.storage.memory
    }

    /// The bytes in live blocks.
    pub fn live_bytes(&self) -> u64
        ensures { result ≡ bytes_in self.now.state.heap.live }
    {
        self.storage.heap.live_bytes()
    }

    /// The bytes in held blocks, in those that wait and the painted ones.
    pub fn held_bytes(&self) -> u64
        ensures { result ≡ heap.held_bytes self.now.state.heap }
    {
        self.storage.heap.held_bytes()
    }

    /// The bytes in no block.
    pub fn free_bytes(&self) -> u64
        ensures { bytes_in self.now.state.heap.live + heap.held_bytes self.now.state.heap + result
            ≡ self.now.state.heap.size }
    {
        self.storage.heap.free_bytes()
    }

    /// The memory and the registers, which are left when a run is over.
    pub fn finish(self) -> (Memory, Registers)
        ensures base { result.0.base ≡ self.state.heap.base }
        ensures granules { result.0.granules ≡ self.state.granules }
        ensures dirty { result.0.dirty ≡ self.dirty }
        ensures registers { result.1 ≡ self.state.registers }
    {
        let Storage {
            memory,
            registers,
            ..
        } = self.storage;
        (memory, registers)
    }
}
