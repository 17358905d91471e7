//! The handle by which C holds a machine: the pointer of its box, or null.

ghost use Rattle.std.specs.Prelude.{◌≡◌, ◌≢◌, Option, Some, None};
ghost use Rattle.heap_machine.specs.Storage.{MachineState};

use heap_machine::Machine;
use host_memory::Global;
use loose_box::LooseBox;
use std::marker::Model;

/// A machine, or none, as C holds it.
#[repr(C)]
pub struct MachineHandle {
    at: *mut u8,
    alloc: Global,
    pub ghost value: { Option MachineState },
}

impl Model for MachineHandle {
    ghost use Rattle.kernelstint.specs.Handle.{machine_owns};

    ghost also_owns = { λ h. machine_owns h.alloc h.at h.value };
}

impl MachineHandle {
    /// The handle of a machine's box, taken apart.
    pub(crate) fn of(loose: LooseBox<Machine, Global>) -> MachineHandle
        ensures { result.value ≡ Some loose.value }
    {
        let LooseBox { at, alloc } = loose;
        MachineHandle {
            at: at as *mut u8,
            alloc,
        }
    }

    /// The box of its machine, taken apart.
    pub(crate) fn into_loose(self) -> LooseBox<Machine, Global>
        requires { self.value ≢ None }
        ensures { self.value ≡ Some result.value }
    {
        let MachineHandle { at, alloc } = self;
        LooseBox {
            at: at as *mut Machine,
            alloc,
        }
    }

    /// The handle that has none.
    pub(crate) fn empty(alloc: Global) -> MachineHandle
        ensures { result.value ≡ None }
    {
        MachineHandle {
            at: std::ptr::null_mut(),
            alloc,
        }
    }

    /// Ends a handle that has none.
    pub(crate) fn discard(self)
        requires { self.value ≡ None }
    {
        let MachineHandle { at: _, alloc: _ } = self;
    }
}

impl MachineHandle {
    /// Takes the machine out, and leaves none.
    pub(crate) fn take(&mut self, alloc: Global) -> Box<Machine, Global>
        requires { self.old.value ≢ None }
        ensures taken { self.old.value ≡ Some result.value }
        ensures left { self.new.value ≡ None }
    {
        std::mem::replace(self, MachineHandle::empty(alloc))
            .into_loose()
            .into_box()
    }

    /// Puts a machine in where there is none.
    pub(crate) fn put(&mut self, machine: Box<Machine, Global>)
        requires { self.old.value ≡ None }
        ensures { self.new.value ≡ Some machine.value }
    {
        std::mem::replace(self, MachineHandle::of(LooseBox::of(machine))).discard();
    }
}

// A machine is plain data: no thread has a part in it.
unsafe impl Send for MachineHandle {}
