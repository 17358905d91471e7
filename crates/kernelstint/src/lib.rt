//! The codec and the machine for C, C++ and Python, declared in `include/kernelstint.h`. Each function is one
//! call of `cap_codec` or of `byte_machine` over what crosses to C, and promises what that call promises. Those
//! whose names begin with `kernelstint_proved_` are called by `bindings/c/pointers.c`, which tests pointers first.
#![tactic(auto)]

ghost use Rattle.std.specs.Prelude.{◌≡◌};
ghost use Rattle.kernelstint.specs.Codes.{version};

mod codes;
mod crossing;
mod decoding;
mod faults;
mod handle;
mod looks;
mod machine;
mod machines;
mod making;
mod texts;
mod words;

pub use crate::crossing::{
    CodedWord, HostBounds, HostCorrections, HostFields, HostLength, HostWord, NarrowedWord,
};
pub use crate::decoding::{
    kernelstint_bounds_of, kernelstint_corrections_of, kernelstint_exponent_of,
    kernelstint_is_allowed, kernelstint_representable,
};
pub use crate::faults::{kernelstint_proved_line_fault, kernelstint_proved_trace_fault};
pub use crate::handle::MachineHandle;
pub use crate::looks::{
    kernelstint_proved_counts, kernelstint_proved_granule, kernelstint_proved_register,
};
pub use crate::machine::{
    kernelstint_proved_first, kernelstint_proved_follow, kernelstint_proved_step,
    kernelstint_proved_step_line, kernelstint_state_length,
};
pub use crate::machines::{
    kernelstint_proved_machine_bytes, kernelstint_proved_machine_close,
    kernelstint_proved_machine_copy, kernelstint_proved_machine_open,
    kernelstint_proved_machine_step,
};
pub use crate::making::{
    kernelstint_alignment_mask, kernelstint_and_perms, kernelstint_block_capability,
    kernelstint_representable_length, kernelstint_set_address, kernelstint_with_bounds,
};
pub use crate::texts::{kernelstint_proved_run, kernelstint_proved_states};
pub use crate::words::{
    kernelstint_fields_of, kernelstint_null_word, kernelstint_proved_word_from_bytes,
    kernelstint_proved_word_to_bytes, kernelstint_word_of_fields,
};

/// The version of this library, 8 bits for each of its three parts.
#[unsafe(no_mangle)]
pub extern "C" fn kernelstint_version() -> u32
    ensures { result ≡ version }
{
    0x00_0100
}
