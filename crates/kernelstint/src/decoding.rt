//! What a word says: its exponent, its bounds, where these stay, and its permissions.

ghost use Rattle.std.specs.Prelude.{◌≡◌, ◌≤◌, ◌↔◌, IsTrue, ℕ, ℤ};
ghost use Rattle.cap_codec.specs.Bounds.{IsBounds};
ghost use Rattle.cap_codec.specs.Corrections.{AreCorrections};
ghost use Rattle.cap_codec.specs.Fields.{fields_of};
ghost use Rattle.cap_codec.specs.Mantissas.{exponent_of};
ghost use Rattle.cap_codec.specs.Representable.{IsInWindow, IsRepresentable};
ghost use Rattle.cap_codec.specs.Words.{allows, bounds_in, keeps_bounds};
ghost use Rattle.kernelstint.specs.Crossing.{bounds_from, top_of, word_from};

use crate::crossing::{HostBounds, HostCorrections, HostWord, bounds_out, word_in};
use cap_codec::{bounds, corrections, exponent, is_allowed, representable};

/// The exponent of a word: by how many bits its mantissas are shifted.
#[unsafe(no_mangle)]
pub extern "C" fn kernelstint_exponent_of(word: HostWord) -> u8
    ensures value { result ≡ exponent_of (fields_of (word_from word)) }
    ensures limit { result ≤ 52 }
{
    exponent(word_in(word))
}

/// The bounds of a word, whatever its 128 bits are.
#[unsafe(no_mangle)]
pub extern "C" fn kernelstint_bounds_of(word: HostWord) -> HostBounds
    ensures value { bounds_from result ≡ bounds_in (word_from word) }
    ensures meets { IsBounds (fields_of (word_from word)) result.base (top_of result) }
    ensures only { (base top : ℕ) → IsBounds (fields_of (word_from word)) base top
        → (base ≡ result.base) × (top ≡ top_of result) }
    ensures bit { result.top_high ≤ 1 }
{
    bounds_out(bounds(word_in(word)))
}

/// By how many windows the base and the top of a word lie apart from the multiple of a window that the
/// address's upper bits say: each by -1, 0 or 1.
#[unsafe(no_mangle)]
pub extern "C" fn kernelstint_corrections_of(word: HostWord) -> HostCorrections
    ensures meets { AreCorrections (fields_of (word_from word)) result.base result.top }
    ensures only { (first second : ℤ) → AreCorrections (fields_of (word_from word)) first second
        → (first ≡ result.base) × (second ≡ result.top) }
{
    let (base, top) = corrections(word_in(word));
    HostCorrections { base, top }
}

/// Whether the word keeps its bounds with this address.
#[unsafe(no_mangle)]
pub extern "C" fn kernelstint_representable(word: HostWord, address: u64) -> bool
    ensures value { result ≡ keeps_bounds (word_from word) address }
    ensures same { IsTrue result ↔ IsRepresentable (fields_of (word_from word)) address }
    ensures window { IsTrue result ↔ IsInWindow (fields_of (word_from word)) address }
{
    representable(word_in(word), address)
}

/// Whether a word has a permission; of several bits, any of them.
#[unsafe(no_mangle)]
pub extern "C" fn kernelstint_is_allowed(word: HostWord, permission: u16) -> bool
    ensures { result ≡ allows permission (word_from word) }
{
    is_allowed(word_in(word), permission)
}
