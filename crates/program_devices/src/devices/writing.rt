//! What the program writes to.

ghost use Rattle.std.specs.Prelude.{◌≡◌, ◌<◌, ℕ, Bool, IfOk, List, None, OnErr, OnOk, Option, false, length};
ghost use Rattle.std.specs.Io.{WritesAtMost};
ghost use Rattle.std.specs.Io.KnownBytes.{Appends, WriteAppends};
ghost use Rattle.program_devices.specs.Device.{AppendsBeginning, FailsByError};

use crate::devices::Failed;
use std::io::Write;

/// What bytes are written to.
pub trait Sink {
    // The bytes that it was given so far, where they are known.
    ghost contents: { Self → Option (List ℕ) } = { λ _. None };

    ghost failed: { Self → Bool };

    /// Writes the front of `bytes`, and says how many bytes it took.
    fn write(&mut self, bytes: &[u8]) -> Result<usize, Failed>
        ensures bound { WritesAtMost result bytes.now }
        ensures some { IfOk result (λ count. 0 < length bytes.now → 0 < count) }
        // A write that fails adds nothing.
        ensures bytes { WriteAppends (contents self.old) (contents self.new) result bytes.now }
        ensures fails { FailsByError (failed self.old) result (failed self.new) };

    /// Whether any write so far has failed.
    fn has_failed(&self) -> bool
        ensures { result ≡ failed self.now };
}

/// Writes the whole text, in as many calls as it takes, and stops at the first that fails.
pub fn send<O: Sink>(writer: &mut O, text: &[u8]) -> Result<(), Failed>
    ensures ok { OnOk result (Appends (O.contents writer.old) (O.contents writer.new) text.now) }
    ensures err { OnErr result
        (AppendsBeginning (O.contents writer.old) (O.contents writer.new) text.now) }
    ensures fails { FailsByError (O.failed writer.old) result (O.failed writer.new) }
{
    let mut rest = text;
    while !rest.is_empty() {
        let count = writer.write(rest)?;
        rest = &rest[count..];
    }
    Ok(())
}

/// A sink over a writer of the standard library, any error of which is `Failed`.
#[derive(Drop)]
pub struct FromWrite<W> {
    writer: W,
    has_failed: bool,
}

impl<W: Write> FromWrite<W> {
    /// Takes the writer over, with what it holds.
    pub fn new(writer: W) -> FromWrite<W>
        ensures working { ⟦<FromWrite<W> as Sink>⟧.failed result ≡ false }
        ensures bytes { ⟦<FromWrite<W> as Sink>⟧.contents result ≡ W.contents writer }
    {
        FromWrite {
            writer,
            has_failed: false,
        }
    }
}

impl<W: Write> Sink for FromWrite<W> {
    ghost contents = { λ sink. W.contents sink.writer };

    ghost failed = { λ sink. sink.has_failed };

    fn write(&mut self, bytes: &[u8]) -> Result<usize, Failed> {
        if bytes.is_empty() {
            return Ok(0);
        }
        match self.writer.write(bytes) {
            // A writer that takes nothing of some bytes would be asked without end.
            Ok(count) if count > 0 => Ok(count),
            _ => {
                self.has_failed = true;
                Err(Failed)
            }
        }
    }

    fn has_failed(&self) -> bool {
        self.has_failed
    }
}
