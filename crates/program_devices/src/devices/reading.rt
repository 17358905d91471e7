//! What the program reads from.

ghost use Rattle.std.specs.Prelude.{◌≡◌, ◌↔◌, ◌<◌, ◌+◌, ◌^◌, ℕ, Bool, IfOk, List, None, Option, false, length, true};
ghost use Rattle.std.specs.Io.{ReadsAtMost};
ghost use Rattle.std.specs.Io.KnownBytes.{ReadConsumes};
ghost use Rattle.program_devices.specs.Device.{FailsByError, ReadsFew, ReadsMore, ReadsUpTo};

use crate::devices::Failed;
use host_memory::Global;
use std::alloc::AllocError;
use std::io::Read;

// The most bytes that are read at once.
const CHUNK: usize = 65_536;

/// What bytes are read from.
pub trait Source {
    // The bytes that reads will give from here on, where they are known.
    ghost remaining: { Self → Option (List ℕ) } = { λ _. None };

    ghost failed: { Self → Bool };

    /// Reads into the front of `buf`, and says how many bytes it read.
    fn read(&mut self, buf: &mut [u8]) -> Result<usize, Failed>
        ensures bound { ReadsAtMost result buf.new }
        // None with room in `buf` is the end, and a read that fails takes nothing.
        ensures bytes { ReadConsumes (remaining self.old) (remaining self.new) result buf.new }
        ensures fails { FailsByError (failed self.old) result (failed self.new) };

    /// Whether any read so far has failed.
    fn has_failed(&self) -> bool
        ensures { result ≡ failed self.now };
}

/// Why a text wasn't read.
#[derive(Debug, Clone, Copy, PartialEq, Eq)]
pub enum ReadFault {
    /// Memory ran out.
    Memory,
    /// The reader failed.
    Failed,
}

/// Reads to the end, but at most one byte more than the longest text has, so that a longer one is told; also where it errs.
pub fn read_text<I: Source>(
    alloc: Global,
    reader: &mut I,
    longest: usize,
) -> Result<Vec<u8, Global>, ReadFault>
    requires working { I.failed reader.old ≡ false }
    requires longest { longest + 1 < 2 ^ 64 }
    ensures ok { IfOk result (λ text.
        ReadsUpTo (longest + 1) (I.remaining reader.old) (I.remaining reader.new) text.items) }
    ensures few { ReadsFew (longest + 1) 0 (I.remaining reader.old) (I.remaining reader.new) }
    ensures failed { (result ≡ Err ReadFault.Failed) ↔ (I.failed reader.new ≡ true) }
{
    let Ok(mut chunk) = new_chunk(alloc) else {
        return Err(ReadFault::Memory);
    };
    let mut text = Vec::new(alloc);
    let mut is_at_end = false;
    while !is_at_end && text.len() <= longest {
        is_at_end = read_more(&mut text, reader, &mut chunk, longest)?;
    }
    Ok(text)
}

// The buffer by way of which all reads go.
fn new_chunk(alloc: Global) -> Result<Vec<u8, Global>, AllocError>
    ensures { IfOk result (λ chunk. 0 < length chunk.items) }
{
    vec![in alloc; 0; CHUNK]
}

// Reads once more, by way of this buffer, and says whether that was the end.
fn read_more<I: Source>(
    text: &mut Vec<u8, Global>,
    reader: &mut I,
    chunk: &mut [u8],
    longest: usize,
) -> Result<bool, ReadFault>
    requires working { I.failed reader.old ≡ false }
    requires longest { longest + 1 < 2 ^ 64 }
    requires room { length text.old.items < longest + 1 }
    requires some { 0 < length chunk.old }
    ensures ok { IfOk result (λ is_at_end. ReadsMore (longest + 1)
        (I.remaining reader.old) (I.remaining reader.new) text.old.items text.new.items is_at_end) }
    ensures few { ReadsFew (longest + 1) (length text.old.items) (I.remaining reader.old) (I.remaining reader.new) }
    ensures failed { (result ≡ Err ReadFault.Failed) ↔ (I.failed reader.new ≡ true) }
{
    let room = chunk.len().min(longest + 1 - text.len());
    let buffer = &mut chunk[..room];
    let Ok(count) = reader.read(buffer) else {
        return Err(ReadFault::Failed);
    };
    let Ok(()) = text.extend_from_slice(&buffer[..count]) else {
        return Err(ReadFault::Memory);
    };
    Ok(count == 0)
}

/// A source over a reader of the standard library, any error of which is `Failed`.
#[derive(Drop)]
pub struct FromRead<R> {
    reader: R,
    has_failed: bool,
}

impl<R: Read> FromRead<R> {
    /// Takes the reader over, with what it has left.
    pub fn new(reader: R) -> FromRead<R>
        ensures working { ⟦<FromRead<R> as Source>⟧.failed result ≡ false }
        ensures bytes { ⟦<FromRead<R> as Source>⟧.remaining result ≡ R.remaining reader }
    {
        FromRead {
            reader,
            has_failed: false,
        }
    }
}

impl<R: Read> Source for FromRead<R> {
    ghost remaining = { λ source. R.remaining source.reader };

    ghost failed = { λ source. source.has_failed };

    fn read(&mut self, buf: &mut [u8]) -> Result<usize, Failed> {
        let Ok(count) = self.reader.read(buf) else {
            self.has_failed = true;
            return Err(Failed);
        };
        Ok(count)
    }

    fn has_failed(&self) -> bool {
        self.has_failed
    }
}
