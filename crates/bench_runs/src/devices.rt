//! Devices in memory: a text to read, and a digest of what is written; and the programs over them.

ghost use Rattle.std.specs.Prelude.{◌≡◌, Some, false};

use byteorder::{ByteOrder, LittleEndian};
use heap_command::tool;
use program_devices::{Failed, Sink, Source};
use states_command::states_tool;
use std::alloc::Global;
use std::thread::Threads;

/// A text that is read from its start.
#[derive(Drop)]
pub struct Given<'a> {
    rest: &'a [u8],
}

impl Source for Given<'_> {
    ghost remaining = { λ source. Some source.rest.now };

    ghost failed = { λ _. false };

    fn read(&mut self, buf: &mut [u8]) -> Result<usize, Failed> {
        let count = buf.len().min(self.rest.len());
        buf[..count].copy_from_slice(&self.rest[..count]);
        self.rest = &self.rest[count..];
        Ok(count)
    }

    fn has_failed(&self) -> bool {
        false
    }
}

/// A sum over all bytes written, eight at a time, and how many they are.
#[derive(Drop)]
pub struct Digest {
    sum: u64,
    bytes: u64,
}

impl Digest {
    /// Of nothing yet.
    pub fn new() -> Digest {
        Digest { sum: 1, bytes: 0 }
    }

    /// The sum so far.
    pub fn sum(&self) -> u64 {
        self.sum
    }

    /// How many bytes there were.
    pub fn bytes(&self) -> u64 {
        self.bytes
    }

    /// Adds a number, as eight bytes.
    pub fn add(&mut self, number: u64) {
        self.mix(number);
        self.bytes = self.bytes.wrapping_add(8);
    }

    fn mix(&mut self, number: u64) {
        self.sum = (self.sum ^ number)
            .wrapping_mul(0x9e37_79b9_7f4a_7c15)
            .rotate_left(29);
    }
}

impl Sink for Digest {
    ghost failed = { λ _. false };

    fn write(&mut self, bytes: &[u8]) -> Result<usize, Failed> {
        let words = bytes.len() / 8;
        for w in 0..words {
            self.mix(LittleEndian::read_u64(&bytes[8 * w..]));
        }
        for byte in &bytes[8 * words..] {
            self.mix(u64::from(*byte));
        }
        self.bytes = self.bytes.wrapping_add(bytes.len() as u64);
        Ok(bytes.len())
    }

    fn has_failed(&self) -> bool {
        false
    }
}

/// Gives a text to `heap_tool` with these words, and digests what it writes, and its status.
pub fn run<R: Threads + Sync>(
    rt: &R,
    alloc: Global,
    words: &[&str],
    text: &[u8],
    digest: &mut Digest,
) {
    let mut reader = Given { rest: text };
    let status = tool(rt, alloc, words, &mut reader, digest);
    digest.add(u64::from(status));
}

/// The same of `heap_states`.
pub fn give<R: Threads + Sync>(rt: &R, alloc: Global, text: &[u8], digest: &mut Digest) {
    let mut reader = Given { rest: text };
    let status = states_tool(rt, alloc, &["heap_states"], &mut reader, digest);
    digest.add(u64::from(status));
}
