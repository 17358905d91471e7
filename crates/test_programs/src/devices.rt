//! Devices of the tests' own, and the standard library's, wrapped.

ghost use Rattle.std.specs.Prelude.{◌≡◌, ◌≤◌, IfOk, Some, false};

use program_devices::{Failed, FromRead, FromWrite, Sink, Source, send};
use std::io;

/// A reader that fails at once.
#[derive(Drop)]
pub struct Broken {
    has_failed: bool,
}

impl Broken {
    pub(crate) fn new() -> Broken
        ensures { ⟦<Broken as Source>⟧.failed result ≡ false }
    {
        Broken { has_failed: false }
    }
}

impl Source for Broken {
    ghost failed = { λ source. source.has_failed };

    fn read(&mut self, _buf: &mut [u8]) -> Result<usize, Failed> {
        self.has_failed = true;
        Err(Failed)
    }

    fn has_failed(&self) -> bool {
        self.has_failed
    }
}

/// A reader of some bytes, which gives at most `step` of them a call. After them it is at its end, or
/// fails where it breaks.
#[derive(Drop)]
pub struct Slow<'a> {
    pub rest: &'a [u8],
    pub step: usize,
    pub breaks: bool,
    pub has_failed: bool,
    ghost moves: { 1 ≤ step },
}

impl Source for Slow<'_> {
    ghost remaining = { λ source. Some source.rest.now };

    ghost failed = { λ source. source.has_failed };

    fn read(&mut self, buf: &mut [u8]) -> Result<usize, Failed> {
        if self.breaks && self.rest.is_empty() {
            self.has_failed = true;
            return Err(Failed);
        }
        let count = buf.len().min(self.step).min(self.rest.len());
        buf[..count].copy_from_slice(&self.rest[..count]);
        self.rest = &self.rest[count..];
        Ok(count)
    }

    fn has_failed(&self) -> bool {
        self.has_failed
    }
}

/// A reader of some bytes that fails at one call, by its number from 1 on, and at no other. It gives at most `step` bytes
/// a call.
#[derive(Drop)]
pub struct Failing<'a> {
    rest: &'a [u8],
    step: usize,
    fails_at: usize,
    calls: usize,
    has_failed: bool,
}

impl<'a> Failing<'a> {
    pub(crate) fn new(bytes: &'a [u8], step: usize, fails_at: usize) -> Failing<'a>
        ensures { ⟦<Failing<'a> as Source>⟧.failed result ≡ false }
    {
        Failing {
            rest: bytes,
            step,
            fails_at,
            calls: 0,
            has_failed: false,
        }
    }

    /// How often it was asked so far.
    pub(crate) fn calls(&self) -> usize {
        self.calls
    }
}

impl Source for Failing<'_> {
    ghost failed = { λ source. source.has_failed };

    fn read(&mut self, buf: &mut [u8]) -> Result<usize, Failed> {
        self.calls = self.calls.saturating_add(1);
        if self.calls == self.fails_at {
            self.has_failed = true;
            return Err(Failed);
        }
        let count = buf.len().min(self.step).min(self.rest.len());
        buf[..count].copy_from_slice(&self.rest[..count]);
        self.rest = &self.rest[count..];
        Ok(count)
    }

    fn has_failed(&self) -> bool {
        self.has_failed
    }
}

/// A writer that takes at most `step` bytes a call, and fails after `room` bytes.
#[derive(Drop)]
pub struct Short {
    pub taken: Vec<u8>,
    pub step: usize,
    pub room: usize,
    pub has_failed: bool,
}

impl Sink for Short {
    ghost contents = { λ sink. Some sink.taken.items };

    ghost failed = { λ sink. sink.has_failed };

    fn write(&mut self, bytes: &[u8]) -> Result<usize, Failed> {
        if bytes.is_empty() {
            return Ok(0);
        }
        let count = bytes.len().min(self.step).min(self.room);
        if count == 0 || self.taken.extend_from_slice(&bytes[..count]).is_err() {
            self.has_failed = true;
            return Err(Failed);
        }
        self.room -= count;
        Ok(count)
    }

    fn has_failed(&self) -> bool {
        self.has_failed
    }
}

/// A writer that needs no memory.
#[derive(Drop)]
pub struct Fixed {
    bytes: [u8; 256],
    len: usize,
    has_failed: bool,
    ghost within: { len ≤ 256 },
}

impl Fixed {
    pub(crate) fn new() -> Fixed
        ensures { ⟦<Fixed as Sink>⟧.failed result ≡ false }
    {
        Fixed {
            bytes: [0; 256],
            len: 0,
            has_failed: false,
        }
    }

    /// What was written so far.
    pub(crate) fn text(&self) -> &[u8] {
        &self.bytes[..self.len]
    }
}

impl Sink for Fixed {
    ghost failed = { λ sink. sink.has_failed };

    fn write(&mut self, bytes: &[u8]) -> Result<usize, Failed> {
        let count = bytes.len().min(256 - self.len);
        if count == 0 && !bytes.is_empty() {
            self.has_failed = true;
            return Err(Failed);
        }
        self.bytes[self.len..self.len + count].copy_from_slice(&bytes[..count]);
        self.len += count;
        Ok(count)
    }

    fn has_failed(&self) -> bool {
        self.has_failed
    }
}

/// A reader and writer of the standard library's kind, which gives bytes and takes none.
#[derive(Drop)]
struct Full<'a> {
    rest: &'a [u8],
}

impl io::Read for Full<'_> {
    fn read(&mut self, buf: &mut [u8]) -> io::Result<usize> {
        let count = buf.len().min(self.rest.len());
        buf[..count].copy_from_slice(&self.rest[..count]);
        self.rest = &self.rest[count..];
        Ok(count)
    }
}

impl io::Write for Full<'_> {
    fn write(&mut self, _bytes: &[u8]) -> io::Result<usize> {
        Ok(0)
    }

    fn flush(&mut self) -> io::Result<()> {
        Ok(())
    }
}

/// One that fails whatever it is asked.
#[derive(Drop)]
struct Never;

impl io::Write for Never {
    fn write(&mut self, _bytes: &[u8]) -> io::Result<usize> {
        Err(io::Error::from(io::ErrorKind::Other))
    }

    fn flush(&mut self) -> io::Result<()> {
        Ok(())
    }
}

/// One that fails at one call, by its number from 1 on, and gives or takes a byte at each other.
#[derive(Drop)]
struct Once {
    fails_at: usize,
    kind: io::ErrorKind,
    calls: usize,
}

impl Once {
    // What the next call answers.
    fn answer(&mut self, room: usize) -> io::Result<usize>
        ensures { IfOk result (λ count. (count ≤ room) × (count ≤ 1)) }
    {
        self.calls = self.calls.saturating_add(1);
        if self.calls == self.fails_at {
            return Err(io::Error::from(self.kind));
        }
        Ok(room.min(1))
    }
}

impl io::Read for Once {
    fn read(&mut self, buf: &mut [u8]) -> io::Result<usize> {
        self.answer(buf.len())
    }
}

impl io::Write for Once {
    fn write(&mut self, bytes: &[u8]) -> io::Result<usize> {
        self.answer(bytes.len())
    }

    fn flush(&mut self) -> io::Result<()> {
        Ok(())
    }
}

// Each call at which a device fails, and how: after some of these a program might be tempted to ask once more.
const FAILURES: [(usize, io::ErrorKind); 5] = [
    (1, io::ErrorKind::Other),
    (1, io::ErrorKind::Interrupted),
    (2, io::ErrorKind::WouldBlock),
    (2, io::ErrorKind::Interrupted),
    (3, io::ErrorKind::UnexpectedEof),
];

#[test]
fn a_wrapped_reader_fails_where_its_device_does(rt: HostRuntime) {
    for (fails_at, kind) in FAILURES {
        let mut device = Once {
            fails_at,
            kind,
            calls: 0,
        };
        let mut reader = FromRead::new(&mut device);
        let mut bytes = [0; 2];
        for _ in 1..fails_at {
            assert_eq!(rt; reader.read(&mut bytes), Ok(1));
            assert!(rt; !reader.has_failed());
        }
        assert_eq!(rt; reader.read(&mut bytes), Err(Failed));
        assert!(rt; reader.has_failed());
        drop(reader);
        assert_eq!(rt; device.calls, fails_at);
    }
}

#[test]
fn a_wrapped_writer_fails_where_its_device_does(rt: HostRuntime) {
    for (fails_at, kind) in FAILURES {
        let mut device = Once {
            fails_at,
            kind,
            calls: 0,
        };
        let mut writer = FromWrite::new(&mut device);
        for _ in 1..fails_at {
            assert_eq!(rt; writer.write(b"ab"), Ok(1));
            assert!(rt; !writer.has_failed());
        }
        assert_eq!(rt; writer.write(b"ab"), Err(Failed));
        assert!(rt; writer.has_failed());
        drop(writer);
        assert_eq!(rt; device.calls, fails_at);
    }
}

#[test]
fn a_write_of_nothing_asks_the_device_for_nothing(rt: HostRuntime) {
    let mut writer = FromWrite::new(Never);
    assert_eq!(rt; writer.write(b""), Ok(0));
    assert!(rt; !writer.has_failed());
    assert_eq!(rt; writer.write(b"a"), Err(Failed));
    assert!(rt; writer.has_failed());
}

#[test]
fn devices_of_the_standard_library_are_wrapped(rt: HostRuntime) {
    let mut reader = FromRead::new(Full { rest: b"abc" });
    let mut bytes = [0; 2];
    assert_eq!(rt; reader.read(&mut bytes).expect(&rt, "there is memory"), 2);
    assert_eq!(rt; bytes, *b"ab");
    assert!(rt; !reader.has_failed());
    let mut writer = FromWrite::new(Full { rest: b"" });
    assert_eq!(rt; writer.write(b""), Ok(0));
    assert_eq!(rt; send(&mut writer, b"a"), Err(Failed));
    assert!(rt; writer.has_failed());
    let name = format!(in rt.alloc(); "{Failed}").expect(&rt, "there is memory");
    assert_eq!(rt; name.as_str(), "Failed");
}
