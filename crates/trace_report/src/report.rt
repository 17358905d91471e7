//! The text of a report.

ghost use Rattle.std.specs.Prelude.{◌≡◌, ◌≤◌, ◌+◌, ◌++◌, [], IfOk, OnErr, OnOk, codes, length};
ghost use Rattle.trace_report.specs.Report.{end_line, line_text, name_of};

use heap_reply::{Reply, ShortText, put_reply_of};
use host_memory::Global;
use std::alloc::AllocError;
use std::marker::Model;
use trace_text::Command;

// Puts a command's name with a blank at each side: each a text of known length, which a few moves copy.
#[inline(always)]
fn put_name(line: &mut ShortText, command: Command)
    requires room { 10 + length line.old ≤ 256 }
    ensures text { line.new ≡ codes " " ++ name_of command ++ codes " " ++ line.old }
    ensures length { length line.new ≤ 10 + length line.old }
{
    match command {
        Command::Malloc { .. } => line.put(" malloc "),
        Command::Free { .. } => line.put(" free "),
        Command::Copy { .. } => line.put(" copy "),
        Command::SetAddr { .. } => line.put(" setaddr "),
        Command::Narrow { .. } => line.put(" narrow "),
        Command::AndPerm { .. } => line.put(" andperm "),
        Command::StoreCap { .. } => line.put(" storecap "),
        Command::LoadCap { .. } => line.put(" loadcap "),
        Command::Write { .. } => line.put(" write "),
        Command::Show { .. } => line.put(" show "),
        Command::Sweep => line.put(" sweep "),
        Command::Begin => line.put(" begin "),
        Command::End => line.put(" end "),
    }
}

// Makes the line of a command and its answer.
#[inline(always)]
fn put_line(line: &mut ShortText, number: u32, command: Command, reply: &Reply)
    requires { line.old ≡ [] }
    ensures { line.new ≡ line_text number command reply.now }
{
    line.put("\n");
    put_reply_of(line, reply);
    put_name(line, command);
    line.put_decimal(u64::from(number));
}

/// The bytes in live blocks, in held blocks and in neither, and how many granules and registers are tagged.
#[derive(Debug, Clone, Copy, PartialEq, Eq)]
pub struct Sums {
    pub live: u64,
    pub held: u64,
    pub free: u64,
    pub tags: u128,
}

/// A report as it grows, line by line. The last line stands apart until the next one is made: its
/// bytes were written one by one, and a copy of many at once waits until they are in the cache.
#[derive(Drop)]
pub struct Report {
    text: Vec<u8, Global>,
    last: ShortText,
}

impl Model for Report {
    ghost use Rattle.std.specs.Prelude.{ℕ, ◌++◌, List};

    ghost Value = { List ℕ };

    ghost view = { λ report. report.text.items ++ report.last };
}

impl Report {
    /// A report without a line.
    pub fn new(alloc: Global) -> Report
        ensures { result ≡ [] }
    {
        Report {
            text: Vec::new(alloc),
            last: ShortText::new(),
        }
    }

    /// Adds the line of a command and its answer.
    pub fn push(&mut self, number: u32, command: Command, reply: &Reply) -> Result<(), AllocError>
        ensures ok { OnOk result (self.new ≡ self.old ++ line_text number command reply.now) }
        ensures err { OnErr result (self.new ≡ self.old) }
    {
        self.text.extend_from_slice(self.last.as_bytes())?;
        self.last.clear();
        put_line(&mut self.last, number, command, reply);
        Ok(())
    }

    /// The whole text, with a last line: the bytes in live blocks, in held blocks and in neither, and
    /// the tags.
    pub fn end(self, alloc: Global, sums: Sums) -> Result<Vec<u8, Global>, AllocError>
        ensures { IfOk result (λ text. text.items ≡ self ++ end_line sums) }
    {
        let Report { mut text, last } = self;
        let Sums {
            live,
            held,
            free,
            tags,
        } = sums;
        let end = format!(in alloc; "end live {live} held {held} free {free} tags {tags}\n")?;
        text.extend_from_slice(last.as_bytes())?;
        text.extend_from_slice(end.as_bytes())?;
        Ok(text)
    }
}
