//! The lines that are said of a log.

ghost use Rattle.std.specs.Prelude.{◌≡◌, IfOk, Some, string_bytes};
ghost use Rattle.heap_reply.specs.ReplyText.{text_of_reply};
ghost use Rattle.log_answer.specs.Text.{agrees_line, content_text, counted_text, differs_line, difference_text, lack_text, line_of_fault, noun_text, origin_text, plural_text, refused_text, said_text, said_block_text, unsafe_line, way_text, why_text};

use given_state::Lack;
use heap_core::{Block, Obstacle};
use heap_log::{Difference, Tally};
use heap_machine::Why;
use heap_reply::{Hexadecimal, Reply, ShortText, flag_number, put_reply};
use host_memory::Global;
use log_text::{Event, LogFault};
use std::alloc::AllocError;
use std::fmt;

/// What is counted.
#[derive(Clone, Copy, Debug, PartialEq, Eq)]
pub enum Noun {
    Command,
    Block,
    Pass,
    Tag,
    Word,
}

impl fmt::Display for Noun {
    ghost output = { λ noun. Some (noun_text noun) };

    fn fmt<W: fmt::Write>(&self, f: &mut fmt::Formatter<W>) -> fmt::Result {
        match self {
            Noun::Command => write!(f, "command"),
            Noun::Block => write!(f, "block"),
            Noun::Pass => write!(f, "pass"),
            Noun::Tag => write!(f, "tag"),
            Noun::Word => write!(f, "word"),
        }
    }
}

/// More than one of it, or none.
#[derive(Clone, Copy)]
struct Plural(Noun);

impl fmt::Display for Plural {
    ghost output = { λ plural. Some (plural_text plural.0) };

    fn fmt<W: fmt::Write>(&self, f: &mut fmt::Formatter<W>) -> fmt::Result {
        match self.0 {
            Noun::Command => write!(f, "commands"),
            Noun::Block => write!(f, "blocks"),
            Noun::Pass => write!(f, "passes"),
            Noun::Tag => write!(f, "tags"),
            Noun::Word => write!(f, "words"),
        }
    }
}

/// So many of it.
#[derive(Clone, Copy)]
pub struct Counted {
    pub count: u64,
    pub noun: Noun,
}

impl fmt::Display for Counted {
    ghost output = { λ counted. Some (counted_text counted.count counted.noun) };

    fn fmt<W: fmt::Write>(&self, f: &mut fmt::Formatter<W>) -> fmt::Result {
        let count = self.count;
        let noun = self.noun;
        if count == 1 {
            return write!(f, "1 {noun}");
        }
        let plural = Plural(noun);
        write!(f, "{count} {plural}")
    }
}

fn so_many(count: u32, noun: Noun) -> Counted
    ensures { result ≡ record { count = count; noun = noun } }
{
    Counted {
        count: u64::from(count),
        noun,
    }
}

/// Where a block in the way came from, as far as the log tells.
#[derive(Clone, Copy, Debug, PartialEq, Eq)]
pub enum Origin {
    /// A malloc was answered with it at this line.
    HandedOut(u32),
    /// It was freed at this line.
    Freed(u32),
    /// This line gives it.
    Given(u32),
    Unknown,
}

impl fmt::Display for Origin {
    ghost output = { λ from. Some (origin_text from) };

    fn fmt<W: fmt::Write>(&self, f: &mut fmt::Formatter<W>) -> fmt::Result {
        match self {
            Origin::HandedOut(line) => write!(f, ", handed out at line {line}"),
            Origin::Freed(line) => write!(f, ", freed at line {line}"),
            Origin::Given(line) => write!(f, ", given at line {line}"),
            Origin::Unknown => Ok(()),
        }
    }
}

/// A block in the way, shown as `0x.. 0x.., freed at line ..`.
#[derive(Clone, Copy)]
struct InTheWay {
    block: Block,
    from: Origin,
}

impl fmt::Display for InTheWay {
    ghost output = { λ way. Some (way_text way.block way.from) };

    fn fmt<W: fmt::Write>(&self, f: &mut fmt::Formatter<W>) -> fmt::Result {
        let base = self.block.base;
        let top = Hexadecimal(self.block.top);
        let from = self.from;
        write!(f, "0x{base:x} {top}{from}")
    }
}

/// Why a block may not lie where it is told to.
#[derive(Clone, Copy)]
struct RefusedBlock {
    obstacle: Obstacle,
    from: Origin,
}

impl fmt::Display for RefusedBlock {
    ghost output = { λ refused. Some (refused_text refused.obstacle refused.from) };

    fn fmt<W: fmt::Write>(&self, f: &mut fmt::Formatter<W>) -> fmt::Result {
        let from = self.from;
        match self.obstacle {
            Obstacle::Uneven => write!(f, " is not whole granules"),
            Obstacle::Empty => write!(f, " is empty"),
            Obstacle::Outside => write!(f, " lies outside the heap"),
            Obstacle::Inexact => write!(f, " has bounds that no capability holds"),
            Obstacle::OverLive(block) => {
                let way = InTheWay { block, from };
                write!(f, " lies over the live block {way}")
            }
            Obstacle::OverHeld(block) => {
                let way = InTheWay { block, from };
                write!(f, " lies over the held block {way}")
            }
        }
    }
}

/// The text of a reply.
#[derive(Clone, Copy)]
struct ReplyText(Reply);

impl fmt::Display for ReplyText {
    ghost output = { λ text. Some (text_of_reply text.0) };

    fn fmt<W: fmt::Write>(&self, f: &mut fmt::Formatter<W>) -> fmt::Result {
        let mut text = ShortText::new();
        put_reply(&mut text, self.0);
        let shown = text.as_str();
        write!(f, "{shown}")
    }
}

/// The block that an event hands out, if it does.
#[derive(Clone, Copy)]
struct SaidBlock(Event);

impl fmt::Display for SaidBlock {
    ghost output = { λ told. Some (said_block_text told.0) };

    fn fmt<W: fmt::Write>(&self, f: &mut fmt::Formatter<W>) -> fmt::Result {
        match self.0 {
            Event::Done {
                answer: Reply::Block { base, top } | Reply::BlockAfter { base, top, .. },
                ..
            } => {
                let block = ReplyText(Reply::Block { base, top });
                write!(f, "{block}")
            }
            _ => Ok(()),
        }
    }
}

/// A tag and 16 bytes.
#[derive(Clone, Copy)]
struct Content {
    tag: bool,
    bytes: [u8; 16],
}

impl fmt::Display for Content {
    ghost output = { λ content. Some (content_text content.tag content.bytes) };

    fn fmt<W: fmt::Write>(&self, f: &mut fmt::Formatter<W>) -> fmt::Result {
        let tag = flag_number(self.tag);
        let text = ShortText::of_bytes(self.bytes);
        let shown = text.as_str();
        write!(f, "{tag} {shown}")
    }
}

/// What a log says of an event.
#[derive(Clone, Copy)]
struct Said(Event);

impl fmt::Display for Said {
    ghost output = { λ said. Some (said_text said.0) };

    fn fmt<W: fmt::Write>(&self, f: &mut fmt::Formatter<W>) -> fmt::Result {
        match self.0 {
            Event::Done { answer, .. } => {
                let answer = ReplyText(answer);
                write!(f, "{answer}")
            }
            Event::Revoked { answer, .. } => write!(f, "{answer}"),
            Event::Seen { tag, bytes, .. } => {
                let content = Content { tag, bytes };
                write!(f, "{content}")
            }
        }
    }
}

/// An event that differs, and what is told of it, where an epoch is open or none is.
#[derive(Clone, Copy)]
pub struct Differing {
    pub event: Event,
    pub is_open: bool,
    pub from: Origin,
    pub difference: Difference,
}

/// Why its answer isn't allowed.
#[derive(Clone, Copy)]
struct WhyText {
    event: Event,
    is_open: bool,
    from: Origin,
    why: Why,
}

impl fmt::Display for WhyText {
    ghost output = { λ it. Some (why_text it.event it.is_open it.from it.why) };

    fn fmt<W: fmt::Write>(&self, f: &mut fmt::Formatter<W>) -> fmt::Result {
        let told = SaidBlock(self.event);
        let said = Said(self.event);
        match self.why {
            Why::MustBe(reply) => {
                let reply = ReplyText(reply);
                write!(f, "the answer must be {reply}, and the log says {said}")
            }
            Why::NotOfMalloc => {
                write!(
                    f,
                    "a malloc is answered by a block or by nospace, and the log says {said}"
                )
            }
            Why::TooShort => write!(f, "{told} is shorter than the size asked for"),
            Why::MayNotSweep if self.is_open => {
                write!(f, "no sweep may be told: an epoch is open")
            }
            Why::MayNotSweep => write!(f, "no sweep may be told: no block waits"),
            Why::Takes(count) => {
                let tags = so_many(count, Noun::Tag);
                write!(f, "the sweep takes {tags}, and the log says {said}")
            }
            Why::Refused(obstacle) => {
                let from = self.from;
                let refused = RefusedBlock { obstacle, from };
                write!(f, "{told}{refused}")
            }
        }
    }
}

impl fmt::Display for Differing {
    ghost output = { λ it. Some (difference_text it.event it.is_open it.from it.difference) };

    fn fmt<W: fmt::Write>(&self, f: &mut fmt::Formatter<W>) -> fmt::Result {
        match self.difference {
            Difference::Answer(why) => {
                let why = WhyText {
                    event: self.event,
                    is_open: self.is_open,
                    from: self.from,
                    why,
                };
                write!(f, "{why}")
            }
            Difference::Step(must) => {
                let said = Said(self.event);
                write!(f, "the answer must be {must}, and the log says {said}")
            }
            Difference::NoGranule => write!(f, "no granule of the heap lies at this address"),
            Difference::Granule { tag, bytes } => {
                let content = Content { tag, bytes };
                let said = Said(self.event);
                write!(f, "the granule holds {content}, and the log says {said}")
            }
        }
    }
}

/// What a given line lacks.
#[derive(Clone, Copy)]
struct LackText {
    from: Origin,
    lack: Lack,
}

impl fmt::Display for LackText {
    ghost output = { λ it. Some (lack_text it.from it.lack) };

    fn fmt<W: fmt::Write>(&self, f: &mut fmt::Formatter<W>) -> fmt::Result {
        let from = self.from;
        match self.lack {
            Lack::Block(Obstacle::OverLive(block)) => {
                let way = InTheWay { block, from };
                write!(f, "the block lies over the block {way}")
            }
            Lack::Block(obstacle) => {
                let refused = RefusedBlock { obstacle, from };
                write!(f, "the block{refused}")
            }
            Lack::RegisterAgain { register, line } => {
                write!(f, "register c{register} was given at line {line}")
            }
            Lack::GranuleAgain { address, line } => {
                let address = Hexadecimal(u128::from(address));
                write!(f, "granule {address} was given at line {line}")
            }
            Lack::NotNull => write!(f, "register c0 is always null"),
            Lack::NoGranule => write!(f, "no granule of the heap lies at this address"),
            Lack::Unguarded { base, top } => {
                let base = Hexadecimal(u128::from(base));
                let top = Hexadecimal(top);
                write!(f, "the word's bounds {base} {top} lie in no block")
            }
        }
    }
}

/// The line of a log that agrees.
pub fn agrees_text(alloc: Global, tally: Tally) -> Result<String<Global>, AllocError>
    ensures { IfOk result (λ text. string_bytes text ≡ agrees_line tally) }
{
    let commands = so_many(tally.commands, Noun::Command);
    let blocks = so_many(tally.blocks, Noun::Block);
    let passes = so_many(tally.passes, Noun::Pass);
    let tags = Counted {
        count: tally.tags,
        noun: Noun::Tag,
    };
    format!(in alloc; "agrees {commands}, {blocks} handed out, {passes}, {tags} taken\n")
}

/// The line of an event that differs.
pub fn differs_text(
    alloc: Global,
    line: u32,
    differing: Differing,
) -> Result<String<Global>, AllocError>
    ensures { IfOk result (λ text. string_bytes text
        ≡ differs_line line differing.event differing.is_open differing.from differing.difference) }
{
    format!(in alloc; "differs {line}: {differing}\n")
}

/// The line of given lines that tell no safe state.
pub fn unsafe_text(
    alloc: Global,
    line: u32,
    from: Origin,
    lack: Lack,
) -> Result<String<Global>, AllocError>
    ensures { IfOk result (λ text. string_bytes text ≡ unsafe_line line from lack) }
{
    let lack = LackText { from, lack };
    format!(in alloc; "unsafe {line}: {lack}\n")
}

/// The line of a text that is no log.
pub fn fault_text(alloc: Global, fault: &LogFault) -> Result<String<Global>, AllocError>
    ensures { IfOk result (λ text. string_bytes text ≡ line_of_fault fault.now) }
{
    format!(in alloc; "fault {fault}\n")
}
