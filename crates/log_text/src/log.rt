//! What a log says.

use heap_reply::Reply;
use host_memory::Global;
use revoker_steps::{RevokerCommand, RevokerReply};
use trace_text::Command;

/// A part of the state in which the heap was when the log begins. A block goes from `base` up to `top`.
#[derive(Clone, Copy, Debug, PartialEq, Eq)]
pub enum Given {
    /// A block is in use.
    Live {
        base: u64,
        top: u128,
    },
    /// A block was freed, and no epoch works on it yet.
    Waiting {
        base: u64,
        top: u128,
    },
    /// A block was freed, and the open epoch works on it.
    Painted {
        base: u64,
        top: u128,
    },
    /// An epoch is open, though perhaps no block is painted.
    Epoch,
    /// A register has this content, in the order of memory.
    Register {
        register: u8,
        tag: bool,
        bytes: [u8; 16],
    },
    /// The granule at this address has this content.
    Granule {
        address: u64,
        tag: bool,
        bytes: [u8; 16],
    },
}

/// What the allocator did.
#[derive(Clone, Copy, Debug, PartialEq, Eq)]
pub enum Event {
    /// It was given a command, and answered.
    Done {
        command: Command,
        answer: Reply,
    },
    /// Its revoker did a step of its own, and this came of it.
    Revoked {
        command: RevokerCommand,
        answer: RevokerReply,
    },
    /// The granule at this address was read, and had this content.
    Seen {
        address: u64,
        tag: bool,
        bytes: [u8; 16],
    },
}

/// The base address of a heap, its pages of 4,096 bytes, how it was when the log begins, and what happened, each with
/// the number of its line, from 1.
#[derive(Debug, PartialEq, Eq, Drop)]
pub struct Log {
    pub base: u64,
    pub pages: u32,
    pub givens: Vec<(u32, Given), Global>,
    pub events: Vec<(u32, Event), Global>,
}
