//! What is seen of a machine before a command.

ghost use Rattle.std.specs.Prelude.{◌≡◌, ◌≢◌, ◌<◌, ◌*◌, ◌/◌, ◌++◌, ◌∷◌, ℕ, [], IfOk, IfSome, OnOk, false, if◌then◌else◌, length, true};
ghost use Rattle.cap_codec.specs.Words.{address_in};
ghost use Rattle.machine_steps.specs.State.{register};
ghost use Rattle.data_tokens.specs.Spans.{spans_of};
ghost use Rattle.state_data.specs.States as states;
ghost use Rattle.state_data.specs.Recording as told;
ghost use Rattle.data_tokens.specs.Changes.{StayBut};
ghost use Rattle.state_data.specs.Recording.{IsNextSnapshot, IsPutInOrder, IsSnapshot, before_of, changed_register, due_in_snapshot, freed_base, granule_before, is_stale, open_after, painted_after, waiting_after, written_granule};
ghost use Rattle.tag_memory.specs.Tags.{is_set_for, is_tagged};
ghost use Rattle.trace_text.specs.Command.{IsValid};

use crate::replies::{takes_tags, tells_pass, tells_registers};
use cap_codec::{Word, bounds, fields};
use data_tokens::{HeldBlock, in_order};
use heap_machine::Machine;
use heap_reply::Reply;
use host_memory::Global;
use std::alloc::AllocError;
use std::mem;
use tag_memory::{GRANULE, Memory, REGISTERS, Registers, WORD_GRANULES};
use trace_text::Command;

/// The registers, which granules are tagged, and the blocks that wait or are painted.
#[derive(Drop)]
pub struct Snapshot {
    pub registers: [(Word, bool); 32],
    /// Bit `j` of word `w` is that of granule `64 * w + j`.
    pub tags: Vec<u64, Global>,
    /// Each is put last as it is given up. They come into the order of their starts together, when a pass tells of them: to
    /// find each its place would move half of the others.
    pub waiting: Vec<HeldBlock, Global>,
    pub painted: Vec<HeldBlock, Global>,
    pub is_open: bool,
}

/// What a command may change: by a register, the granule into which it writes, with its bytes and its tag, and where a block
/// starts that it gives up; and the one register that it changes without a pass, 0 for none.
#[derive(Clone, Copy)]
pub struct Before {
    pub granule: Option<(usize, (u128, bool))>,
    pub base: u64,
    pub register: u8,
}

impl Snapshot {
    /// The blocks that are due.
    pub fn due(&self) -> &[HeldBlock]
        ensures { spans_of result.now ≡ due_in_snapshot self.now }
    {
        if self.is_open {
            return &self.painted;
        }
        &self.waiting
    }

    /// The blocks that wait come into the order of their starts, if the reply tells of a pass.
    pub fn put_in_order(&mut self, alloc: Global, reply: Reply)
        ensures { IsPutInOrder self.old self.new reply }
    {
        if !tells_pass(reply) {
            return;
        }
        let waiting = mem::replace(&mut self.waiting, Vec::new(alloc));
        self.waiting = in_order(waiting);
    }
}

// The address and the base of a register.
fn address_of(machine: &Machine, r: u8) -> u64
    requires { r < 32 }
    ensures { result ≡ address_in (register machine.now.state r).0 }
{
    let (word, _) = machine.registers().get(r);
    fields(word).address
}

// The granule into which a command may write, counted from the heap's base.
fn written_by(machine: &Machine, command: Command) -> Option<usize>
    requires { IsValid command }
    ensures { result ≡ written_granule machine.now.state command }
{
    let ra = match command {
        Command::StoreCap { ra, .. } => ra,
        Command::Write { ra, .. } => ra,
        _ => return None,
    };
    let address = address_of(machine, ra);
    Some((address.saturating_sub(machine.memory().base()) / GRANULE) as usize)
}

// Where a block starts that a command may give up.
fn given_up_by(machine: &Machine, command: Command) -> u64
    requires { IsValid command }
    ensures { result ≡ freed_base machine.now.state command }
{
    match command {
        Command::Free { rs } => {
            let (word, _) = machine.registers().get(rs);
            bounds(word).base
        }
        _ => 0,
    }
}

// A granule as it is, where the heap has it.
fn granule_at(machine: &Machine, written: Option<usize>) -> Option<(usize, (u128, bool))>
    ensures { result ≡ granule_before machine.now.state written }
{
    let i = written?;
    if i < machine.memory().granules() {
        return Some((i, machine.memory().cell(i)));
    }
    None
}

// The register that a command may change where no pass looks at registers; 0 where it changes none.
fn changed_by(command: Command) -> u8
    requires { IsValid command }
    ensures value { result ≡ changed_register command }
    ensures within { result < 32 }
{
    match command {
        Command::Malloc { rd, .. } => rd,
        Command::Copy { rd, .. } => rd,
        Command::SetAddr { rd, .. } => rd,
        Command::Narrow { rd, .. } => rd,
        Command::AndPerm { rd, .. } => rd,
        Command::LoadCap { rd, .. } => rd,
        Command::Free { .. }
        | Command::StoreCap { .. }
        | Command::Write { .. }
        | Command::Show { .. }
        | Command::Sweep
        | Command::Begin
        | Command::End => 0,
    }
}

/// What a command may change, as it is before it.
pub fn read_before(machine: &Machine, command: Command) -> Before
    requires { IsValid command }
    ensures value { result ≡ before_of machine.now.state command }
    ensures register { result.register < 32 }
{
    Before {
        granule: granule_at(machine, written_by(machine, command)),
        base: given_up_by(machine, command),
        register: changed_by(command),
    }
}

fn copied_registers(registers: &Registers) -> [(Word, bool); 32]
    ensures { result ≡ registers.now }
{
    registers.invariant();
    let mut copy = [(Word::NULL, false); 32];
    for r in 0..REGISTERS {
        copy[usize::from(r)] = registers.get(r);
    }
    copy
}

fn copied_tags(alloc: Global, memory: &Memory) -> Result<Vec<u64, Global>, AllocError>
    ensures count { IfOk result (λ tags. 64 * length tags.items ≡ length memory.now.granules) }
    ensures bits { IfOk result (λ tags. (k : ℕ) → k < length memory.now.granules → is_set_for tags.items k ≡ is_tagged memory.now.granules k) }
{
    memory.invariant();
    let words = memory.granules() / WORD_GRANULES;
    let mut tags = vec![in alloc; 0; words]?;
    for w in 0..words {
        tags[w] = memory.tag_word(w);
    }
    Ok(tags)
}

impl Snapshot {
    // The block from `start` on waits.
    fn add_waiting(&mut self, start: u64, length: u64) -> Result<(), AllocError>
        ensures waiting { OnOk result (spans_of self.new.waiting.items ≡ spans_of self.old.waiting.items ++ (start, length) ∷ []) }
        ensures painted { self.new.painted ≡ self.old.painted }
        ensures is_open { self.new.is_open ≡ self.old.is_open }
        ensures registers { self.new.registers ≡ self.old.registers }
        ensures tags { self.new.tags ≡ self.old.tags }
    {
        let block = HeldBlock {
            base: start,
            length,
        };
        let Ok(()) = self.waiting.push(block) else {
            return Err(AllocError);
        };
        Ok(())
    }

    // The blocks that were due are free, and no epoch is open.
    fn end_due(&mut self)
        ensures waiting { spans_of self.new.waiting.items ≡ (if self.old.is_open then spans_of self.old.waiting.items else []) }
        ensures painted { spans_of self.new.painted.items ≡ [] }
        ensures is_open { self.new.is_open ≡ false }
        ensures registers { self.new.registers ≡ self.old.registers }
        ensures tags { self.new.tags ≡ self.old.tags }
    {
        self.painted.clear();
        if self.is_open {
            self.is_open = false;
            return;
        }
        self.waiting.clear();
    }

    // The blocks that waited are painted, and an epoch is open.
    fn begin(&mut self)
        ensures waiting { spans_of self.new.waiting.items ≡ [] }
        ensures painted { spans_of self.new.painted.items ≡ spans_of self.old.waiting.items }
        ensures is_open { self.new.is_open ≡ true }
        ensures registers { self.new.registers ≡ self.old.registers }
        ensures tags { self.new.tags ≡ self.old.tags }
    {
        mem::swap(&mut self.waiting, &mut self.painted);
        self.waiting.clear();
        self.is_open = true;
    }

    // The blocks after a command that was answered so, and may have given up a block that starts there.
    fn follow_blocks(&mut self, reply: Reply, start: u64) -> Result<(), AllocError>
        ensures waiting { OnOk result (spans_of self.new.waiting.items ≡ waiting_after reply self.old.is_open (spans_of self.old.waiting.items) start) }
        ensures painted { OnOk result (spans_of self.new.painted.items ≡ painted_after reply (spans_of self.old.waiting.items) (spans_of self.old.painted.items)) }
        ensures is_open { OnOk result (self.new.is_open ≡ open_after reply self.old.is_open) }
        ensures tags { OnOk result (self.new.tags ≡ self.old.tags) }
        ensures registers { OnOk result (self.new.registers ≡ self.old.registers) }
    {
        match reply {
            Reply::Held(length) => self.add_waiting(start, length),
            Reply::BlockAfter { .. } | Reply::NoSpaceAfter { .. } | Reply::Swept { .. } => {
                self.end_due();
                Ok(())
            }
            Reply::Begun { .. } => {
                self.begin();
                Ok(())
            }
            Reply::Block { .. }
            | Reply::NoSpace
            | Reply::Done
            | Reply::Cleared
            | Reply::Shown(_)
            | Reply::Trap(_) => Ok(()),
        }
    }
}

impl Snapshot {
    // The registers as they are now.
    fn follow_registers(&mut self, registers: &Registers)
        ensures registers { self.new.registers ≡ registers.now }
        ensures tags { self.new.tags ≡ self.old.tags }
        ensures waiting { self.new.waiting ≡ self.old.waiting }
        ensures painted { self.new.painted ≡ self.old.painted }
        ensures is_open { self.new.is_open ≡ self.old.is_open }
    {
        registers.invariant();
        for r in 0..REGISTERS {
            self.registers[usize::from(r)] = registers.get(r);
        }
    }

    // The same where all but register `r` are as they were.
    fn follow_register(&mut self, registers: &Registers, r: u8)
        requires within { r < 32 }
        requires stay { StayBut r self.old.registers registers.now }
        ensures registers { self.new.registers ≡ registers.now }
        ensures tags { self.new.tags ≡ self.old.tags }
        ensures waiting { self.new.waiting ≡ self.old.waiting }
        ensures painted { self.new.painted ≡ self.old.painted }
        ensures is_open { self.new.is_open ≡ self.old.is_open }
    {
        registers.invariant();
        self.registers[usize::from(r)] = registers.get(r);
    }

    // All registers after a pass that looked at them, and else the one that the command may have changed.
    fn follow_changed(&mut self, registers: &Registers, r: u8, reply: Reply)
        requires within { r < 32 }
        requires stay { states.tells_registers reply ≡ false → StayBut r self.old.registers registers.now }
        ensures registers { self.new.registers ≡ registers.now }
        ensures tags { self.new.tags ≡ self.old.tags }
        ensures waiting { self.new.waiting ≡ self.old.waiting }
        ensures painted { self.new.painted ≡ self.old.painted }
        ensures is_open { self.new.is_open ≡ self.old.is_open }
    {
        if tells_registers(reply) {
            self.follow_registers(registers);
            return;
        }
        self.follow_register(registers, r);
    }

    // The tags after a command that may have written this granule, and was answered so: all but those that may be stale are
    // right already.
    fn follow_tags(&mut self, memory: &Memory, granule: Option<(usize, (u128, bool))>, reply: Reply)
        requires count { 64 * length self.old.tags.items ≡ length memory.now.granules }
        requires inside { IfSome granule (λ at. at.0 < length memory.now.granules) }
        ensures count { 64 * length self.new.tags.items ≡ length memory.now.granules }
        ensures bits { ((k : ℕ) → k < length memory.now.granules → is_stale granule reply k ≡ false → is_set_for self.old.tags.items k ≡ is_tagged memory.now.granules k)
            → (k : ℕ) → k < length memory.now.granules → is_set_for self.new.tags.items k ≡ is_tagged memory.now.granules k }
        ensures registers { self.new.registers ≡ self.old.registers }
        ensures waiting { self.new.waiting ≡ self.old.waiting }
        ensures painted { self.new.painted ≡ self.old.painted }
        ensures is_open { self.new.is_open ≡ self.old.is_open }
    {
        match granule {
            Some((i, _)) => self.follow_word(memory, i / WORD_GRANULES),
            None => self.follow_pass(memory, reply),
        }
    }

    // One word of the tags.
    fn follow_word(&mut self, memory: &Memory, w: usize)
        requires count { 64 * length self.old.tags.items ≡ length memory.now.granules }
        requires inside { w < length self.old.tags.items }
        ensures count { 64 * length self.new.tags.items ≡ length memory.now.granules }
        ensures here { (k : ℕ) → k / 64 ≡ w → is_set_for self.new.tags.items k ≡ is_tagged memory.now.granules k }
        ensures rest { (k : ℕ) → k / 64 ≢ w → is_set_for self.new.tags.items k ≡ is_set_for self.old.tags.items k }
        ensures registers { self.new.registers ≡ self.old.registers }
        ensures waiting { self.new.waiting ≡ self.old.waiting }
        ensures painted { self.new.painted ≡ self.old.painted }
        ensures is_open { self.new.is_open ≡ self.old.is_open }
    {
        self.tags[w] = memory.tag_word(w);
    }

    // All of them after a pass that took some.
    fn follow_pass(&mut self, memory: &Memory, reply: Reply)
        requires count { 64 * length self.old.tags.items ≡ length memory.now.granules }
        ensures count { 64 * length self.new.tags.items ≡ length memory.now.granules }
        ensures bits { told.takes_tags reply ≡ true → (k : ℕ) → k < length memory.now.granules → is_set_for self.new.tags.items k ≡ is_tagged memory.now.granules k }
        ensures none { told.takes_tags reply ≡ false → self.new.tags ≡ self.old.tags }
        ensures registers { self.new.registers ≡ self.old.registers }
        ensures waiting { self.new.waiting ≡ self.old.waiting }
        ensures painted { self.new.painted ≡ self.old.painted }
        ensures is_open { self.new.is_open ≡ self.old.is_open }
    {
        if !takes_tags(reply) {
            return;
        }
        for w in 0..self.tags.len() {
            self.follow_word(memory, w);
        }
    }
}

impl Snapshot {
    /// What is seen of a machine that has not done anything yet.
    pub fn first(alloc: Global, machine: &Machine) -> Result<Snapshot, AllocError>
        requires waiting { machine.now.state.heap.waiting ≡ [] }
        requires painted { machine.now.state.heap.painted ≡ [] }
        requires is_open { machine.now.state.heap.is_open ≡ false }
        ensures { IfOk result (λ snapshot. IsSnapshot snapshot machine.now.state) }
    {
        let registers = copied_registers(machine.registers());
        let tags = copied_tags(alloc, machine.memory())?;
        let waiting = Vec::new(alloc);
        let painted = Vec::new(alloc);
        Ok(Snapshot {
            registers,
            tags,
            waiting,
            painted,
            is_open: false,
        })
    }

    /// What is seen after a command, by what was read before it and by its reply.
    pub fn follow(
        &mut self,
        machine: &Machine,
        before: Before,
        reply: Reply,
    ) -> Result<(), AllocError>
        requires count { 64 * length self.old.tags.items ≡ length machine.now.state.granules }
        requires inside { IfSome before.granule (λ at. at.0 < length machine.now.state.granules) }
        requires within { before.register < 32 }
        requires stay { states.tells_registers reply ≡ false → StayBut before.register self.old.registers machine.now.state.registers }
        ensures { OnOk result (IsNextSnapshot self.old self.new before reply machine.now.state) }
    {
        self.follow_changed(machine.registers(), before.register, reply);
        self.follow_blocks(reply, before.base)?;
        self.follow_tags(machine.memory(), before.granule, reply);
        Ok(())
    }
}
