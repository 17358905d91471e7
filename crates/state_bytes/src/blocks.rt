//! The blocks that bytes tell of.

ghost use Rattle.std.specs.Prelude.{◌≡◌, ◌<◌, ◌≤◌, ◌+◌, ◌-◌, ◌*◌, ◌^◌, [], false, length, true};
ghost use Rattle.heap_model.specs.Blocks.{blocks_with, is_block};
ghost use Rattle.heap_model.specs.Claim.{IsClaimable};
ghost use Rattle.heap_model.specs.Found.{blocks_in};
ghost use Rattle.heap_model.specs.Place.{with_block};
ghost use Rattle.heap_model.specs.Quarantine.{with_waiting};
ghost use Rattle.heap_machine.specs.Storage.{MachineState};
ghost use Rattle.state_bytes.specs.Replay.{IsStart, heap_below};
ghost use Rattle.state_bytes.specs.State.{AreExact, IsState};
ghost use Rattle.state_bytes.specs.Text.{kind_number, length_told, starts_in, text_of};

use crate::encoding::number_of_kind;
use crate::places::{HEAD, NUMBER, ROW};
use byteorder::{ByteOrder, LittleEndian};
use heap_core::{Freed, Heap, Kind};
use tag_memory::GRANULE;

/// Makes the blocks that bytes tell of, in a heap without blocks, and answers whether they may lie there. An epoch begins
/// where one is to be open.
pub fn read_blocks(heap: &mut Heap, bytes: &[u8], is_open: bool) -> bool
    requires rows { 16 * 13 + 21 * heap.old.size ≤ 16 * length bytes.now }
    requires closed { heap.old.is_open ≡ false }
    requires exact { AreExact heap.old }
    ensures all { (m : MachineState) → IsState m → text_of m ≡ bytes.now → IsStart m.state.heap heap.old is_open
        → (result ≡ true) × (heap.new ≡ m.state.heap) }
    ensures exact { AreExact heap.new }
{
    if !read_painted(heap, bytes, is_open) {
        return false;
    }
    read_others(heap, bytes)
}

// The painted blocks: they are given up before the epoch begins.
fn read_painted(heap: &mut Heap, bytes: &[u8], is_open: bool) -> bool
    requires rows { 16 * 13 + 21 * heap.old.size ≤ 16 * length bytes.now }
    requires closed { heap.old.is_open ≡ false }
    ensures all { (m : MachineState) → IsState m → text_of m ≡ bytes.now → IsStart m.state.heap heap.old is_open
        → (result ≡ true) × (heap.new ≡ record m.state.heap { live = []; waiting = [] }) }
    ensures size { heap.new.size ≡ heap.old.size }
    ensures exact { AreExact heap.old → AreExact heap.new }
{
    if !is_open {
        return true;
    }
    if !hold_painted(heap, bytes) {
        return false;
    }
    heap.begin_epoch();
    true
}

// The blocks that an epoch is to paint: each is handed out and given up.
fn hold_painted(heap: &mut Heap, bytes: &[u8]) -> bool
    requires rows { 16 * 13 + 21 * heap.old.size ≤ 16 * length bytes.now }
    ensures all { (m : MachineState) → IsState m → text_of m ≡ bytes.now
        → heap.old ≡ record m.state.heap { live = []; waiting = []; painted = []; is_open = false }
        → (result ≡ true) × (heap.new ≡ record heap.old { waiting = m.state.heap.painted }) }
    ensures size { heap.new.size ≡ heap.old.size }
    ensures open { heap.new.is_open ≡ heap.old.is_open }
    ensures exact { AreExact heap.old → AreExact heap.new }
{
    for i in 0..heap.granules() {
        let length = length_of(number_in(bytes, i), Kind::Painted);
        if !hold_at(heap, i, length) {
            return false;
        }
    }
    true
}

// The blocks that wait and the live ones, in one pass over the rows.
fn read_others(heap: &mut Heap, bytes: &[u8]) -> bool
    requires rows { 16 * 13 + 21 * heap.old.size ≤ 16 * length bytes.now }
    ensures all { (m : MachineState) → IsState m → text_of m ≡ bytes.now → heap.old ≡ record m.state.heap { live = []; waiting = [] }
        → (result ≡ true) × (heap.new ≡ m.state.heap) }
    ensures exact { AreExact heap.old → AreExact heap.new }
{
    for i in 0..heap.granules() {
        if !read_row(heap, bytes, i) {
            return false;
        }
    }
    true
}

// The block that starts at a granule, if it waits or is live. Most rows tell of none.
#[inline(always)]
fn read_row(heap: &mut Heap, bytes: &[u8], i: usize) -> bool
    requires inside { 16 * i < heap.old.size }
    requires row { 13 + 21 * (i + 1) ≤ length bytes.now }
    ensures all { (m : MachineState) → IsState m → text_of m ≡ bytes.now → heap.old ≡ heap_below m.state.heap i
        → (result ≡ true) × (heap.new ≡ heap_below m.state.heap (i + 1)) }
    ensures size { heap.new.size ≡ heap.old.size }
    ensures exact { AreExact heap.old → AreExact heap.new }
{
    let number = number_in(bytes, i);
    if number == 0 {
        return true;
    }
    if !hold_at(heap, i, length_of(number, Kind::Waiting)) {
        return false;
    }
    claim_at(heap, i, length_of(number, Kind::Live))
}

// The number in a granule's row.
fn number_in(bytes: &[u8], i: usize) -> u32
    requires inside { 13 + 21 * (i + 1) ≤ length bytes.now }
    ensures { (m : MachineState) → IsState m → text_of m ≡ bytes.now → i < length m.state.granules
        → (kind : Kind) → length_told (kind_number kind) result ≡ starts_in (blocks_in m.state.heap kind) (m.state.heap.base + 16 * i) }
{
    LittleEndian::read_u32(&bytes[HEAD + ROW * i + NUMBER..])
}

// The length that a number tells of a block of a kind: 0 where it tells of another, or of none.
fn length_of(number: u32, kind: Kind) -> u32
    ensures { result ≡ length_told (kind_number kind) number }
{
    let kind_number = number_of_kind(kind);
    if number % GRANULE as u32 != kind_number {
        return 0;
    }
    number - kind_number
}

// Hands out a block of so many bytes at a granule, if there are any.
fn claim_at(heap: &mut Heap, i: usize, length: u32) -> bool
    requires inside { 16 * i < heap.old.size }
    ensures none { length ≡ 0 → (result ≡ true) × (heap.new ≡ heap.old) }
    ensures claimed { 0 < length → IsClaimable heap.old (heap.old.base + 16 * i) (heap.old.base + 16 * i + length)
        → (result ≡ true) × (heap.new ≡ with_block heap.old (heap.old.base + 16 * i) length) }
    ensures size { heap.new.size ≡ heap.old.size }
    ensures open { heap.new.is_open ≡ heap.old.is_open }
    ensures exact { AreExact heap.old → AreExact heap.new }
{
    if length == 0 {
        return true;
    }
    heap.invariant();
    let base = heap.base() + GRANULE * i as u64;
    claim_block(heap, base, u128::from(base) + u128::from(length))
}

// Hands out the bytes of these bounds.
fn claim_block(heap: &mut Heap, base: u64, top: u128) -> bool
    ensures claimed { IsClaimable heap.old base top → (result ≡ true) × (heap.new ≡ with_block heap.old base (top - base)) }
    ensures size { heap.new.size ≡ heap.old.size }
    ensures open { heap.new.is_open ≡ heap.old.is_open }
    ensures exact { AreExact heap.old → AreExact heap.new }
{
    match heap.claim(base, top) {
        Ok(()) => true,
        Err(_) => false,
    }
}

// Hands out a block of so many bytes at a granule and gives it up, if there are any.
fn hold_at(heap: &mut Heap, i: usize, length: u32) -> bool
    requires inside { 16 * i < heap.old.size }
    ensures none { length ≡ 0 → (result ≡ true) × (heap.new ≡ heap.old) }
    ensures held { 0 < length → IsClaimable heap.old (heap.old.base + 16 * i) (heap.old.base + 16 * i + length)
        → (result ≡ true) × (heap.new ≡ record heap.old { waiting = blocks_with (heap.old.base + 16 * i, length) heap.old.waiting }) }
    ensures size { heap.new.size ≡ heap.old.size }
    ensures open { heap.new.is_open ≡ heap.old.is_open }
    ensures exact { AreExact heap.old → AreExact heap.new }
{
    if length == 0 {
        return true;
    }
    if !claim_at(heap, i, length) {
        return false;
    }
    release_at(heap, i, length)
}

// Gives up the block of so many bytes at a granule.
fn release_at(heap: &mut Heap, i: usize, length: u32) -> bool
    requires inside { 16 * i < heap.old.size }
    ensures held { is_block heap.old.live (heap.old.base + 16 * i) (heap.old.base + 16 * i + length) ≡ true
        → (result ≡ true) × (heap.new ≡ with_waiting heap.old (heap.old.base + 16 * i) (heap.old.base + 16 * i + length)) }
    ensures size { heap.new.size ≡ heap.old.size }
    ensures open { heap.new.is_open ≡ heap.old.is_open }
    ensures exact { AreExact heap.old → AreExact heap.new }
{
    heap.invariant();
    let base = heap.base() + GRANULE * i as u64;
    let top = u128::from(base) + u128::from(length);
    matches!(heap.release(base, top), Ok(Freed::Held))
}
