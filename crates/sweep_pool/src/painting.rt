//! A shadow that several workers paint.

ghost use Rattle.heap_model.specs.Heap.{due};
ghost use Rattle.heap_core.specs.Painting.{is_in_due};
ghost use Rattle.heap_model.specs.Quarantine.{IsShadow};
ghost use Rattle.mark_board.specs.Board.{IsOf, IsSeat, first_seat, no_bits};
ghost use Rattle.std.specs.Prelude.{◌≡◌, ◌<◌, ◌≤◌, ◌+◌, ◌*◌, ◌/◌, IfErr, IfOk, length, vec_len};
ghost use Rattle.sweep_pool.specs.Painting.{EachAt, HasGranules, HasPainted, IsUnpainted, IsPaintedShare, share_start};

use heap_core::{Heap, Shadow};
use host_memory::Global;
use mark_board::{Board, BoardFault, MarkSeat};
use std::alloc::AllocError;
use std::ops::Range;
use std::thread;
use std::thread::Threads;
use sweep_masks::{Cutting, Gate, SweepFault};

/// What the workers that paint a shadow share.
#[derive(Drop)]
struct Painting<'a, G> {
    heap: &'a Heap,
    board: &'a Board,
    gate: &'a G,
    workers: u32,
}

/// A share of the blocks that are due, by its number, and the seat through which it is painted.
#[derive(Drop)]
pub(crate) struct Share {
    pub(crate) seat: MarkSeat,
    pub(crate) number: u32,
}

/// The shadow of a heap, painted by the workers of the cutting: a granule is painted exactly where it lies in a
/// block that is due. With `h` such blocks and `w` workers, share `i` is those from number `i * h / w` up to, not
/// including, `(i + 1) * h / w` (`share_of`), by rising start, and `gate` is told of it once, by the worker that painted
/// it. A single worker is the calling thread, which copies the row of the granules that are due (Filardo et al. 2020,
/// Cornucopia: the shadow bitmap).
///
/// ```rust
/// use heap_core::Heap;
/// use sweep_pool::{Cutting, Open, paint_shadow};
///
/// let mut heap = Heap::new(alloc, 0x4000_0000, 1)?;
/// heap.reserve(32)?;
/// heap.release(0x4000_0000, 0x4000_0020)?;
/// let cutting = Cutting::new(4, 16)?;
/// let shadow = paint_shadow(&rt, alloc, &heap, &cutting, &Open)?;
/// assert!(rt; shadow.painted(1));
/// assert!(rt; !shadow.painted(2));
/// ```
pub fn paint_shadow<R: Threads + Sync, G: Gate + Sync>(
    rt: &R,
    alloc: Global,
    heap: &Heap,
    cutting: &Cutting,
    gate: &G,
) -> Result<Shadow, SweepFault>
    ensures shadow { IfOk result (IsShadow heap.now) }
    ensures err { IfErr result (λ fault. fault ≡ SweepFault.Memory) }
{
    cutting.invariant();
    let workers = cutting.workers();
    if workers == 1 {
        let shadow = copy_due(alloc, heap)?;
        gate.pass(0);
        return Ok(shadow);
    }
    paint_shared(rt, alloc, heap, workers, gate)
}

// The shadow that the heap itself gives.
fn copy_due(alloc: Global, heap: &Heap) -> Result<Shadow, SweepFault>
    ensures shadow { IfOk result (IsShadow heap.now) }
    ensures err { IfErr result (λ fault. fault ≡ SweepFault.Memory) }
{
    let Ok(shadow) = heap.shadow(alloc) else {
        return Err(SweepFault::Memory);
    };
    Ok(shadow)
}

// The shadow that workers paint on a board. Where a seat is lost it is the one that the heap gives.
fn paint_shared<R: Threads + Sync, G: Gate + Sync>(
    rt: &R,
    alloc: Global,
    heap: &Heap,
    workers: u32,
    gate: &G,
) -> Result<Shadow, SweepFault>
    requires some { 0 < workers }
    requires most { workers ≤ 64 }
    ensures shadow { IfOk result (IsShadow heap.now) }
    ensures err { IfErr result (λ fault. fault ≡ SweepFault.Memory) }
{
    let (board, seat) = board_for(alloc, heap, workers)?;
    let shares = deal(alloc, &board, seat, workers)?;
    let painting = Painting {
        heap,
        board: &board,
        gate,
        workers,
    };
    let Ok(seats) = paint_by_threads(rt, &painting, shares) else {
        return copy_due(alloc, heap);
    };
    let seat = join_seats(&painting, seats);
    finish(alloc, heap, board, seat)
}

// A board with a bit for each granule, and the seat that has a part for each worker.
fn board_for(alloc: Global, heap: &Heap, workers: u32) -> Result<(Board, MarkSeat), SweepFault>
    requires some { 0 < workers }
    requires most { workers ≤ 64 }
    ensures board { IfOk result (λ made. HasGranules heap.now made.0 × (made.0.parts ≡ workers)) }
    ensures seat { IfOk result (λ made. made.1 ≡ first_seat made.0) }
    ensures sound { IfOk result (λ made. IsSeat made.1) }
    ensures err { IfErr result (λ fault. fault ≡ SweepFault.Memory) }
{
    heap.invariant();
    match Board::new(alloc, heap.granules() as u32, workers) {
        Ok(made) => Ok(made),
        Err(fault) => match fault {
            BoardFault::Memory => Err(SweepFault::Memory),
            _ => unreachable!(),
        },
    }
}

// A seat for each share, in their order.
fn deal(
    alloc: Global,
    board: &Board,
    seat: MarkSeat,
    workers: u32,
) -> Result<Vec<Share, Global>, SweepFault>
    requires board { IsOf board.now seat }
    requires parts { seat.parts ≡ workers }
    requires some { 0 < workers }
    requires none { seat.mine ≡ no_bits board.now }
    requires sound { IsSeat seat }
    ensures count { IfOk result (λ shares. vec_len shares ≡ workers) }
    ensures blank { IfOk result (λ shares. EachAt (IsUnpainted board.now workers) shares.items) }
    ensures err { IfErr result (λ fault. fault ≡ SweepFault.Memory) }
{
    let mut shares = Vec::with_capacity(alloc, workers as usize)?;
    let mut rest = seat;
    for number in 0..workers - 1 {
        let (kept, seat) = board.split(rest);
        rest = kept;
        if shares.push(Share { seat, number }).is_err() {
            return Err(SweepFault::Memory);
        }
    }
    let last = Share {
        seat: rest,
        number: workers - 1,
    };
    if shares.push(last).is_err() {
        return Err(SweepFault::Memory);
    }
    Ok(shares)
}

/// The numbers of the blocks that a share has, where so many are due and each worker has a share.
pub fn share_of(number: u32, workers: u32, blocks: usize) -> Range<usize>
    requires number { number < workers }
    requires workers { workers ≤ 64 }
    requires blocks { blocks ≤ 262144 }
    ensures start { result.start ≡ share_start blocks workers number }
    ensures end { result.end ≡ share_start blocks workers (number + 1) }
    ensures order { result.start ≤ result.end }
    ensures within { result.end ≤ blocks }
{
    let first = number as usize * blocks / workers as usize;
    let last = (number as usize + 1) * blocks / workers as usize;
    first..last
}

// What one worker does.
fn paint_share<G: Gate>(painting: &Painting<'_, G>, share: Share) -> MarkSeat
    requires blank { IsUnpainted painting.now.board.now painting.now.workers share.number share }
    requires granules { HasGranules painting.now.heap.now painting.now.board.now }
    requires most { painting.now.workers ≤ 64 }
    ensures { IsPaintedShare painting.now.heap.now painting.now.board.now painting.now.workers share.number result }
{
    let Share { mut seat, number } = share;
    let blocks = share_of(number, painting.workers, painting.heap.held_blocks());
    painting
        .heap
        .paint(painting.board, &mut seat, blocks.start, blocks.end);
    painting.gate.pass(number);
    seat
}

// All shares painted, each in a thread of its own where one can be started.
fn paint_by_threads<R: Threads + Sync, G: Gate + Sync>(
    rt: &R,
    painting: &Painting<'_, G>,
    shares: Vec<Share, Global>,
) -> Result<Vec<MarkSeat, Global>, AllocError>
    requires blank { EachAt (IsUnpainted painting.now.board.now painting.now.workers) shares.items }
    requires granules { HasGranules painting.now.heap.now painting.now.board.now }
    requires most { painting.now.workers ≤ 64 }
    ensures count { IfOk result (λ seats. vec_len seats ≡ vec_len shares) }
    ensures painted { IfOk result (λ seats.
        EachAt (IsPaintedShare painting.now.heap.now painting.now.board.now painting.now.workers) seats.items) }
{
    thread::map_vec(rt, shares, &|share| { paint_share(painting, share) })
}

// The seats of all shares, joined.
fn join_seats<G>(painting: &Painting<'_, G>, seats: Vec<MarkSeat, Global>) -> MarkSeat
    requires count { vec_len seats ≡ painting.now.workers }
    requires some { 0 < painting.now.workers }
    requires painted { EachAt (IsPaintedShare painting.now.heap.now painting.now.board.now painting.now.workers) seats.items }
    ensures painted { HasPainted painting.now.heap.now painting.now.board.now 0 (length (due painting.now.heap.now)) result }
    ensures parts { result.parts ≡ painting.now.workers }
{
    let mut seats = seats;
    let Some(mut whole) = seats.pop() else {
        unreachable!()
    };
    while let Some(seat) = seats.pop() {
        whole = painting.board.join(whole, seat);
    }
    whole
}

// The shadow, once all blocks that are due are painted.
fn finish(alloc: Global, heap: &Heap, board: Board, seat: MarkSeat) -> Result<Shadow, SweepFault>
    requires painted { HasPainted heap.now board 0 (length (due heap.now)) seat }
    requires parts { seat.parts ≡ board.parts }
    requires granules { HasGranules heap.now board }
    ensures shadow { IfOk result (IsShadow heap.now) }
    ensures err { IfErr result (λ fault. fault ≡ SweepFault.Memory) }
{
    let Ok(words) = board.finish(alloc, seat) else {
        return Err(SweepFault::Memory);
    };
    heap.invariant();
    Ok(Shadow::from_words(words, heap.granules()))
}
