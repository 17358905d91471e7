//! A sweep of a whole memory, by several threads.

ghost use Rattle.heap_model.specs.Heap.{HeapState, due};
ghost use Rattle.mark_board.specs.Board.{IsOf, IsSeat, first_seat};
ghost use Rattle.std.specs.Prelude.{◌≡◌, ◌<◌, ◌≤◌, IfErr, IfOk};
ghost use Rattle.sweep_masks.specs.Claims.{HasTasks, IsDone};
ghost use Rattle.sweep_masks.specs.Masks.{AreMasks, IsShadowOf, TakeTags};
ghost use Rattle.sweep_masks.specs.Tasks.{IsTaskCount, page_count};

use crate::alone::sweep_pages;
use crate::cutting::Cutting;
use crate::gate::Gate;
use crate::gathering::{GatherFault, gather};
use crate::sweep::SweepFault;
use crate::workers::{Done, Shared, collect, deal, work_by_threads};
use heap_model::Shadow;
use host_memory::Global;
use mark_board::{Board, BoardFault, MarkSeat};
use std::thread::Threads;
use tag_memory::Memory;

/// The masks of a whole memory, four words a page: a bit is 1 exactly where its granule is tagged and
/// the base of its word lies in a painted granule, which for a heap's shadow is in a block that is due. The
/// tasks are claimed by as many workers as the cutting has, but no more than there are tasks, each on a
/// thread of its own where one can be started; the first worker to claim a task sweeps it. A single
/// worker is the calling thread, which sweeps task after task. `gate` is told of each task once, by the
/// worker that swept it, before it takes another (Filardo et al. 2020, Cornucopia: the parallel sweep).
pub fn sweep_masks<R: Threads + Sync, G: Gate + Sync>(
    rt: &R,
    alloc: Global,
    memory: &Memory,
    shadow: &Shadow,
    cutting: &Cutting,
    gate: &G,
) -> Result<Vec<u64, Global>, SweepFault>
    ensures ok { IfOk result (λ masks. AreMasks memory.now shadow.now masks.items) }
    ensures due { (heap : HeapState) → IsShadowOf heap memory.now.base shadow.now
        → IfOk result (λ masks. TakeTags memory.now (due heap) masks.items) }
    ensures err { IfErr result (λ fault. fault ≡ SweepFault.Memory) }
{
    if workers_for(memory, cutting) == 1 {
        return sweep_masks_alone(alloc, memory, shadow, cutting, gate);
    }
    sweep_shared(rt, alloc, memory, shadow, cutting, gate)
}

/// The masks of `sweep_masks`, made by the calling thread alone, task after task, so without a runtime. `gate` is told of
/// each task once, by rising number.
///
/// ```rust
/// use cap_codec::block_capability;
/// use heap_core::Heap;
/// use sweep_pool::{Cutting, Open, sweep_masks_alone};
/// use tag_memory::Memory;
///
/// let mut heap = Heap::new(alloc, 0x4000_0000, 1)?;
/// let mut memory = Memory::new(alloc, 0x4000_0000, 1)?;
/// heap.reserve(32)?;
/// memory.put(5, block_capability(0x4000_0000, 0x4000_0020).bits, true);
/// heap.release(0x4000_0000, 0x4000_0020)?;
/// let shadow = heap.shadow(alloc)?;
/// let cutting = Cutting::new(1, 16)?;
/// let masks = sweep_masks_alone(alloc, &memory, &shadow, &cutting, &Open)?;
/// // The word in granule 5 points into a block that waits.
/// assert_eq!(rt; masks[0], 1 << 5);
/// ```
pub fn sweep_masks_alone<G: Gate>(
    alloc: Global,
    memory: &Memory,
    shadow: &Shadow,
    cutting: &Cutting,
    gate: &G,
) -> Result<Vec<u64, Global>, SweepFault>
    ensures ok { IfOk result (λ masks. AreMasks memory.now shadow.now masks.items) }
    ensures due { (heap : HeapState) → IsShadowOf heap memory.now.base shadow.now
        → IfOk result (λ masks. TakeTags memory.now (due heap) masks.items) }
    ensures err { IfErr result (λ fault. fault ≡ SweepFault.Memory) }
{
    sweep_pages(alloc, memory, shadow, cutting, gate, false)
}

// The same, by workers that claim tasks on a board.
fn sweep_shared<R: Threads + Sync, G: Gate + Sync>(
    rt: &R,
    alloc: Global,
    memory: &Memory,
    shadow: &Shadow,
    cutting: &Cutting,
    gate: &G,
) -> Result<Vec<u64, Global>, SweepFault>
    ensures ok { IfOk result (λ masks. AreMasks memory.now shadow.now masks.items) }
    ensures err { IfErr result (λ fault. fault ≡ SweepFault.Memory) }
{
    let workers = workers_for(memory, cutting);
    let (board, seat) = board_for(alloc, memory, cutting, workers)?;
    let jobs = deal(alloc, &board, seat, workers)?;
    let shared = Shared {
        memory,
        shadow,
        cutting,
        board: &board,
        gate,
    };
    let mut works = work_by_threads(rt, alloc, &shared, jobs)?;
    let Some(first) = works.pop() else {
        unreachable!()
    };
    let done = collect(&shared, first, works)?;
    finish(alloc, memory, shadow, cutting, board, done)
}

// How many tasks the memory has.
fn tasks_of(memory: &Memory, cutting: &Cutting) -> u32
    ensures count { IsTaskCount cutting.now (page_count memory.now) result }
    ensures some { 0 < result }
    ensures most { result ≤ 1024 }
{
    memory.invariant();
    cutting.tasks(memory.pages())
}

// How many workers sweep: no more than there are tasks.
fn workers_for(memory: &Memory, cutting: &Cutting) -> u32
    ensures some { 0 < result }
    ensures few { result ≤ cutting.now.workers }
    ensures most { result ≤ 64 }
{
    let tasks = tasks_of(memory, cutting);
    cutting.invariant();
    cutting.workers().min(tasks)
}

// A board with a bit for each task, and the seat that has a part for each worker.
fn board_for(
    alloc: Global,
    memory: &Memory,
    cutting: &Cutting,
    workers: u32,
) -> Result<(Board, MarkSeat), SweepFault>
    requires some { 0 < workers }
    requires most { workers ≤ 64 }
    ensures board { IfOk result (λ made. HasTasks cutting.now memory.now made.0 × (made.0.parts ≡ workers)) }
    ensures seat { IfOk result (λ made. made.1 ≡ first_seat made.0) }
    ensures sound { IfOk result (λ made. IsSeat made.1) }
    ensures err { IfErr result (λ fault. fault ≡ SweepFault.Memory) }
{
    match Board::new(alloc, tasks_of(memory, cutting), workers) {
        Ok(made) => Ok(made),
        Err(fault) => match fault {
            BoardFault::Memory => Err(SweepFault::Memory),
            _ => unreachable!(),
        },
    }
}

// The masks of the whole memory, once every task was tried and all seats are joined.
fn finish(
    alloc: Global,
    memory: &Memory,
    shadow: &Shadow,
    cutting: &Cutting,
    board: Board,
    done: Done,
) -> Result<Vec<u64, Global>, SweepFault>
    requires seat { IsOf board done.seat }
    requires parts { done.seat.parts ≡ board.parts }
    requires tasks { HasTasks cutting.now memory.now board }
    requires done { IsDone memory.now shadow.now cutting.now board.bits done.seat done.list.items }
    ensures ok { IfOk result (λ masks. AreMasks memory.now shadow.now masks.items) }
    ensures err { IfErr result (λ fault. fault ≡ SweepFault.Memory) }
{
    let tasks = board.bits();
    let Done { seat, list } = done;
    // Called for what it ensures alone: the tasks that were claimed are all tasks.
    let Ok(_claimed) = board.finish(alloc, seat) else {
        return Err(SweepFault::Memory);
    };
    match gather(alloc, tasks, cutting, memory.pages(), list) {
        Ok(masks) => Ok(masks),
        Err(fault) => match fault {
            GatherFault::Memory => Err(SweepFault::Memory),
            _ => unreachable!(),
        },
    }
}
