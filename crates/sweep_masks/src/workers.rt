//! The workers of a sweep: what each does, and what they come to together.

ghost use Rattle.mark_board.specs.Board.{IsOf, IsSeat, no_bits};
ghost use Rattle.std.specs.Prelude.{◌≡◌, ◌<◌, ◌≤◌, ◌+◌, All, IfErr, IfOk, OnOk, vec_len};
ghost use Rattle.sweep_masks.specs.Claims.{Accounts, HasAll};
ghost use Rattle.sweep_masks.specs.Work.{HasAllTasks, IsDoneBy, IsJob, IsSweptBy, IsWorkOf};

use crate::claims::sweep_next;
use crate::cutting::Cutting;
use crate::gate::Gate;
use crate::sweep::SweepFault;
use crate::task::Swept;
use heap_model::Shadow;
use host_memory::Global;
use mark_board::{Board, MarkSeat};
use std::thread;
use std::thread::Threads;
use tag_memory::Memory;

/// What the workers of a sweep share.
#[derive(Drop)]
pub(crate) struct Shared<'a, G> {
    pub(crate) memory: &'a Memory,
    pub(crate) shadow: &'a Shadow,
    pub(crate) cutting: &'a Cutting,
    pub(crate) board: &'a Board,
    pub(crate) gate: &'a G,
}

/// What a worker is given: its seat, and the task that it begins with.
#[derive(Drop)]
pub(crate) struct Job {
    pub(crate) seat: MarkSeat,
    pub(crate) start: u32,
}

/// What it gives back: its seat, and the tasks that it swept.
#[derive(Drop)]
pub(crate) struct Work {
    pub(crate) seat: MarkSeat,
    pub(crate) found: Result<Vec<Swept, Global>, SweepFault>,
}

/// What all workers come to: their seats joined, and the tasks that they swept.
#[derive(Drop)]
pub(crate) struct Done {
    pub(crate) seat: MarkSeat,
    pub(crate) list: Vec<Swept, Global>,
}

// Sweeps the tasks from `from` on that this seat is the first to claim.
fn sweep_from<G: Gate>(
    alloc: Global,
    shared: &Shared<'_, G>,
    seat: &mut MarkSeat,
    from: u32,
    found: &mut Vec<Swept, Global>,
) -> Result<(), SweepFault>
    requires board { IsOf shared.now.board.now seat.old }
    requires tasks { HasAllTasks shared.now }
    requires from { from ≤ shared.now.board.now.bits }
    requires swept { All (IsSweptBy shared.now) found.old.items }
    requires accounts { Accounts seat.old.mine found.old.items }
    requires sound { IsSeat seat.old }
    ensures board { IsOf shared.now.board.now seat.new }
    ensures parts { seat.new.parts ≡ seat.old.parts }
    ensures swept { OnOk result (All (IsSweptBy shared.now) found.new.items) }
    ensures accounts { OnOk result (Accounts seat.new.mine found.new.items) }
    ensures tried { OnOk result (HasAll seat.new.seen from shared.now.board.now.bits) }
    ensures sound { IsSeat seat.new }
    ensures err { IfErr result (λ fault. fault ≡ SweepFault.Memory) }
{
    let tasks = shared.board.bits();
    let mut next = from;
    while next < tasks {
        let next_swept = sweep_next(
            alloc,
            shared.board,
            seat,
            shared.memory,
            shared.shadow,
            shared.cutting,
            next,
        )?;
        let Some(swept) = next_swept else {
            return Ok(());
        };
        shared.gate.pass(swept.task);
        next = swept.task + 1;
        if found.push(swept).is_err() {
            return Err(SweepFault::Memory);
        }
    }
    Ok(())
}

// Tries every task, from `start` on and then from the first.
fn sweep_both<G: Gate>(
    alloc: Global,
    shared: &Shared<'_, G>,
    seat: &mut MarkSeat,
    start: u32,
) -> Result<Vec<Swept, Global>, SweepFault>
    requires board { IsOf shared.now.board.now seat.old }
    requires tasks { HasAllTasks shared.now }
    requires start { start ≤ shared.now.board.now.bits }
    requires none { seat.old.mine ≡ no_bits shared.now.board.now }
    requires sound { IsSeat seat.old }
    ensures board { IsOf shared.now.board.now seat.new }
    ensures parts { seat.new.parts ≡ seat.old.parts }
    ensures found { IfOk result (λ found. IsDoneBy shared.now seat.new found.items) }
    ensures err { IfErr result (λ fault. fault ≡ SweepFault.Memory) }
{
    let mut found = Vec::new(alloc);
    if start != 0 {
        sweep_from(alloc, shared, seat, start, &mut found)?;
    }
    sweep_from(alloc, shared, seat, 0, &mut found)?;
    Ok(found)
}

// What one worker does.
fn done_by<G: Gate>(alloc: Global, shared: &Shared<'_, G>, job: Job) -> Work
    requires job { IsJob shared.now.board.now job }
    requires tasks { HasAllTasks shared.now }
    ensures { IsWorkOf shared.now result }
{
    let Job { mut seat, start } = job;
    let found = sweep_both(alloc, shared, &mut seat, start);
    Work { seat, found }
}

// The task that a worker begins with.
fn start_of(worker: u32, workers: u32, tasks: u32) -> u32
    requires worker { worker < workers }
    requires workers { workers ≤ 64 }
    requires tasks { tasks ≤ 262144 }
    ensures { result ≤ tasks }
{
    (worker * tasks / workers).min(tasks)
}

/// A job for each worker.
pub(crate) fn deal(
    alloc: Global,
    board: &Board,
    seat: MarkSeat,
    workers: u32,
) -> Result<Vec<Job, Global>, SweepFault>
    requires board { IsOf board.now seat }
    requires parts { seat.parts ≡ workers }
    requires some { 0 < workers }
    requires most { workers ≤ 64 }
    requires none { seat.mine ≡ no_bits board.now }
    requires sound { IsSeat seat }
    ensures count { IfOk result (λ jobs. vec_len jobs ≡ workers) }
    ensures jobs { IfOk result (λ jobs. All (IsJob board.now) jobs.items) }
    ensures err { IfErr result (λ fault. fault ≡ SweepFault.Memory) }
{
    board.invariant();
    let tasks = board.bits();
    let mut jobs = Vec::with_capacity(alloc, workers as usize)?;
    let mut rest = seat;
    for worker in 1..workers {
        let (kept, cut) = board.split(rest);
        rest = kept;
        let start = start_of(worker, workers, tasks);
        if jobs.push(Job { seat: cut, start }).is_err() {
            return Err(SweepFault::Memory);
        }
    }
    let first = Job {
        seat: rest,
        start: 0,
    };
    if jobs.push(first).is_err() {
        return Err(SweepFault::Memory);
    }
    Ok(jobs)
}

/// What each worker gives back, each in a thread of its own where one can be started.
pub(crate) fn work_by_threads<R: Threads + Sync, G: Gate + Sync>(
    rt: &R,
    alloc: Global,
    shared: &Shared<'_, G>,
    jobs: Vec<Job, Global>,
) -> Result<Vec<Work, Global>, SweepFault>
    requires jobs { All (IsJob shared.now.board.now) jobs.items }
    requires tasks { HasAllTasks shared.now }
    ensures count { IfOk result (λ works. vec_len works ≡ vec_len jobs) }
    ensures works { IfOk result (λ works. All (IsWorkOf shared.now) works.items) }
    ensures err { IfErr result (λ fault. fault ≡ SweepFault.Memory) }
{
    let works = thread::map_vec(rt, jobs, &|job| { done_by(alloc, shared, job) })?;
    Ok(works)
}

// One more worker's seat and tasks.
fn join_one<G>(shared: &Shared<'_, G>, done: Done, one: Work) -> Result<Done, SweepFault>
    requires seat { IsOf shared.now.board.now done.seat }
    requires done { IsDoneBy shared.now done.seat done.list.items }
    requires one { IsWorkOf shared.now one }
    ensures seat { IfOk result (λ all. IsOf shared.now.board.now all.seat) }
    ensures parts { IfOk result (λ all. all.seat.parts ≡ done.seat.parts + 1) }
    ensures done { IfOk result (λ all. IsDoneBy shared.now all.seat all.list.items) }
    ensures err { IfErr result (λ fault. fault ≡ SweepFault.Memory) }
{
    let Done {
        seat: whole,
        mut list,
    } = done;
    let Work { seat, found } = one;
    let mut found = found?;
    list.append(&mut found)?;
    Ok(Done {
        seat: shared.board.join(whole, seat),
        list,
    })
}

/// What all workers come to.
pub(crate) fn collect<G>(
    shared: &Shared<'_, G>,
    first: Work,
    others: Vec<Work, Global>,
) -> Result<Done, SweepFault>
    requires first { IsWorkOf shared.now first }
    requires others { All (IsWorkOf shared.now) others.items }
    ensures seat { IfOk result (λ all. IsOf shared.now.board.now all.seat) }
    ensures parts { IfOk result (λ all. all.seat.parts ≡ vec_len others + 1) }
    ensures done { IfOk result (λ all. IsDoneBy shared.now all.seat all.list.items) }
    ensures err { IfErr result (λ fault. fault ≡ SweepFault.Memory) }
{
    let Work { seat, found } = first;
    let list = found?;
    let mut done = Done { seat, list };
    for one in others {
        done = join_one(shared, done, one)?;
    }
    Ok(done)
}
