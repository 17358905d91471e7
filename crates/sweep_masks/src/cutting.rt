//! How pages are cut into tasks.

ghost use Rattle.std.specs.Prelude.{◌≡◌, ◌≢◌, ◌↔◌, ◌≤◌, ◌<◌, ◌⊎◌, IfOk};
ghost use Rattle.sweep_masks.specs.Tasks.{IsCut, IsTaskCount};

use std::marker::Model;
use thiserror::Error;

/// Why there is no such cutting.
#[derive(Debug, PartialEq, Drop, Error)]
pub enum CutFault {
    /// There are no workers, or more than 64.
    #[error("BadWorkers")]
    BadWorkers,
    /// A task has no pages, or more than 256.
    #[error("BadTask")]
    BadTask,
}

/// How many workers sweep, and how many pages each task has.
#[derive(Debug, Clone, Copy, PartialEq, Eq)]
pub struct Cutting {
    workers: u32,
    pages_per_task: u32,
}

impl Model for Cutting {
    ghost use Rattle.sweep_masks.specs.Tasks.{Cut, IsCut};

    ghost Value = { Cut };

    ghost view = { λ c. record { workers = c.workers; pages_per_task = c.pages_per_task } };

    ghost invariant = { λ c. IsCut (record { workers = c.workers; pages_per_task = c.pages_per_task }) };

    ghost inverse = { λ c. record { workers = c.workers; pages_per_task = c.pages_per_task } };
}

impl Cutting {
    /// A cutting for 1 to 64 workers, with 1 to 256 pages a task. The workers are judged first.
    pub fn new(workers: u32, pages_per_task: u32) -> Result<Cutting, CutFault>
        ensures bad_workers { (result ≡ Err CutFault.BadWorkers) ↔ ((workers ≡ 0) ⊎ (64 < workers)) }
        ensures bad_task { (result ≡ Err CutFault.BadTask)
            ↔ ((1 ≤ workers) × (workers ≤ 64) × ((pages_per_task ≡ 0) ⊎ (256 < pages_per_task))) }
        ensures made { IfOk result (λ cutting.
            cutting ≡ record { workers = workers; pages_per_task = pages_per_task }) }
    {
        if !(1..=64).contains(&workers) {
            return Err(CutFault::BadWorkers);
        }
        if !(1..=256).contains(&pages_per_task) {
            return Err(CutFault::BadTask);
        }
        Ok(Cutting {
            workers,
            pages_per_task,
        })
    }

    /// One worker, whose tasks have 256 pages, the most: for passes that the calling thread makes.
    pub fn alone() -> Cutting
        ensures { result ≡ record { workers = 1; pages_per_task = 256 } }
    {
        Cutting {
            workers: 1,
            pages_per_task: 256,
        }
    }

    /// Tells what holds of every cutting. Nothing is done.
    pub fn invariant(&self)
        ensures { IsCut self.now }
    {
        let _ = &self.workers;
    }

    /// How many workers sweep.
    pub fn workers(&self) -> u32
        ensures { result ≡ self.now.workers }
    {
        self.workers
    }

    /// How many pages each task has, but the last, which may have fewer.
    pub fn pages_per_task(&self) -> u32
        ensures { result ≡ self.now.pages_per_task }
    {
        self.pages_per_task
    }

    /// How many tasks so many pages make.
    pub fn tasks(&self, pages: u32) -> u32
        ensures { IsTaskCount self.now pages result }
    {
        pages.div_ceil(self.pages_per_task)
    }
}
