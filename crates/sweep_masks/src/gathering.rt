//! The masks of all tasks, put in their order.

ghost use Rattle.std.specs.Prelude.{◌≡◌, ◌<◌, ◌≤◌, ◌+◌, ◌*◌, ◌⊎◌, ℕ, IfErr, IfOk, MatchResult, length, slice_index};
ghost use Rattle.sweep_masks.specs.Gather.{AreGathered, IsFaultAt, IsFaultOf, IsNewItem};
ghost use Rattle.sweep_masks.specs.Tasks.{IsTaskCount};

use crate::cutting::Cutting;
use crate::task::{Swept, words_of};
use host_memory::Global;
use tag_memory::PAGE_WORDS;
use thiserror::Error;

/// Why a list of swept tasks doesn't make the masks of a memory.
#[derive(Debug, PartialEq, Drop, Error)]
pub enum GatherFault {
    /// An allocation was refused.
    #[error("Memory")]
    Memory,
    /// There is no such task.
    #[error("Stranger({0})")]
    Stranger(u32),
    /// An earlier item has this task.
    #[error("Double({0})")]
    Double(u32),
    /// The item hasn't four words for each page of this task.
    #[error("WrongSize({0})")]
    WrongSize(u32),
    /// No item has this task.
    #[error("Missing({0})")]
    Missing(u32),
}

// What is wrong with an item, where `done` says which tasks the items before it have.
fn judge(cutting: &Cutting, pages: u32, done: &[bool], swept: &Swept) -> Result<(), GatherFault>
    requires { IsTaskCount cutting.now pages (length done.now) }
    ensures { MatchResult result (λ _. IsNewItem cutting.now pages done.now swept.now)
        (λ fault. IsFaultAt cutting.now pages done.now swept.now fault) }
{
    let task = swept.task;
    if task as usize >= done.len() {
        return Err(GatherFault::Stranger(task));
    }
    if done[task as usize] {
        return Err(GatherFault::Double(task));
    }
    if swept.masks.len() != words_of(cutting, pages, task) {
        return Err(GatherFault::WrongSize(task));
    }
    Ok(())
}

// Writes these words from `at` on.
fn place(masks: &mut Vec<u64, Global>, at: usize, words: &[u64])
    requires { at + length words.now ≤ length masks.old.items }
    ensures count { length masks.new.items ≡ length masks.old.items }
    ensures here { (w : ℕ) → w < length words.now → slice_index masks.new.items (at + w) ≡ slice_index words.now w }
    ensures rest { (w : ℕ) → ((w < at) ⊎ (at + length words.now ≤ w)) → slice_index masks.new.items w ≡ slice_index masks.old.items w }
{
    masks[at..at + words.len()].copy_from_slice(words);
}

/// The masks of all tasks in their order, four words a page, whatever the order of the list. The items are
/// judged in their order, each as a stranger, as a double and by its size; the first fault that holds is
/// told, and where no item has one, the least task that is missing.
pub fn gather(
    alloc: Global,
    tasks: u32,
    cutting: &Cutting,
    pages: u32,
    list: Vec<Swept, Global>,
) -> Result<Vec<u64, Global>, GatherFault>
    requires { IsTaskCount cutting.now pages tasks }
    ensures ok { IfOk result (λ masks. AreGathered cutting.now tasks pages list.items masks.items) }
    ensures err { IfErr result (λ fault. IsFaultOf cutting.now tasks pages list.items fault) }
{
    let Ok(mut masks) = vec![in alloc; 0; PAGE_WORDS * pages as usize] else {
        return Err(GatherFault::Memory);
    };
    let Ok(mut done) = vec![in alloc; false; tasks as usize] else {
        return Err(GatherFault::Memory);
    };
    let task_words = PAGE_WORDS * cutting.pages_per_task() as usize;
    for swept in &list {
        judge(cutting, pages, &done, swept)?;
        place(&mut masks, swept.task as usize * task_words, &swept.masks);
        done[swept.task as usize] = true;
    }
    for task in 0..tasks {
        if !done[task as usize] {
            return Err(GatherFault::Missing(task));
        }
    }
    Ok(masks)
}
