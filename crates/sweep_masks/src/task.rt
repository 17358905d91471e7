//! One task of a sweep.

ghost use Rattle.heap_model.specs.Heap.{HeapState, due};
ghost use Rattle.std.specs.Prelude.{◌≡◌, ◌≢◌, ◌<◌, ◌≤◌, ◌+◌, ◌-◌, ◌*◌, ◌/◌, ℕ, IfErr, IfOk, length, slice_index};
ghost use Rattle.sweep_masks.specs.Gather.{IsSwept};
ghost use Rattle.sweep_masks.specs.Masks.{IsShadowOf, TakePageTags, is_hit_at};
ghost use Rattle.sweep_masks.specs.Tasks.{IsTask, end_page, first_page, page_count, task_words};
ghost use Rattle.tag_memory.specs.Extent.{page_granules, page_words};
ghost use Rattle.tag_memory.specs.Tags.{is_set_for};

use crate::cutting::Cutting;
use crate::sweep::{SweepFault, word_mask};
use heap_model::Shadow;
use host_memory::Global;
use tag_memory::{Memory, PAGE_WORDS};

/// A task, and the masks of its pages.
#[derive(Drop)]
pub struct Swept {
    /// The task.
    pub task: u32,
    /// Its masks, four words a page.
    pub masks: Vec<u64, Global>,
}

/// The first page of a task.
pub(crate) fn first_of(cutting: &Cutting, pages: u32, task: u32) -> u32
    requires { IsTask cutting.now pages task }
    ensures { result ≡ first_page cutting.now task }
{
    task * cutting.pages_per_task()
}

/// The page after its last.
pub(crate) fn end_of(cutting: &Cutting, pages: u32, task: u32) -> u32
    requires { IsTask cutting.now pages task }
    ensures { result ≡ end_page cutting.now pages task }
{
    let first = first_of(cutting, pages, task);
    first + cutting.pages_per_task().min(pages - first)
}

/// How many words its masks take.
pub(crate) fn words_of(cutting: &Cutting, pages: u32, task: u32) -> usize
    requires { IsTask cutting.now pages task }
    ensures { result ≡ task_words cutting.now pages task }
{
    PAGE_WORDS * (end_of(cutting, pages, task) - first_of(cutting, pages, task)) as usize
}

/// Room for the masks of any one task.
pub(crate) fn room(
    alloc: Global,
    cutting: &Cutting,
    pages: u32,
) -> Result<Vec<u64, Global>, SweepFault>
    ensures ok { IfOk result (λ room. (k : ℕ) → task_words cutting.now pages k ≤ length room.items) }
    ensures err { IfErr result (λ fault. fault ≡ SweepFault.Memory) }
{
    let most = cutting.pages_per_task().min(pages) as usize;
    let Ok(room) = vec![in alloc; 0; PAGE_WORDS * most] else {
        return Err(SweepFault::Memory);
    };
    Ok(room)
}

/// Makes the masks of a page, and writes no other word. The first of these masks is that of the first word of page
/// `first`.
pub(crate) fn fill_page(
    memory: &Memory,
    shadow: &Shadow,
    first: u32,
    page: u32,
    masks: &mut Vec<u64, Global>,
)
    requires order { first ≤ page }
    requires room { page_words * (page - first) + page_words ≤ length masks.old.items }
    requires within { page_granules * page + page_granules ≤ length memory.now.granules }
    ensures count { length masks.new.items ≡ length masks.old.items }
    ensures made { (i : ℕ) → i / page_granules ≡ page - first → is_set_for masks.new.items i ≡ is_hit_at memory.now shadow.now (page_granules * first + i) }
    ensures kept { (w : ℕ) → w / page_words ≢ page - first → slice_index masks.new.items w ≡ slice_index masks.old.items w }
{
    let may_hold = memory.may_hold_tags(page);
    let at = PAGE_WORDS * (page - first) as usize;
    for j in 0..PAGE_WORDS {
        masks[at + j] = word_mask(memory, shadow, PAGE_WORDS * page as usize + j, may_hold);
    }
}

/// A task swept into this room.
pub(crate) fn swept_into(
    mut room: Vec<u64, Global>,
    memory: &Memory,
    shadow: &Shadow,
    cutting: &Cutting,
    task: u32,
) -> Swept
    requires task { IsTask cutting.now (page_count memory.now) task }
    requires room { task_words cutting.now (page_count memory.now) task ≤ length room.items }
    ensures task { result.task ≡ task }
    ensures masks { IsSwept memory.now shadow.now cutting.now result }
{
    let pages = memory.pages();
    let first = first_of(cutting, pages, task);
    room.truncate(words_of(cutting, pages, task));
    for page in first..end_of(cutting, pages, task) {
        fill_page(memory, shadow, first, page, &mut room);
    }
    Swept { task, masks: room }
}

/// The masks of one task, four words for each of its pages: a bit is 1 exactly where its granule is
/// tagged and the base of its word lies in a painted granule, which for a heap's shadow is in a block that
/// is due.
pub fn sweep_task(
    alloc: Global,
    memory: &Memory,
    shadow: &Shadow,
    cutting: &Cutting,
    task: u32,
) -> Result<Swept, SweepFault>
    requires { IsTask cutting.now (page_count memory.now) task }
    ensures ok { IfOk result (λ swept. (swept.task ≡ task) × IsSwept memory.now shadow.now cutting.now swept) }
    ensures due { (heap : HeapState) → IsShadowOf heap memory.now.base shadow.now
        → IfOk result (λ swept. TakePageTags memory.now (due heap) (first_page cutting.now task)
        (end_page cutting.now (page_count memory.now) task) swept.masks.items) }
    ensures err { IfErr result (λ fault. fault ≡ SweepFault.Memory) }
{
    let room = room(alloc, cutting, memory.pages())?;
    Ok(swept_into(room, memory, shadow, cutting, task))
}
