//! A pass over a whole memory by the calling thread alone, which looks at all pages or at dirty ones only.

ghost use Rattle.std.specs.Prelude.{◌≡◌, ◌<◌, ◌≤◌, ◌*◌, ◌↔◌, ℕ, IfErr, IfOk, false, length};
ghost use Rattle.sweep_masks.specs.Masks.{ArePassMasks, IsPassedTo, is_looked_at};
ghost use Rattle.tag_memory.specs.Extent.{page_granules, page_words};

use crate::cutting::Cutting;
use crate::gate::Gate;
use crate::sweep::SweepFault;
use crate::task::{end_of, fill_page, first_of};
use heap_model::Shadow;
use host_memory::Global;
use tag_memory::{Memory, PAGE_WORDS};

// Whether a pass looks at this page.
fn looks_at(memory: &Memory, dirty_only: bool, page: u32) -> bool
    requires { page_granules * page < length memory.now.granules }
    ensures { result ≡ is_looked_at memory.now dirty_only page }
{
    !dirty_only || memory.dirty(page)
}

// Makes the masks of those of the pages `from` to `end - 1` that are looked at, and tells whether one is.
fn fill_pages(
    memory: &Memory,
    shadow: &Shadow,
    dirty_only: bool,
    from: u32,
    end: u32,
    masks: &mut Vec<u64, Global>,
) -> bool
    requires order { from ≤ end }
    requires room { page_words * end ≤ length masks.old.items }
    requires within { page_granules * end ≤ length memory.now.granules }
    requires before { IsPassedTo memory.now shadow.now dirty_only from masks.old.items }
    ensures count { length masks.new.items ≡ length masks.old.items }
    ensures made { IsPassedTo memory.now shadow.now dirty_only end masks.new.items }
    ensures looked { (result ≡ false) ↔ ((page : ℕ) → from ≤ page → page < end → is_looked_at memory.now dirty_only page ≡ false) }
{
    let mut looked = false;
    for page in from..end {
        if looks_at(memory, dirty_only, page) {
            fill_page(memory, shadow, 0, page, masks);
            looked = true;
        }
    }
    looked
}

/// The masks of a pass, task by task. One worker claims every task, so it needs no board, and no list of its own for
/// each. `gate` is told of each task that has a page that is looked at, and of no other.
pub(crate) fn sweep_pages<G: Gate>(
    alloc: Global,
    memory: &Memory,
    shadow: &Shadow,
    cutting: &Cutting,
    gate: &G,
    dirty_only: bool,
) -> Result<Vec<u64, Global>, SweepFault>
    ensures ok { IfOk result (λ masks. ArePassMasks memory.now shadow.now dirty_only masks.items) }
    ensures err { IfErr result (λ fault. fault ≡ SweepFault.Memory) }
{
    let pages = memory.pages();
    let Ok(mut masks) = vec![in alloc; 0; PAGE_WORDS * pages as usize] else {
        return Err(SweepFault::Memory);
    };
    for task in 0..cutting.tasks(pages) {
        let first = first_of(cutting, pages, task);
        let end = end_of(cutting, pages, task);
        if fill_pages(memory, shadow, dirty_only, first, end, &mut masks) {
            gate.pass(task);
        }
    }
    Ok(masks)
}
