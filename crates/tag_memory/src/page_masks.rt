//! The tags of one page, taken by the page's own masks.

ghost use Rattle.std.specs.Int.{bit_not, w64};
ghost use Rattle.std.specs.Prelude.{◌≡◌, ◌≢◌, ◌≤◌, ◌+◌, ◌*◌, ◌/◌, ◌%◌, ℕ, bit_and, false, length, slice_index, true};
ghost use Rattle.tag_memory.specs.Extent.{page_words};
ghost use Rattle.tag_memory.specs.Tags.{HasWord, IsBlank};

use crate::memory::PAGE_WORDS;
use crate::pages::has_tags;
use host_memory::Global;

/// Takes from the words of this page the tags of its four masks.
fn clear_page_words(tags: &mut Vec<u64, Global>, masks: &[u64], page: usize)
    requires words { page_words * page + page_words ≤ length tags.old.items }
    requires masks { length masks.now ≡ page_words }
    ensures count { length tags.new.items ≡ length tags.old.items }
    ensures words { (w : ℕ) → w / page_words ≡ page
        → slice_index tags.new.items w ≡ bit_and (slice_index tags.old.items w) (bit_not w64 (slice_index masks.now (w % page_words))) }
    ensures rest { (w : ℕ) → w / page_words ≢ page → slice_index tags.new.items w ≡ slice_index tags.old.items w }
{
    for w in PAGE_WORDS * page..PAGE_WORDS * (page + 1) {
        tags[w] &= !masks[w % PAGE_WORDS];
    }
}

/// `take_tags` by the four masks of this page alone.
pub(crate) fn take_page_tags(
    tags: &mut Vec<u64, Global>,
    masks: &[u64],
    page: usize,
    may_hold: bool,
) -> bool
    requires words { page_words * page + page_words ≤ length tags.old.items }
    requires masks { length masks.now ≡ page_words }
    requires blank { may_hold ≡ false → IsBlank tags.old.items page }
    ensures count { length tags.new.items ≡ length tags.old.items }
    ensures words { (w : ℕ) → w / page_words ≡ page
        → slice_index tags.new.items w ≡ bit_and (slice_index tags.old.items w) (bit_not w64 (slice_index masks.now (w % page_words))) }
    ensures rest { (w : ℕ) → w / page_words ≢ page → slice_index tags.new.items w ≡ slice_index tags.old.items w }
    ensures none { result ≡ false → IsBlank tags.new.items page }
    ensures some { result ≡ true → HasWord tags.new.items page }
{
    if !may_hold {
        return false;
    }
    clear_page_words(tags, masks, page);
    has_tags(tags, page)
}
