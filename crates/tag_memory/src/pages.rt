//! The tags of one page, in words.

ghost use Rattle.std.specs.Int.{bit_not, w64};
ghost use Rattle.std.specs.Prelude.{◌≡◌, ◌≢◌, ◌<◌, ◌≤◌, ◌+◌, ◌*◌, ◌/◌, ℕ, bit_and, false, length, slice_index, true};
ghost use Rattle.tag_memory.specs.Extent.{page_words};
ghost use Rattle.tag_memory.specs.Tags.{HasWord, IsBlank};

use crate::memory::PAGE_WORDS;
use host_memory::Global;

/// Whether a tag of this page is left.
pub(crate) fn has_tags(tags: &[u64], page: usize) -> bool
    requires { page_words * page + page_words ≤ length tags.now }
    ensures none { result ≡ false → IsBlank tags.now page }
    ensures some { result ≡ true → HasWord tags.now page }
{
    for w in PAGE_WORDS * page..PAGE_WORDS * (page + 1) {
        if tags[w] != 0 {
            return true;
        }
    }
    false
}

/// Takes from the words of this page the tags of the masks.
fn clear_words(tags: &mut Vec<u64, Global>, masks: &[u64], page: usize)
    requires words { page_words * page + page_words ≤ length tags.old.items }
    requires masks { page_words * page + page_words ≤ length masks.now }
    ensures count { length tags.new.items ≡ length tags.old.items }
    ensures words { (w : ℕ) → w / page_words ≡ page
        → slice_index tags.new.items w ≡ bit_and (slice_index tags.old.items w) (bit_not w64 (slice_index masks.now w)) }
    ensures rest { (w : ℕ) → w / page_words ≢ page → slice_index tags.new.items w ≡ slice_index tags.old.items w }
{
    for w in PAGE_WORDS * page..PAGE_WORDS * (page + 1) {
        tags[w] &= !masks[w];
    }
}

/// Takes the tags of the masks from this page, and answers whether one is left. A page that may hold no
/// tags is passed over.
pub(crate) fn take_tags(
    tags: &mut Vec<u64, Global>,
    masks: &[u64],
    page: usize,
    may_hold: bool,
) -> bool
    requires words { page_words * page + page_words ≤ length tags.old.items }
    requires masks { page_words * page + page_words ≤ length masks.now }
    requires blank { may_hold ≡ false → IsBlank tags.old.items page }
    ensures count { length tags.new.items ≡ length tags.old.items }
    ensures words { (w : ℕ) → w / page_words ≡ page
        → slice_index tags.new.items w ≡ bit_and (slice_index tags.old.items w) (bit_not w64 (slice_index masks.now w)) }
    ensures rest { (w : ℕ) → w / page_words ≢ page → slice_index tags.new.items w ≡ slice_index tags.old.items w }
    ensures none { result ≡ false → IsBlank tags.new.items page }
    ensures some { result ≡ true → HasWord tags.new.items page }
{
    if !may_hold {
        return false;
    }
    clear_words(tags, masks, page);
    has_tags(tags, page)
}
