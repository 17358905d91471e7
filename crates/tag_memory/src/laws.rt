//! The sizes that all else stands on.

ghost use Rattle.std.specs.Prelude.{◌≡◌};
ghost use Rattle.tag_memory.specs.Cells.{register_count};
ghost use Rattle.tag_memory.specs.Extent.{page_granules, page_words};

use crate::bits::WORD_GRANULES;
use crate::extent::{GRANULE, MOST_PAGES, PAGE, PAGE_GRANULES};
use crate::memory::PAGE_WORDS;
use crate::registers::REGISTERS;

/// Granules, pages, memories, words of tags and registers have these sizes.
pub fn size_law()
    ensures granule { GRANULE ≡ 16 }
    ensures page { PAGE ≡ 4096 }
    ensures page_granules { PAGE_GRANULES ≡ page_granules }
    ensures page_words { PAGE_WORDS ≡ page_words }
    ensures word_granules { WORD_GRANULES ≡ 64 }
    ensures most_pages { MOST_PAGES ≡ 1024 }
    ensures registers { REGISTERS ≡ register_count }
{}
