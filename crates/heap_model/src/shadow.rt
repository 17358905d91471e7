//! The shadow of a heap: which of its granules lie in blocks that are due.

ghost use Rattle.std.specs.Prelude.{◌≡◌, ◌<◌, ◌*◌, ◌^◌, ℕ, IfOk, IfSome, false, length, slice_index_or};
ghost use Rattle.heap_model.specs.Near.{LieBetween};
ghost use Rattle.heap_model.specs.Shadow.{bits_of};
ghost use Rattle.tag_memory.specs.Tags.{is_set_for};

use host_memory::Global;
use std::alloc::AllocError;
use std::marker::Model;
use tag_memory::{WORD_GRANULES, row_bit};

/// Which granules of a heap lay in blocks that were due when it was made: one bit a granule, as the revoker's
/// shadow bitmap has it (Filardo et al. 2020, Cornucopia).
#[derive(Drop)]
pub struct Shadow {
    // Bit `j` of word `w` is that of granule `64 * w + j`.
    words: Vec<u64, Global>,
    // 64 a word.
    granules: usize,
    // Painted granules lie from the first on, before the end.
    first: usize,
    end: usize,
}

impl Model for Shadow {
    ghost use Rattle.std.specs.Prelude.{◌≡◌, ◌*◌, Bool, List, length};
    ghost use Rattle.heap_model.specs.Near.{LieBetween};
    ghost use Rattle.heap_model.specs.Shadow.{bits_of};
    ghost use Rattle.tag_memory.specs.Tags.{is_set_for};

    ghost Value = { List Bool };

    ghost view = { λ shadow. bits_of shadow.words.items };

    ghost invariant = { λ shadow. (64 * length shadow.words.items ≡ shadow.granules)
        × LieBetween (is_set_for shadow.words.items) shadow.first shadow.end };
}

impl Shadow {
    /// The shadow that has the bits of a row, which lie from the first place on and before the end.
    pub fn of_row(
        alloc: Global,
        row: &[u64],
        first: usize,
        end: usize,
    ) -> Result<Shadow, AllocError>
        requires limit { 64 * length row.now < 2 ^ 64 }
        requires between { LieBetween (is_set_for row.now) first end }
        ensures { IfOk result (λ shadow. shadow ≡ bits_of row.now) }
    {
        let mut words = vec![in alloc; 0; row.len()]?;
        words.copy_from_slice(row);
        let granules = WORD_GRANULES * row.len();
        Ok(Shadow {
            words,
            granules,
            first,
            end,
        })
    }

    /// The shadow in which a granule is painted exactly where its bit is 1: bit `j` of word `w` is that of granule
    /// `64 * w + j`.
    pub fn from_words(words: Vec<u64, Global>, granules: usize) -> Shadow
        requires { 64 * length words.items ≡ granules }
        ensures granules { length result ≡ granules }
        ensures painted { (k : ℕ) → k < granules → slice_index_or result k false ≡ is_set_for words.items k }
    {
        let end = granules;
        Shadow {
            words,
            granules,
            first: 0,
            end,
        }
    }

    /// How many granules there are.
    pub fn granules(&self) -> usize
        ensures { result ≡ length self.now }
    {
        self.granules
    }

    /// Whether a granule, counted from the heap's base, lay in a block that was due.
    pub fn painted(&self, granule: usize) -> bool
        requires { granule < length self.now }
        ensures { result ≡ slice_index_or self.now granule false }
    {
        row_bit(&self.words, granule)
    }

    /// Where painted granules lie, if that is no more than a quarter of the heap: from the first of these on, before the second. So
    /// of most other granules it is known by two comparisons that they aren't painted.
    pub fn painted_part(&self) -> Option<(u32, u32)>
        ensures { IfSome result (λ part. LieBetween (λ k. slice_index_or self.now k false) part.0 part.1) }
    {
        let first = self.first.min(self.end);
        if self.end - first > self.granules / 4 || self.end > u32::MAX as usize {
            return None;
        }
        Some((first as u32, self.end as u32))
    }
}
