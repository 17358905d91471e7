//! Where a memory or a heap may lie.

ghost use Rattle.std.specs.Prelude.{◌≡◌};
ghost use Rattle.tag_memory.specs.Extent as extent;

/// Bytes a granule, which has one tag.
pub const GRANULE: u64 = 16;

/// Granules a page.
pub const PAGE_GRANULES: u32 = 256;

/// Bytes a page.
pub const PAGE: u64 = GRANULE * PAGE_GRANULES as u64;

/// The most pages of a memory or a heap.
pub const MOST_PAGES: u32 = 1024;

/// Whether a memory or a heap may have so many pages.
pub fn is_size(pages: u64) -> bool
    ensures { result ≡ extent.is_size pages }
{
    (1..=u64::from(MOST_PAGES)).contains(&pages)
}

/// Whether so many pages may begin at `base`: at a multiple of a page, and within 64-bit addresses.
pub fn is_base(base: u64, pages: u64) -> bool
    ensures { result ≡ extent.is_base base pages }
{
    base.is_multiple_of(PAGE) && u128::from(base) + u128::from(PAGE) * u128::from(pages) <= 1 << 64
}
