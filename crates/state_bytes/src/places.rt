//! Where the parts of a text stand, in bytes.

ghost use Rattle.std.specs.Prelude.{◌≡◌};
ghost use Rattle.state_bytes.specs.Text as text;

/// How long the head is, and where in it the number of pages stands, and whether an epoch is open.
pub const HEAD: usize = 13;

pub const PAGES: usize = 8;

pub const OPEN: usize = 12;

/// How long the text of a granule is, and where in it the tag stands, and the number of the block that starts there.
pub const ROW: usize = 21;

pub const TAG: usize = 16;

pub const NUMBER: usize = 17;

/// How long the text of a register is. Its tag stands where a granule's does.
pub const REGISTER: usize = 17;

// How long a text is beside what each page takes, and what that is: 256 granules and a mark.
const LEAST: u64 = 557;

const PAGE: u64 = 5377;

/// How long the text of so many pages is.
pub fn text_length(pages: u32) -> usize
    ensures { result ≡ text.text_length pages }
{
    (LEAST + PAGE * u64::from(pages)) as usize
}
