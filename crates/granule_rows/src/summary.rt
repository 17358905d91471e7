//! What is kept of a part of a row.

ghost use Rattle.std.specs.Prelude.{◌≡◌, ◌<◌, ◌≤◌, ◌+◌, ◌^◌, ◌==◌, if◌then◌else◌, ℕ, Bool};
ghost use Rattle.granule_rows.specs.Summaries.{IsSummary, joined_of};

/// How many bits a part of a row has, how many ones it starts with, the length of its longest run of
/// ones, and how many ones it ends with.
#[derive(Clone, Copy, PartialEq, Eq)]
pub struct Summary {
    pub length: u32,
    pub prefix: u32,
    pub longest: u32,
    pub suffix: u32,
}

/// The summary of a part and of the part that follows it, as one.
pub fn joined(left: Summary, right: Summary) -> Summary
    requires fit { left.length + right.length < 2 ^ 32 }
    requires prefix { right.prefix ≤ right.length }
    requires suffix { left.suffix ≤ left.length }
    ensures value { result ≡ joined_of left right }
    ensures summary { (bits : ℕ → Bool) (first : ℕ) → IsSummary bits first left
        → IsSummary bits (first + left.length) right → IsSummary bits first result }
{
    let prefix = if left.prefix == left.length {
        left.length + right.prefix
    } else {
        left.prefix
    };
    Summary {
        length: left.length + right.length,
        prefix,
        longest: left
            .longest
            .max(right.longest)
            .max(left.suffix + right.prefix),
        suffix: ones_at_end(left.suffix, right),
    }
}

/// How many ones a part ends with, where one that ends with `ones` comes before it.
pub fn ones_at_end(ones: u32, part: Summary) -> u32
    requires { part.length + ones < 2 ^ 32 }
    ensures { result ≡ (if part.suffix == part.length then part.length + ones else part.suffix) }
{
    if part.suffix == part.length {
        part.length + ones
    } else {
        part.suffix
    }
}
