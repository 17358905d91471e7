//! Texts that are put together, and words as they may be told.

ghost use Rattle.std.specs.Prelude.{◌≤◌, length};

use host_memory::Global;
use std::alloc::AllocError;

// As much as is told of a word.
const MOST_TOLD: usize = 60;

/// These texts, one behind the other.
pub(crate) fn joined(alloc: Global, parts: &[&[u8]]) -> Result<Vec<u8, Global>, AllocError> {
    let mut text = Vec::new(alloc);
    for part in parts {
        text.extend_from_slice(part)?;
    }
    Ok(text)
}

/// A word as it may be told: its first bytes, and a `?` for each that isn't printed.
pub(crate) fn shown(alloc: Global, word: &[u8]) -> Result<Vec<u8, Global>, AllocError> {
    let mut text = Vec::new(alloc);
    for byte in &word[..word.len().min(MOST_TOLD)] {
        text.push(if byte.is_ascii_graphic() { *byte } else { b'?' })?;
    }
    Ok(text)
}
