//! The text of an image.

ghost use Rattle.std.specs.Prelude.{◌≡◌, ◌++◌, IfOk, OnOk};
ghost use Rattle.trace_report.specs.Image.{granule_text, image_line, image_of};

use cap_codec::{Word, to_bytes};
use heap_reply::{ShortText, flag_number};
use host_memory::Global;
use std::alloc::AllocError;
use tag_memory::{GRANULE, Memory};

/// A line for each granule that is tagged or not all zero: its address, its tag and its bytes.
pub fn image_lines(alloc: Global, memory: &Memory) -> Result<Vec<u8, Global>, AllocError>
    ensures { IfOk result (λ text. text.items ≡ image_of memory.now.base memory.now.granules) }
{
    let mut text = Vec::new(alloc);
    memory.invariant();
    let base = memory.base();
    for i in 0..memory.granules() {
        push_granule(&mut text, base + GRANULE * i as u64, memory.cell(i))?;
    }
    Ok(text)
}

// Adds what the image shows of a granule.
fn push_granule(
    text: &mut Vec<u8, Global>,
    address: u64,
    granule: (u128, bool),
) -> Result<(), AllocError>
    ensures { OnOk result (text.new.items ≡ text.old.items ++ granule_text address granule) }
{
    let (bits, tag) = granule;
    if !tag && bits == 0 {
        return Ok(());
    }
    push_line(text, address, bits, tag)
}

// Adds the line of a granule.
fn push_line(
    text: &mut Vec<u8, Global>,
    address: u64,
    bits: u128,
    tag: bool,
) -> Result<(), AllocError>
    ensures { OnOk result (text.new.items ≡ text.old.items ++ image_line address (bits, tag)) }
{
    let mut line = ShortText::new();
    line.put("\n");
    line.put_bytes(to_bytes(Word { bits }));
    line.put(" ");
    line.put_decimal(u64::from(flag_number(tag)));
    line.put(" ");
    line.put_hexadecimal(address);
    text.extend_from_slice(line.as_bytes())
}
