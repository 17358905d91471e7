//! The text of an image.

ghost use Rattle.std.specs.Prelude.{◌≡◌, IfErr, IfOk};
ghost use Rattle.trace_report.specs.Image.{image_of};

use heap_machine::MachineFault;
use host_memory::Global;
use tag_memory::Memory;
use trace_report::image_lines;

/// A line for each granule that is tagged or not all zero: its address, its tag and its bytes.
pub fn image_text(alloc: Global, memory: &Memory) -> Result<Vec<u8, Global>, MachineFault>
    ensures ok { IfOk result (λ text. text.items ≡ image_of memory.now.base memory.now.granules) }
    ensures err { IfErr result (λ fault. fault ≡ MachineFault.Memory) }
{
    let Ok(text) = image_lines(alloc, memory) else {
        return Err(MachineFault::Memory);
    };
    Ok(text)
}
