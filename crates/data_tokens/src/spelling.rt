//! Commands as a trace could have them.

ghost use Rattle.std.specs.Prelude.{◌≡◌, ◌≤◌, ◌+◌, ◌++◌, [], length};
ghost use Rattle.data_tokens.specs.Text.{command_text};

use heap_reply::ShortText;
use trace_text::Command;

// Puts a command before what stands.
fn put_spelled(text: &mut ShortText, command: Command)
    requires room { 200 + length text.old ≤ 256 }
    ensures text { text.new ≡ command_text command ++ text.old }
{
    match command {
        Command::Malloc { rd, size } => {
            text.put_decimal(size);
            text.put(" ");
            text.put_decimal(u64::from(rd));
            text.put("malloc c");
        }
        Command::Free { rs } => {
            text.put_decimal(u64::from(rs));
            text.put("free c");
        }
        Command::Copy { rd, rs } => {
            text.put_decimal(u64::from(rs));
            text.put(" c");
            text.put_decimal(u64::from(rd));
            text.put("copy c");
        }
        Command::SetAddr { rd, rs, address } => {
            text.put_hexadecimal(address);
            text.put(" ");
            text.put_decimal(u64::from(rs));
            text.put(" c");
            text.put_decimal(u64::from(rd));
            text.put("setaddr c");
        }
        Command::Narrow { rd, rs, length } => {
            text.put_decimal(length);
            text.put(" ");
            text.put_decimal(u64::from(rs));
            text.put(" c");
            text.put_decimal(u64::from(rd));
            text.put("narrow c");
        }
        Command::AndPerm { rd, rs, mask } => {
            text.put_hexadecimal(u64::from(mask));
            text.put(" ");
            text.put_decimal(u64::from(rs));
            text.put(" c");
            text.put_decimal(u64::from(rd));
            text.put("andperm c");
        }
        Command::StoreCap { ra, rs } => {
            text.put_decimal(u64::from(rs));
            text.put(" c");
            text.put_decimal(u64::from(ra));
            text.put("storecap c");
        }
        Command::LoadCap { rd, ra } => {
            text.put_decimal(u64::from(ra));
            text.put(" c");
            text.put_decimal(u64::from(rd));
            text.put("loadcap c");
        }
        Command::Write { ra, bytes } => {
            text.put_bytes(bytes);
            text.put(" ");
            text.put_decimal(u64::from(ra));
            text.put("write c");
        }
        Command::Show { rs } => {
            text.put_decimal(u64::from(rs));
            text.put("show c");
        }
        Command::Sweep => text.put("sweep"),
        Command::Begin => text.put("begin"),
        Command::End => text.put("end"),
    }
}

/// Makes the text of a command.
pub fn spell(text: &mut ShortText, command: Command)
    requires { text.old ≡ [] }
    ensures { text.new ≡ command_text command }
{
    put_spelled(text, command);
}
