//! Texts written to a room that a caller gives.

ghost use Rattle.std.specs.Prelude.{◌≡◌, ◌<◌, ◌++◌, IfErr, IfOk, OnErr, drop, length};

/// Copies all of a text to where a room begins. The answer is how long the text is, and an error where the room is shorter:
/// then nothing is written.
pub fn put_all(whole: &[u8], out: &mut [u8]) -> Result<usize, usize>
    ensures ok { IfOk result (λ count. (count ≡ length whole.now) × (out.new ≡ whole.now ++ drop (length whole.now) out.old)) }
    ensures short { IfErr result (λ count. (count ≡ length whole.now) × (length out.old < count)) }
    ensures still { OnErr result (out.new ≡ out.old) }
{
    if out.len() < whole.len() {
        return Err(whole.len());
    }
    out[..whole.len()].copy_from_slice(whole);
    Ok(whole.len())
}
