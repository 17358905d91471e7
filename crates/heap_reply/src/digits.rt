//! Pieces of a text, written so that they end at a place, as `itoa::write_digits` writes decimal digits.

ghost use Rattle.std.specs.Prelude.{◌≡◌, ◌≤◌, ◌<◌, ◌+◌, ◌/◌, ◌%◌, ◌∷◌, ◌++◌, drop, false, length};
ghost use Rattle.std.specs.Fmt.{digit_glyph, digits};

/// Writes a text so that it ends at `end`, and answers where it starts.
#[inline(always)]
pub fn write_text(text: &[u8], room: &mut [u8], end: usize) -> usize
    requires { (length text.now ≤ end) × (end ≤ length room.old) }
    ensures start { result + length text.now ≡ end }
    ensures written { drop result room.new ≡ text.now ++ drop end room.old }
{
    let start = end - text.len();
    room[start..end].copy_from_slice(text);
    start
}

// The two digits of each number below 256, one pair after the other.
static PAIRS: [u8; 512] =
    *b"000102030405060708090a0b0c0d0e0f101112131415161718191a1b1c1d1e1f202122232425262728292a2b2c2d2e2f303132333435363738393a3b3c3d3e3f404142434445464748494a4b4c4d4e4f505152535455565758595a5b5c5d5e5f606162636465666768696a6b6c6d6e6f707172737475767778797a7b7c7d7e7f808182838485868788898a8b8c8d8e8f909192939495969798999a9b9c9d9e9fa0a1a2a3a4a5a6a7a8a9aaabacadaeafb0b1b2b3b4b5b6b7b8b9babbbcbdbebfc0c1c2c3c4c5c6c7c8c9cacbcccdcecfd0d1d2d3d4d5d6d7d8d9dadbdcdddedfe0e1e2e3e4e5e6e7e8e9eaebecedeeeff0f1f2f3f4f5f6f7f8f9fafbfcfdfeff";

fn digit(value: u8) -> u8
    requires { value < 16 }
    ensures { result ≡ digit_glyph false value }
{
    if value < 10 {
        b'0' + value
    } else {
        b'a' + (value - 10)
    }
}

// Writes two digits from `at` on.
#[inline(always)]
fn write_pair(pair: u64, room: &mut [u8], at: usize)
    requires { (pair < 256) × (at + 2 ≤ length room.old) }
    ensures { drop at room.new ≡ digit_glyph false (pair / 16) ∷ digit_glyph false (pair % 16) ∷ drop (at + 2) room.old }
{
    let from = pair as usize * 2;
    let (first, second) = (PAIRS[from], PAIRS[from + 1]);
    room[at] = first;
    room[at + 1] = second;
}

// Writes the digits of a number that has one or two, so that they end at `end`, and answers where they start.
#[inline(always)]
fn write_first(n: u64, room: &mut [u8], end: usize) -> usize
    requires { (n < 256) × (length (digits 16 false n) ≤ end) × (end ≤ length room.old) }
    ensures start { result + length (digits 16 false n) ≡ end }
    ensures written { drop result room.new ≡ digits 16 false n ++ drop end room.old }
{
    if n < 16 {
        room[end - 1] = digit(n as u8);
        return end - 1;
    }
    write_pair(n, room, end - 2);
    end - 2
}

/// The same of the hexadecimal digits of a number, two at a time.
#[inline(always)]
pub fn write_hexadecimal(n: u64, room: &mut [u8], end: usize) -> usize
    requires { (length (digits 16 false n) ≤ end) × (end ≤ length room.old) }
    ensures start { result + length (digits 16 false n) ≡ end }
    ensures written { drop result room.new ≡ digits 16 false n ++ drop end room.old }
{
    let mut rest = n;
    let mut at = end;
    while rest >= 256 {
        write_pair(rest % 256, room, at - 2);
        at -= 2;
        rest /= 256;
    }
    write_first(rest, room, at)
}

/// The same of a number of 128 bits.
#[inline(always)]
pub fn write_wide_hexadecimal(n: u128, room: &mut [u8], end: usize) -> usize
    requires { (length (digits 16 false n) ≤ end) × (end ≤ length room.old) }
    ensures start { result + length (digits 16 false n) ≡ end }
    ensures written { drop result room.new ≡ digits 16 false n ++ drop end room.old }
{
    let mut rest = n;
    let mut at = end;
    while rest > u128::from(u64::MAX) {
        at -= 1;
        room[at] = digit((rest % 16) as u8);
        rest /= 16;
    }
    write_hexadecimal(rest as u64, room, at)
}
