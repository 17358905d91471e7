//! Numbers of 128 bits in two of 64.

ghost use Rattle.std.specs.Prelude.{◌≡◌};
ghost use Rattle.byte_machine.specs.Records as records;
ghost use Rattle.state_bytes.specs.Text.{flag_byte};

pub fn low_half(bits: u128) -> u64
    ensures { result ≡ records.low_half bits }
{
    (bits % (1 << 64)) as u64
}

pub fn high_half(bits: u128) -> u64
    ensures { result ≡ records.high_half bits }
{
    (bits >> 64) as u64
}

pub fn wide(low: u64, high: u64) -> u128
    ensures { result ≡ records.wide low high }
{
    u128::from(low) + (u128::from(high) << 64)
}

pub fn flag(flag: bool) -> u8
    ensures { result ≡ flag_byte flag }
{
    if flag { 1 } else { 0 }
}
