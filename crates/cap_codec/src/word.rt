//! Words, their fields and their bounds, as plain data.

ghost use Rattle.std.specs.Prelude.{◌≡◌, ◌↔◌, IsTrue};

/// The 128 bits of a capability in memory form: the address in the lower 64, the metadata in the
/// upper 64. The tag isn't part of them.
#[derive(Debug, Clone, Copy, PartialEq, Eq, Hash)]
pub struct Word {
    pub bits: u128,
}

impl Word {
    /// The null capability, which is all zeros in memory.
    pub const NULL: Word = Word { bits: 0 };
}

/// The fields of a word, in register form (CHERI ISA version 9, the capability format).
#[derive(Debug, Clone, Copy, PartialEq, Eq, Hash)]
pub struct Fields {
    /// Permissions, 16 bits.
    pub perms: u16,
    /// Reserved, 2 bits.
    pub reserved: u8,
    /// The capability mode flag.
    pub flag: bool,
    /// The object type, 18 bits: all ones in an unsealed capability.
    pub otype: u32,
    /// Whether the low 3 bits of `top12` and of `base14` hold the exponent.
    pub internal: bool,
    /// The top field, 12 bits.
    pub top12: u16,
    /// The base field, 14 bits.
    pub base14: u16,
    /// The address, or cursor.
    pub address: u64,
}

impl Fields {
    ghost use Rattle.cap_codec.specs.Fields.{IsValid};

    /// Whether each field is within its width.
    pub fn is_valid(&self) -> bool
        ensures { IsTrue result ↔ IsValid self.now }
    {
        self.reserved < 1 << 2
            && self.otype < 1 << 18
            && self.top12 < 1 << 12
            && self.base14 < 1 << 14
    }
}

/// The bounds of a word: the bytes from `base` on, before `top`. A top has up to 65 bits.
#[derive(Debug, Clone, Copy, PartialEq, Eq, Hash)]
pub struct Bounds {
    pub base: u64,
    pub top: u128,
}

impl Bounds {
    ghost use Rattle.cap_codec.specs.Words.{lie_within};

    /// Whether the `length` bytes from `address` on lie within the bounds.
    pub fn hold(&self, address: u64, length: u64) -> bool
        ensures { result ≡ lie_within self.now address length }
    {
        self.base <= address && u128::from(address) + u128::from(length) <= self.top
    }
}
