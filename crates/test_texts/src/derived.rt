//! `Shown` with its fields in the order in which it tells them, so that its `Debug` can be derived.

#[derive(Debug, Drop)]
pub struct Shown {
    pub tag: bool,
    pub address: u64,
    pub base: u64,
    pub top: u128,
    pub perms: u16,
    pub otype: u32,
    pub exponent: u8,
}
