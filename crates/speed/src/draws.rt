//! Numbers that look random.

/// The next of a row of numbers (the step of Knuth's MMIX).
pub(crate) fn next(seed: u64) -> u64 {
    seed.wrapping_mul(6_364_136_223_846_793_005)
        .wrapping_add(1_442_695_040_888_963_407)
}
