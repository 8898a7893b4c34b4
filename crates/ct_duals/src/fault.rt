//! Why a dual is refused.

/// Why a dual is refused.
#[derive(Clone, Copy, PartialEq, Eq)]
pub enum DualFault {
    /// The first multiplier, c_0, is 0.
    Lead,
    /// At the index `at`, the least such, the combination has a `value` above what is `allowed` there.
    Above { at: u32, value: i128, allowed: i128 },
}
