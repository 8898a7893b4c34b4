//! Why a primal is refused.

/// Why a primal is refused.
#[derive(Clone, Copy)]
pub enum PrimalFault {
    /// The scale is not above 0.
    Scale,
    /// At the row `at`, the least such from 1 on, the transformed number has a `value` below 0.
    Below { at: u32, value: i128 },
}
