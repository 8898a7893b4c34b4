//! The limits of the table.

/// The greatest length of a word of the table.
pub const MAX_N: u32 = 30;

/// The greatest bound that the table shows, 2^30.
pub const MAX_BOUND: u32 = 1073741824;
