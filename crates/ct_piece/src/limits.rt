//! The limits of a ledger.

/// The most pieces that stand at once.
pub const MAX_PIECES: usize = 1000;

/// The most words that the pieces store in all.
pub const MAX_STORED: u64 = 1_000_000;
