//! What a table says of an entry.

use crate::entry::Entry;

/// The side of a bound.
#[derive(Clone, Copy, PartialEq, Eq)]
pub enum Side {
    /// A lower bound: some code has this many words.
    Lower,
    /// An upper bound: no code has more words.
    Upper,
}

/// What a table says of an entry: a bound from below or from above.
#[derive(Clone, Copy, PartialEq, Eq)]
pub struct Claim {
    /// Whether it bounds from below or from above.
    pub side: Side,
    /// The entry.
    pub entry: Entry,
    /// The bound, from 1 to `MAX_BOUND`.
    pub value: u32,
}
