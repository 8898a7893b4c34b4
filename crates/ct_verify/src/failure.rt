//! Text lines that fail.

use crate::verdict::Why;

/// A text line of a derivation document that fails.
#[derive(Clone, Copy)]
pub(crate) struct Failure {
    /// Its number, counted from 1.
    pub(crate) line: usize,
    /// Why it fails.
    pub(crate) why: Why,
}
