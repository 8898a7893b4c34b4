//! The word, and why a text is none.

/// A word of length n, at most 32: a number below 2^n, whose digit of the place value 2^(n - 1) is place 0.
pub type Word = u32;

/// Why a text is no word of the asked length.
#[derive(Clone, Copy, Debug, PartialEq, Eq)]
pub enum WordFault {
    /// The text has this many bytes, and the word another length.
    BadLength(usize),
    /// The first place whose byte is neither `0` nor `1`.
    BadDigit(usize),
}
