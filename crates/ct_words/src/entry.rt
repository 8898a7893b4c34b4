//! The entries of the table.

ghost use Rattle.std.specs.Prelude.{◌≡◌};
ghost use Rattle.ct_words.specs.Entry.{is_entry};

use crate::limits::MAX_N;

/// An entry of the table: A(n,d) where `w` is `None`, else A(n,d,w), for words of length n, distance d and weight w.
#[derive(Clone, Copy, Debug, PartialEq, Eq)]
pub struct Entry {
    /// The length of the words.
    pub n: u32,
    /// Any two words differ in at least this many places.
    pub d: u32,
    /// The weight of each word, if one is given.
    pub w: Option<u32>,
}

impl Entry {
    /// Whether the entry is in the table: 1 ≤ n ≤ `MAX_N` and 3 ≤ d ≤ `MAX_N`, and where a weight w is given,
    /// d even and w ≤ n.
    pub fn in_table(&self) -> bool
        ensures { result ≡ is_entry self.now }
    {
        let fits = match self.w {
            None => true,
            Some(w) => self.d % 2 == 0 && w <= self.n,
        };
        1 <= self.n && self.n <= MAX_N && 3 <= self.d && self.d <= MAX_N && fits
    }
}
