//! Entries as commands name them.

ghost use Rattle.std.specs.Prelude.{◌≡◌, map};
ghost use Rattle.ct_text.specs.EntryNumbers.{entry_numbers_of, named_entry};

use crate::number::parse_number;
use ct_words::Entry;

/// The numbers that a command names an entry by: `N D`, or `N D W` with a weight. They need not name an entry of the table.
#[derive(Clone, Copy)]
pub struct EntryNumbers {
    /// The length.
    pub n: u64,
    /// The distance.
    pub d: u64,
    /// The weight, if it is given.
    pub w: Option<u64>,
}

/// The numbers that the words write: two of them, or three with the weight. `None` for other words.
pub fn parse_entry_numbers(words: &[&[u8]]) -> Option<EntryNumbers>
    ensures { result ≡ entry_numbers_of (map (λ word. word.now) words.now) }
{
    let (n, d, w) = match words {
        [n, d] => (n, d, None),
        [n, d, w] => (n, d, Some(parse_number(w)?)),
        _ => return None,
    };
    Some(EntryNumbers {
        n: parse_number(n)?,
        d: parse_number(d)?,
        w,
    })
}

impl EntryNumbers {
    /// The entry of the table with these numbers, if there is one.
    pub fn entry(&self) -> Option<Entry>
        ensures { result ≡ named_entry self.now }
    {
        let w = match self.w {
            None => None,
            Some(w) => Some(u32::try_from(w).ok()?),
        };
        let entry = Entry {
            n: u32::try_from(self.n).ok()?,
            d: u32::try_from(self.d).ok()?,
            w,
        };
        if entry.in_table() { Some(entry) } else { None }
    }
}
