//! Parts of the table as commands name them.

ghost use Rattle.std.specs.Prelude.{◌≡◌, map};
ghost use Rattle.ct_text.specs.TableNumbers.{table_numbers_of, entry_of_length};

use crate::entry_numbers::EntryNumbers;
use crate::number::parse_number;
use ct_words::Entry;

/// The numbers that a command names a part of the table by: `D`, or `D W` with a weight. They need not name an
/// entry of the table.
#[derive(Clone, Copy)]
pub struct TableNumbers {
    /// The distance.
    pub d: u64,
    /// The weight, if it is given.
    pub w: Option<u64>,
}

/// The numbers that the words write: one of them, or two with the weight. `None` for other words.
pub fn parse_table_numbers(words: &[&[u8]]) -> Option<TableNumbers>
    ensures { result ≡ table_numbers_of (map (λ word. word.now) words.now) }
{
    let (d, w) = match words {
        [d] => (d, None),
        [d, w] => (d, Some(parse_number(w)?)),
        _ => return None,
    };
    Some(TableNumbers {
        d: parse_number(d)?,
        w,
    })
}

impl TableNumbers {
    /// The entry of the table of length n with this distance and, where it is given, this weight, if there is one.
    pub fn entry(&self, n: u32) -> Option<Entry>
        ensures { result ≡ entry_of_length self.now n }
    {
        let numbers = EntryNumbers {
            n: u64::from(n),
            d: self.d,
            w: self.w,
        };
        numbers.entry()
    }
}
