//! Codes that are known, and the entries of the table in a row.

ghost use Rattle.std.specs.Prelude.{◌≡◌, ◌<◌, ◌^◌, true, All, IfOk};
ghost use Rattle.ct_rule_parts.specs.Support.{Stands};

use ct_codes::{check_cosets, check_words};
use ct_math_tests::{GOLAY, NORDSTROM_ROBINSON, REED_MULLER};
use ct_rules::Support;
use ct_table::Table;
use ct_words::{Entry, MAX_BOUND, Word, weight};
use std::alloc::Global;
use std::process::Abort;
use std::test::Fail;

/// A basis and representatives whose cosets are a code of length n and distance d.
#[derive(Clone, Copy)]
pub struct Cosets {
    /// The length.
    pub n: u32,
    /// The distance.
    pub d: u32,
    /// The basis.
    pub basis: &'static [Word],
    /// The representatives.
    pub representatives: &'static [Word],
}

/// The code of Golay, that of Nordstrom and Robinson, that of Reed and Muller, and two words of length 28.
pub const CODES: [Cosets; 4] = [
    Cosets {
        n: 24,
        d: 8,
        basis: &GOLAY,
        representatives: &[0],
    },
    Cosets {
        n: 16,
        d: 6,
        basis: &REED_MULLER,
        representatives: &NORDSTROM_ROBINSON,
    },
    Cosets {
        n: 16,
        d: 8,
        basis: &REED_MULLER,
        representatives: &[0],
    },
    Cosets {
        n: 28,
        d: 28,
        basis: &[0b1111111111111111111111111111],
        representatives: &[0],
    },
];

/// Two words of length 5.
pub const TWO_WORDS: Cosets = Cosets {
    n: 5,
    d: 3,
    basis: &[0b11111],
    representatives: &[0],
};

/// The words without their last places.
fn without_last(alloc: Global, words: &[Word], places: u32) -> Result<Vec<Word>, Fail> {
    let mut rest = Vec::new(alloc);
    for word in words {
        rest.push(word.wrapping_shr(places))?;
    }
    Ok(rest)
}

/// Whether each word has length n.
fn have_length(words: &[Word], n: u32) -> bool
    requires { n < 32 }
    ensures { result ≡ true → All (λ x. x < 2 ^ n) words.now }
{
    words.iter().all(|word| *word < 1 << n)
}

/// What the code without some of its last places gives to a table, if its entry is one of the table.
pub fn support_of(
    rt: &impl Abort,
    alloc: Global,
    code: Cosets,
    places: u32,
) -> Result<Support, Fail>
    ensures { IfOk result Stands }
{
    let n = code.n.saturating_sub(places);
    let d = code.d.saturating_sub(places);
    let entry = Entry { n, d, w: None };
    if !entry.in_table() {
        return Ok(Support::Nothing);
    }
    let basis = without_last(alloc, code.basis, places)?;
    let representatives = without_last(alloc, code.representatives, places)?;
    assert!(rt; n < 32);
    assert!(rt; have_length(&basis, n) && have_length(&representatives, n));
    let code = check_cosets(alloc, entry, basis, representatives)?;
    let size = code.size();
    assert!(rt; 1 <= size && size <= MAX_BOUND);
    let entry = code.entry();
    Ok(Support::Size { entry, size })
}

/// The entry of the words of weight 8 of the code of Golay.
const OCTADS: Entry = Entry {
    n: 24,
    d: 8,
    w: Some(8),
};

/// The words of weight 8 of the code of Golay, of which there are 759.
fn octads(alloc: Global) -> Result<Vec<Word>, Fail> {
    let mut words = Vec::new(alloc);
    for choice in 0..1 << GOLAY.len() {
        let mut word = 0;
        for (place, basis_word) in GOLAY.iter().enumerate() {
            if choice >> place & 1 == 1 {
                word ^= *basis_word;
            }
        }
        if weight(word) == 8 {
            words.push(word)?;
        }
    }
    Ok(words)
}

/// What the words of weight 8 of the code of Golay give to a table.
fn support_of_octads(rt: &impl Abort, alloc: Global) -> Result<Support, Fail>
    ensures { IfOk result Stands }
{
    let words = octads(alloc)?;
    assert!(rt; have_length(&words, 24));
    let code = check_words(alloc, OCTADS, words)?;
    let size = code.words().len();
    assert!(rt; 1 <= size && size <= MAX_BOUND as usize);
    Ok(Support::Size {
        entry: OCTADS,
        size: size as u32,
    })
}

/// The table of the code of Golay and of its words of weight 8.
pub fn table_of_golay(rt: &impl Abort, alloc: Global) -> Result<Table, Fail> {
    let mut table = Table::new(alloc)?;
    table.add(support_of(rt, alloc, CODES[0], 0)?)?;
    table.add(support_of_octads(rt, alloc)?)?;
    Ok(table)
}

/// How many numbers `entry_at` has to be asked for to meet all entries of the table: 30 lengths, 28 distances, and 32 for no
/// weight and those from 0 to 30.
pub const NUMBERS: u32 = 30 * 28 * 32;

/// An entry for each number, which may lie outside of the table; each entry of the table has one number below `NUMBERS`.
pub fn entry_at(number: u32) -> Entry {
    Entry {
        n: (number / 896).saturating_add(1),
        d: number % 896 / 32 + 3,
        w: (number % 32).checked_sub(1),
    }
}
