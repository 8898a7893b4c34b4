//! The codes of pieces, as a ledger makes them, and how many words it stores.

use crate::tally::Tally;
use ct_ledger::Ledger;
use ct_names::Id;
use std::alloc::{AllocError, Global};
use std::io;

/// A document, and what is known of it.
#[derive(Clone, Copy)]
struct Document<'a> {
    text: &'a str,
    /// How many words it stores.
    stored: u64,
    /// The length, the distance and the weight of its code.
    entry: (u32, u32, Option<u32>),
    /// The words of its code, in ascending order.
    words: &'a [u32],
}

const DOCUMENTS: [Document<'static>; 4] = [
    Document {
        text: "kind='words'\nn=6\nd=4\nwords=['111100','000000','001111']",
        stored: 3,
        entry: (6, 4, None),
        words: &[0, 15, 60],
    },
    Document {
        text: "kind='words'\nn=6\nd=4\nw=3\nwords=['110001','000111','101010','011100']",
        stored: 4,
        entry: (6, 4, Some(3)),
        words: &[7, 28, 42, 49],
    },
    // The words of a basis and of the representatives are stored, and not those of the code.
    Document {
        text: "kind='cosets'\nn=6\nd=3\nbasis=['100011','010101','001110']\nrepresentatives=['000000']",
        stored: 4,
        entry: (6, 3, None),
        words: &[0, 14, 21, 27, 35, 45, 54, 56],
    },
    // The words of the code are stored. The part is the first document.
    Document {
        text: "kind='build'\nop='lengthen'\nn=7\nd=4\npart='p0'",
        stored: 3,
        entry: (7, 4, None),
        words: &[0, 30, 120],
    },
];

/// Whether the document is accepted under the id, at the end of the pieces, its code is the one that is known, and so many words
/// more are stored.
fn is_as_known(
    alloc: Global,
    ledger: &mut Ledger,
    id: &str,
    known: Document<'_>,
) -> Result<bool, AllocError> {
    let Some(id) = Id::parse(id.as_bytes()) else {
        return Ok(false);
    };
    let stored = ledger.stored().saturating_add(known.stored);
    let is_accepted = ledger.submit(id, known.text.as_bytes()).is_ok();
    let count = ledger.pieces().len();
    if !is_accepted || count == 0 {
        return Ok(false);
    }
    if !ledger.has_code(count - 1) {
        return Ok(false);
    }
    let code = ledger.code(alloc, count - 1)?;
    let entry = (code.n(), code.d(), code.w());
    Ok(ledger.stored() == stored && entry == known.entry && code.words() == known.words)
}

/// The document of a build over that of id `before`, the one after so many others, and its length: the words of length 3, 6
/// and 12 are put beside themselves, and those of length 24 punctured to length 3.
fn doubled_or_punctured(
    alloc: Global,
    count: u32,
    before: &str,
) -> Result<(String, u32), AllocError> {
    if count % 4 < 3 {
        let n = 6u32 << (count % 4);
        let document = format!(in alloc;
            "kind='build'\nop='juxtapose'\nn={n}\nd={n}\npart='{before}'\nother='{before}'"
        )?;
        Ok((document, n))
    } else {
        let document = format!(in alloc;
            "kind='build'\nop='puncture'\nn=3\nd=3\nplaces=[0,1,2,3,4,5,6,7,8,9,10,11,12,13,14,15,16,17,18,19,20]\npart='{before}'"
        )?;
        Ok((document, 3))
    }
}

/// Whether the build after so many others is the two words that it should be.
fn build_is_as_known(alloc: Global, ledger: &mut Ledger, count: u32) -> Result<bool, AllocError> {
    let before = format!(in alloc; "c{count}")?;
    let id = format!(in alloc; "c{}", count.saturating_add(1))?;
    let (document, n) = doubled_or_punctured(alloc, count, &before)?;
    let known = Document {
        text: &document,
        stored: 2,
        entry: (n, n, None),
        words: &[0, 1u32.wrapping_shl(n).wrapping_sub(1)],
    };
    is_as_known(alloc, ledger, &id, known)
}

/// Whether each code of a chain of builds is the two words that it should be. Of the forty builds 30 name the one before them
/// twice: made anew wherever it is named, the first code would be made more than a thousand million times for the last.
fn chain_is_as_known(alloc: Global, ledger: &mut Ledger) -> Result<bool, AllocError> {
    let first = Document {
        text: "kind='words'\nn=3\nd=3\nwords=['000','111']",
        stored: 2,
        entry: (3, 3, None),
        words: &[0, 7],
    };
    let mut is_met = is_as_known(alloc, ledger, "c0", first)?;
    for count in 0..40u32 {
        is_met &= build_is_as_known(alloc, ledger, count)?;
    }
    Ok(is_met)
}

/// Counts a row for each document above, and one for a chain of builds.
fn run_over(
    rt: &(impl Print + AllocGlobal),
    tally: &mut Tally,
    ledger: &mut Ledger,
) -> io::Result<()> {
    let alloc = rt.alloc();
    for (number, known) in DOCUMENTS.into_iter().enumerate() {
        let id = format!(in alloc; "p{number}")?;
        let is_met = is_as_known(alloc, ledger, &id, known)?;
        tally.count(rt, "the code of a document", is_met, known.text)?;
    }
    let is_met = chain_is_as_known(alloc, ledger)?;
    tally.count(rt, "the codes of a chain of builds", is_met, "other codes")
}

/// Runs these rows over a ledger of their own.
pub fn run_all(rt: &(impl Print + AllocGlobal), tally: &mut Tally) -> io::Result<()> {
    let mut ledger = Ledger::new(rt.alloc())?;
    run_over(rt, tally, &mut ledger)
}
