//! A bound that is shown.

use ct_derive::{Parts, PieceParts, ShownPiece, print};
use ct_names::Id;
use ct_reasons::explain;
use ct_table::Table;
use ct_words::{Entry, Side};
use smallvec::SmallVec;
use std::alloc::{AllocError, Global};
use std::test::Fail;

/// A piece of evidence of an id and a document.
struct Shown {
    id: Id,
    document: &'static [u8],
}

impl ShownPiece for Shown {
    ghost id_of = { λ p. p.id };

    ghost document_of = { λ p. p.document.now };

    fn id(&self) -> Id {
        self.id
    }

    fn document(&self) -> &[u8] {
        self.document
    }
}

/// So many pieces of evidence, none of which has parts.
struct Lone {
    count: usize,
}

impl PieceParts for Lone {
    ghost use Rattle.std.specs.Prelude.{[], replicate};

    ghost parts_of = { λ p. replicate p.count [] };

    fn count(&self) -> usize {
        self.count
    }

    fn parts(&self, alloc: Global, _place: usize) -> Result<Parts, AllocError> {
        Ok(Parts::new(SmallVec::new(alloc)))
    }
}

/// The document that shows a bound of the table over nothing.
fn document_of(alloc: Global, side: Side, entry: Entry) -> Result<Option<Vec<u8>>, AllocError> {
    if !entry.in_table() {
        return Ok(None);
    }
    let table = Table::new(alloc)?;
    let pieces: [Shown; 0] = [];
    let derivation = explain(alloc, &table, &Lone { count: 0 }, side, entry)?;
    let text = print(alloc, &pieces, &derivation)?;
    Ok(Some(text))
}

#[test]
fn a_lower_bound(rt: HostRuntime) -> Result<(), Fail> {
    let entry = Entry {
        n: 5,
        d: 3,
        w: None,
    };
    let text = document_of(rt.alloc(), Side::Lower, entry)?;
    let want =
        b"derivation\nline 1 lower 3 4 value 1 by L1\nline 2 lower 6 4 value 4 by L8 from 1\nline 3 lower 5 3 value 4 by L6 from 2\ndone\n";
    assert!(rt; text.is_some_and(|text| text.as_slice() == want.as_slice()));
    Ok(())
}
