//! What is noted of a ledger: its pieces, its stored words, and its table.

ghost use Rattle.ct_words.specs.Entry.{IsEntry};

use ct_ledger::{Ledger, Piece};
use ct_rules::Rule;
use ct_table::Table;
use ct_words::{Claim, Entry, Side, table_entries};
use std::alloc::{AllocError, Global};

/// A bound of the table, and the number of the line that is its reason.
#[derive(Clone, Copy, PartialEq, Eq)]
struct Bound {
    claim: Claim,
    reason: usize,
}

/// What is noted of a line: its claim, its rule, and how many lines it rests on, which are listed elsewhere.
#[derive(Clone, Copy, PartialEq, Eq)]
struct NotedLine {
    claim: Claim,
    rule: Rule,
    count: usize,
}

/// What is noted of a piece beside its id and its document.
#[derive(Clone, Copy, PartialEq, Eq)]
struct NotedPiece {
    entry: Entry,
    size: Option<u32>,
}

/// What is noted of a table.
#[derive(Drop)]
struct NotedTable {
    bounds: Vec<Bound>,
    lines: Vec<NotedLine>,
    /// The lines that the lines rest on, in their order.
    premises: Vec<usize>,
}

/// What is noted of a ledger.
#[derive(Drop)]
pub struct Noted {
    /// The ids and the documents of its pieces.
    dump: Vec<u8>,
    pieces: Vec<NotedPiece>,
    stored: u64,
    supports: usize,
    table: NotedTable,
}

/// Notes the bounds of an entry of the table.
fn note_entry(table: &Table, bounds: &mut Vec<Bound>, entry: Entry) -> Result<(), AllocError>
    requires { IsEntry entry }
{
    for (side, value) in [
        (Side::Lower, table.lower(entry)),
        (Side::Upper, table.upper(entry)),
    ] {
        bounds.push(Bound {
            claim: Claim { side, entry, value },
            reason: table.reason(side, entry),
        })?;
    }
    Ok(())
}

/// All bounds of a table.
fn bounds_of(alloc: Global, table: &Table) -> Result<Vec<Bound>, AllocError> {
    let mut bounds = Vec::new(alloc);
    bounds.reserve(15_540)?;
    for entry in &table_entries(alloc)? {
        note_entry(table, &mut bounds, *entry)?;
    }
    Ok(bounds)
}

/// The lines of a table.
fn lines_of(alloc: Global, table: &Table) -> Result<Vec<NotedLine>, AllocError> {
    let mut lines = Vec::new(alloc);
    let count = table.line_count();
    lines.reserve(count)?;
    for number in 0..count {
        let line = table.line(number);
        lines.push(NotedLine {
            claim: line.claim,
            rule: line.rule,
            count: line.from.len(),
        })?;
    }
    Ok(lines)
}

/// The numbers of the lines that the lines of a table rest on, in their order.
fn premises_of(alloc: Global, table: &Table) -> Result<Vec<usize>, AllocError> {
    let mut premises = Vec::new(alloc);
    for number in 0..table.line_count() {
        premises.extend_from_slice(table.line(number).from.as_slice())?;
    }
    Ok(premises)
}

/// The entries and the sizes of pieces.
fn pieces_of(alloc: Global, pieces: &[Piece]) -> Result<Vec<NotedPiece>, AllocError> {
    let mut noted = Vec::new(alloc);
    for piece in pieces {
        let (entry, size) = (piece.entry(), piece.size());
        noted.push(NotedPiece { entry, size })?;
    }
    Ok(noted)
}

impl NotedTable {
    /// What the table is. `Err` is want of memory.
    fn of(alloc: Global, table: &Table) -> Result<NotedTable, AllocError> {
        Ok(NotedTable {
            bounds: bounds_of(alloc, table)?,
            lines: lines_of(alloc, table)?,
            premises: premises_of(alloc, table)?,
        })
    }

    /// The first part in which a later note differs, where one does.
    fn difference(&self, later: &NotedTable) -> Option<&'static str> {
        if self.bounds != later.bounds {
            return Some("a bound");
        }
        if self.lines != later.lines {
            return Some("a line");
        }
        if self.premises != later.premises {
            return Some("a premise");
        }
        None
    }
}

impl Noted {
    /// What the ledger is. `Err` is want of memory.
    pub fn of(alloc: Global, ledger: &Ledger) -> Result<Noted, AllocError> {
        let table = NotedTable::of(alloc, ledger.table())?;
        let pieces = pieces_of(alloc, ledger.pieces())?;
        Ok(Noted {
            dump: ledger.dump(alloc)?,
            pieces,
            stored: ledger.stored(),
            supports: ledger.table().supports().len(),
            table,
        })
    }

    /// The first part in which a later note differs, where one does.
    pub fn difference(&self, later: &Noted) -> Option<&'static str> {
        if self.dump != later.dump {
            return Some("a document");
        }
        if self.pieces != later.pieces {
            return Some("a size");
        }
        if self.stored != later.stored || self.supports != later.supports {
            return Some("a number");
        }
        self.table.difference(&later.table)
    }

    /// How many pieces stand.
    pub fn pieces(&self) -> usize {
        self.pieces.len()
    }

    /// How many bounds the table has.
    pub fn bounds(&self) -> usize {
        self.table.bounds.len()
    }
}
