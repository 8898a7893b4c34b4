//! A piece of evidence that was accepted.

ghost use Rattle.std.specs.Prelude.{◌≡◌, ◌≤◌, ◌++◌, All, IsTrue, OnOk, IfOk, length};
ghost use Rattle.ct_fields.specs.declared.cites.TheConstants.{MAX_CITES};
ghost use Rattle.ct_names.specs.Cite.{is_cite};
ghost use Rattle.ct_files.specs.Evidence.{IsSound};
ghost use Rattle.ct_files.specs.ByKind.{names};
ghost use Rattle.ct_piece.specs.Text.{piece_text};

use crate::text::put_piece;
use ct_files::{Document, Evidence, names};
use ct_names::{Cite, Id};
use ct_text::Text;
use ct_words::Entry;
use std::alloc::{AllocError, Global};
use std::marker::Model;

/// A piece of evidence that was accepted under an id.
pub struct Piece {
    id: Id,
    document: Text,
    evidence: Evidence,
    cites: Vec<Cite>,
    entry: Entry,
    size: Option<u32>,
}

impl Drop for Piece {
    fn drop(self) {
        let Piece {
            id: _,
            document: _,
            evidence: _,
            cites: _,
            entry: _,
            size: _,
        } = self;
    }
}

impl Model for Piece {
    ghost use Rattle.std.specs.Prelude.{◌≤◌, All, IsTrue, length};
    ghost use Rattle.ct_fields.specs.declared.cites.TheConstants.{MAX_CITES};
    ghost use Rattle.ct_names.specs.Cite.{is_cite};
    ghost use Rattle.ct_files.specs.Evidence.{IsSound};
    ghost use Rattle.ct_piece.specs.Piece.{PieceValue};

    ghost Value = { PieceValue };

    ghost view = { λ p. record { id = p.id; document = p.document; evidence = p.evidence; cites = p.cites.items; entry = p.entry; size = p.size } };

    ghost invariant = { λ p. IsSound p.evidence × (length p.cites.items ≤ MAX_CITES) × All (λ cite. IsTrue (is_cite cite)) p.cites.items };
}

impl Piece {
    /// A piece of these parts.
    pub fn new(id: Id, document: Text, stated: Document, entry: Entry, size: Option<u32>) -> Piece
        requires sound { IsSound stated.evidence }
        requires few { length stated.cites.items ≤ MAX_CITES }
        requires each { All (λ cite. IsTrue (is_cite cite)) stated.cites.items }
        ensures { result ≡ record { id = id; document = document; evidence = stated.evidence; cites = stated.cites.items; entry = entry; size = size } }
    {
        let Document { evidence, cites } = stated;
        Piece {
            id,
            document,
            evidence,
            cites,
            entry,
            size,
        }
    }

    /// The id under which it was submitted.
    pub fn id(&self) -> Id
        ensures { result ≡ self.now.id }
    {
        self.id
    }

    /// The bytes of its id.
    pub fn name(&self) -> &[u8]
        ensures { result.now ≡ self.now.id }
    {
        self.id.text()
    }

    /// What its document states.
    pub fn evidence(&self) -> &Evidence
        ensures evidence { result.now ≡ self.now.evidence }
        ensures sound { IsSound result.now }
    {
        &self.evidence
    }

    /// The texts that its document cites, in the order of the document, at most `MAX_CITES`; none where it has no `cites`.
    pub fn cites(&self) -> &[Cite]
        ensures cites { result.now ≡ self.now.cites }
        ensures few { length result.now ≤ MAX_CITES }
        ensures each { All (λ cite. IsTrue (is_cite cite)) result.now }
    {
        &self.cites
    }

    /// Whether it names the piece of this id as a part of its own.
    pub fn names(&self, id: Id) -> bool
        ensures { result ≡ names self.now.evidence id }
    {
        names(&self.evidence, id)
    }

    /// The entry of the table that it is about.
    pub fn entry(&self) -> Entry
        ensures { result ≡ self.now.entry }
    {
        self.entry
    }

    /// The number of words of its code or of its classes; none for a dual.
    pub fn size(&self) -> Option<u32>
        ensures { result ≡ self.now.size }
    {
        self.size
    }

    /// The bytes of its document, as they were handed in.
    pub fn document(&self) -> &[u8]
        ensures { result.now ≡ self.now.document }
    {
        self.document.bytes()
    }

    /// Its line in a list of pieces, `ID KIND ENTRY`, ` size S` where it has a size, and ` cites C` where it cites C texts, at least one,
    /// without a line feed. `Err` is want of memory.
    pub fn describe(&self, alloc: Global) -> Result<Vec<u8>, AllocError>
        ensures { IfOk result (λ text. text.items ≡ piece_text self.now) }
    {
        let mut text = Vec::new(alloc);
        put_piece(alloc, &mut text, self)?;
        Ok(text)
    }
}
