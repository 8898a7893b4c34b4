//! Derivations as documents.

ghost use Rattle.std.specs.Prelude.{◌≡◌, ◌++◌, ℕ, List, IfOk, OnOk, map, slice_get};
ghost use Rattle.std.specs.List.{flat_map};
ghost use Rattle.ct_derive.specs.Derivation.{AreOrdered};
ghost use Rattle.ct_derive.specs.Text.{block_text, derivation_text};

use crate::derivation::Derivation;
use crate::text::{put_evidence, put_lines};
use ct_names::Id;
use ct_text::LINE_FEED;
use std::alloc::{AllocError, Global};

/// A piece of evidence as a derivation document shows it.
pub trait ShownPiece {
    ghost id_of: { Self → List ℕ };

    ghost document_of: { Self → List ℕ };

    /// The id under which it was submitted.
    fn id(&self) -> Id
        ensures { result ≡ id_of self.now };

    /// The bytes of its document.
    fn document(&self) -> &[u8]
        ensures { result.now ≡ document_of self.now };
}

/// The ids of the pieces. `Err` is want of memory.
fn ids_of<P: ShownPiece>(alloc: Global, pieces: &[P]) -> Result<Vec<Id>, AllocError>
    ensures { IfOk result (λ ids. ids.items ≡ map P.id_of pieces.now) }
{
    let mut ids = Vec::new(alloc);
    for piece in pieces {
        ids.push(piece.id())?;
    }
    Ok(ids)
}

/// Puts the block of the piece at the place, where there is one, at the end of the text.
fn put_block<P: ShownPiece>(
    alloc: Global,
    text: &mut Vec<u8>,
    pieces: &[P],
    place: u32,
) -> Result<(), AllocError>
    ensures { OnOk result (text.new.items ≡ text.old.items ++ block_text P.id_of P.document_of (slice_get pieces.now place)) }
{
    match pieces.get(place as usize) {
        None => Ok(()),
        Some(piece) => put_evidence(alloc, text, piece.id(), piece.document()),
    }
}

/// Puts the blocks of the pieces at the places at the end of the text.
fn put_blocks<P: ShownPiece>(
    alloc: Global,
    text: &mut Vec<u8>,
    pieces: &[P],
    places: &[u32],
) -> Result<(), AllocError>
    ensures { OnOk result (text.new.items ≡ text.old.items
        ++ flat_map (λ p. block_text P.id_of P.document_of (slice_get pieces.now p)) places.now) }
{
    for place in places {
        put_block(alloc, text, pieces, *place)?;
    }
    Ok(())
}

/// The document of the derivation, over the pieces whose supports its rules name by their places. `Err` is want of memory.
pub fn print<P: ShownPiece>(
    alloc: Global,
    pieces: &[P],
    derivation: &Derivation,
) -> Result<Vec<u8>, AllocError>
    requires { AreOrdered derivation.now.lines }
    ensures { IfOk result (λ text. text.items ≡ derivation_text P.id_of P.document_of pieces.now derivation.now) }
{
    let ids = ids_of(alloc, pieces)?;
    let mut text = Vec::new(alloc);
    text.extend_from_slice(b"derivation")?;
    text.push(LINE_FEED)?;
    put_blocks(alloc, &mut text, pieces, &derivation.pieces)?;
    put_lines(alloc, &mut text, &ids, &derivation.lines)?;
    text.extend_from_slice(b"done")?;
    text.push(LINE_FEED)?;
    Ok(text)
}
