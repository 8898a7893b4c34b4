//! Explanations as documents.

ghost use Rattle.std.specs.Prelude.{◌≡◌, IfOk};
ghost use Rattle.ct_derive.specs.Derivation.{AreOrdered};
ghost use Rattle.ct_explain.specs.Explained.{explanation_text};

use ct_derive::{Derivation, ShownPiece};
use ct_names::Id;
use ct_piece::Piece;
use std::alloc::{AllocError, Global};
use std::marker::Model;

/// A piece of a ledger as a derivation document shows it. Contracts see the piece.
#[derive(Drop)]
struct Shown<'a> {
    piece: &'a Piece,
}

impl<'a> Model for Shown<'a> {
    ghost use Rattle.ct_piece.specs.Piece.{PieceValue};

    ghost Value = { PieceValue };

    ghost view = { λ s. s.piece.now };
}

impl<'a> ShownPiece for Shown<'a> {
    ghost id_of = { λ p. p.id };

    ghost document_of = { λ p. p.document };

    fn id(&self) -> Id {
        self.piece.id()
    }

    fn document(&self) -> &[u8] {
        self.piece.document()
    }
}

/// The pieces as a derivation document shows them. `Err` is want of memory.
fn shown_pieces<'a>(alloc: Global, pieces: &'a [Piece]) -> Result<Vec<Shown<'a>>, AllocError>
    ensures { IfOk result (λ shown. shown.items ≡ pieces.now) }
{
    let mut shown = Vec::new(alloc);
    for piece in pieces {
        shown.push(Shown { piece })?;
    }
    Ok(shown)
}

/// The document of a derivation over the pieces: those that it needs with their own ids, each with its document byte for byte, and its
/// lines. `Err` is want of memory.
pub fn print(
    alloc: Global,
    pieces: &[Piece],
    derivation: &Derivation,
) -> Result<Vec<u8>, AllocError>
    requires { AreOrdered derivation.now.lines }
    ensures { IfOk result (λ text. text.items ≡ explanation_text pieces.now derivation.now) }
{
    let shown = shown_pieces(alloc, pieces)?;
    ct_derive::print(alloc, &shown, derivation)
}
