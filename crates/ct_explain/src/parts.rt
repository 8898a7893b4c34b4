//! The parts of pieces, as places.

ghost use Rattle.std.specs.Prelude.{◌≡◌, IfOk};
ghost use Rattle.ct_explain.specs.Parts.{part_places, parts_of_each};

use ct_derive::{Parts, PieceParts};
use ct_files::has_parts;
use ct_piece::Piece;
use smallvec::SmallVec;
use std::alloc::{AllocError, Global};
use std::marker::Model;

/// The places of the pieces that the piece names, each of them looked at. `Err` is want of memory.
fn named_places(alloc: Global, pieces: &[Piece], piece: &Piece) -> Result<Parts, AllocError>
    ensures { IfOk result (λ parts. parts ≡ part_places pieces.now piece.now) }
{
    let mut places = SmallVec::new(alloc);
    for (place, other) in pieces.iter().enumerate() {
        if piece.names(other.id()) {
            places.push(place)?;
        }
    }
    Ok(Parts::new(places))
}

/// The places of the pieces that the piece names as its parts. `Err` is want of memory.
fn part_places(alloc: Global, pieces: &[Piece], piece: &Piece) -> Result<Parts, AllocError>
    ensures { IfOk result (λ parts. parts ≡ part_places pieces.now piece.now) }
{
    if !has_parts(piece.evidence()) {
        return Ok(Parts::new(SmallVec::new(alloc)));
    }
    named_places(alloc, pieces, piece)
}

/// Pieces of which the parts are told, each piece's where they are asked for. Contracts see the pieces.
#[derive(Drop)]
pub struct PartsOfPieces<'a> {
    pieces: &'a [Piece],
}

impl<'a> Model for PartsOfPieces<'a> {
    ghost use Rattle.std.specs.Prelude.{List};
    ghost use Rattle.ct_piece.specs.Piece.{PieceValue};

    ghost Value = { List PieceValue };

    ghost view = { λ p. p.pieces.now };
}

impl<'a> PartsOfPieces<'a> {
    /// The parts of these pieces.
    pub fn new(pieces: &'a [Piece]) -> PartsOfPieces<'a>
        ensures { result ≡ pieces.now }
    {
        PartsOfPieces { pieces }
    }
}

impl<'a> PieceParts for PartsOfPieces<'a> {
    ghost parts_of = { parts_of_each };

    fn count(&self) -> usize {
        self.pieces.len()
    }

    fn parts(&self, alloc: Global, place: usize) -> Result<Parts, AllocError> {
        part_places(alloc, self.pieces, &self.pieces[place])
    }
}
