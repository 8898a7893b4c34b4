//! The pieces that stand, as kinds ask about them.

ghost use Rattle.std.specs.Prelude.{◌≡◌, ◌<◌, [], is_some, length, option_map};
ghost use Rattle.std.specs.Option.{ForSome};
ghost use Rattle.ct_build.specs.Build.{shape_of, IsShape};
ghost use Rattle.ct_kind.specs.Named.{is_known, partition_named};
ghost use Rattle.ct_kind.specs.Sound.{AreSound};
ghost use Rattle.ct_piece.specs.Codes.{codes_of, code_of_place};
ghost use Rattle.ct_piece.specs.Standing.{AreMade};

use crate::kept::place_of;
use ct_build::Shape;
use ct_build_files::Codes;
use ct_files::{kind_of, partition_of};
use ct_kind::{Partitions, StatedPartition};
use ct_names::Id;
use ct_piece::Piece;
use std::marker::Model;

/// Whether a piece has the id.
fn is_known(pieces: &[Piece], id: Id) -> bool
    ensures { result ≡ is_known id (codes_of pieces.now) }
{
    match place_of(pieces, id) {
        Some(_place) => true,
        None => false,
    }
}

/// Whether the piece at the place has a code: whether its kind has one.
pub(crate) fn has_code(pieces: &[Piece], place: usize) -> bool
    requires made { AreMade [] pieces.now }
    requires place { place < length pieces.now }
    ensures { result ≡ is_some (code_of_place pieces.now place) }
{
    kind_of(pieces[place].evidence()).has_code
}

/// That the codes of pieces are codes, and their partitions partitions. Nothing is done.
fn are_sound(pieces: &[Piece])
    requires { AreMade [] pieces.now }
    ensures { AreSound (codes_of pieces.now) }
{}

/// The parameters of the code of the piece at the place, where its kind has one. No code is made.
fn shape_at(pieces: &[Piece], place: usize) -> Option<Shape>
    requires made { AreMade [] pieces.now }
    requires place { place < length pieces.now }
    ensures shape { result ≡ option_map shape_of (code_of_place pieces.now place) }
    ensures limits { ForSome result IsShape }
{
    let piece = &pieces[place];
    if !kind_of(piece.evidence()).has_code {
        return None;
    }
    let size = piece.size()?;
    Some(Shape::new(piece.entry(), u64::from(size)))
}

/// The partition that the first piece with the id is, where it is one.
fn find_partition<'a>(pieces: &'a [Piece], id: Id) -> Option<StatedPartition<'a>>
    ensures { result ≡ partition_named id (codes_of pieces.now) }
{
    match place_of(pieces, id) {
        Some(place) => partition_of(pieces[place].evidence()),
        None => None,
    }
}

/// Pieces that are made, each by its document over those before it. Contracts see the pieces.
#[derive(Drop)]
pub(crate) struct Standing<'a> {
    pieces: &'a [Piece],
}

impl<'a> Model for Standing<'a> {
    ghost use Rattle.std.specs.Prelude.{List, []};
    ghost use Rattle.ct_piece.specs.Piece.{PieceValue};
    ghost use Rattle.ct_piece.specs.Standing.{AreMade};

    ghost Value = { List PieceValue };

    ghost view = { λ s. s.pieces.now };

    ghost invariant = { λ s. AreMade [] s.pieces.now };
}

impl<'a> Standing<'a> {
    /// The pieces.
    pub(crate) fn new(pieces: &'a [Piece]) -> Standing<'a>
        requires made { AreMade [] pieces.now }
        ensures { result ≡ pieces.now }
    {
        Standing { pieces }
    }
}

impl<'b> Codes for Standing<'b> {
    ghost use Rattle.ct_piece.specs.Codes.{codes_of};

    ghost known = { λ pieces. codes_of pieces };

    fn is_known(&self, id: Id) -> bool {
        is_known(self.pieces, id)
    }

    fn shape(&self, id: Id) -> Option<Shape> {
        match place_of(self.pieces, id) {
            Some(place) => shape_at(self.pieces, place),
            None => None,
        }
    }
}

impl<'b> Partitions for Standing<'b> {
    ghost use Rattle.ct_piece.specs.Codes.{codes_of};

    ghost known = { λ pieces. codes_of pieces };

    fn is_known(&self, id: Id) -> bool {
        is_known(self.pieces, id)
    }

    fn partition<'a>(&'a self, id: Id) -> Option<StatedPartition<'a>> {
        find_partition(self.pieces, id)
    }

    fn are_sound(&self) {
        are_sound(self.pieces)
    }
}
