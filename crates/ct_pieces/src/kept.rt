//! Where pieces are found, and their codes: those that are kept beside them, and those that are made where they are needed.

ghost use Rattle.std.specs.Prelude.{◌≡◌, ◌<◌, ◌≤◌, Some, IfOk, IsSome, length, take, []};
ghost use Rattle.ct_piece.specs.Codes.{code_of_place};
ghost use Rattle.ct_piece.specs.Standing.{AreMade};
ghost use Rattle.ct_piece.specs.Inside.Kept.{kept_codes, code_there};
ghost use Rattle.ct_piece.specs.Piece.{place_of_id};

use crate::standing::Standing;
use ct_files::listed_code;
use ct_kind::Found;
use ct_names::Id;
use ct_piece::Piece;
use ct_words::Code;
use std::alloc::{AllocError, Global};

/// The place of the first piece with the id.
pub(crate) fn place_of(pieces: &[Piece], id: Id) -> Option<usize>
    ensures { result ≡ place_of_id id pieces.now }
{
    pieces.iter().position(|piece| piece.id() == id)
}

/// The pieces before a place.
pub(crate) fn pieces_before(pieces: &[Piece], place: usize) -> &[Piece]
    requires { place ≤ length pieces.now }
    ensures { result.now ≡ take place pieces.now }
{
    &pieces[..place]
}

/// The code of the piece at the place, where its kind has one. It is kept, where it is to be.
pub(crate) fn find_code<'a>(
    alloc: Global,
    pieces: &[Piece],
    kept: &'a [Option<Code>],
    place: usize,
) -> Result<Found<'a>, AllocError>
    requires made { AreMade [] pieces.now }
    requires place { place < length pieces.now }
    requires long { length kept.now ≡ length pieces.now }
    requires kept { code_there kept.now place ≡ code_there (kept_codes pieces.now) place }
    ensures { IfOk result (λ found. found ≡ code_of_place pieces.now place) }
{
    if let Some(code) = &kept[place] {
        return Ok(Found::kept(code));
    }
    let made = listed_code(
        alloc,
        &Standing::new(pieces_before(pieces, place)),
        pieces[place].evidence(),
    )?;
    Ok(Found::made(made))
}

/// The code of the piece at the place, whose kind has one, as a code of its own. It is kept, where it is to be.
pub(crate) fn code_at_place(
    alloc: Global,
    pieces: &[Piece],
    kept: &[Option<Code>],
    place: usize,
) -> Result<Code, AllocError>
    requires made { AreMade [] pieces.now }
    requires place { place < length pieces.now }
    requires long { length kept.now ≡ length pieces.now }
    requires kept { code_there kept.now place ≡ code_there (kept_codes pieces.now) place }
    requires coded { IsSome (code_of_place pieces.now place) }
    ensures { IfOk result (λ code. code_of_place pieces.now place ≡ Some code) }
{
    if let Some(code) = &kept[place] {
        return code.try_copy();
    }
    let made = listed_code(
        alloc,
        &Standing::new(pieces_before(pieces, place)),
        pieces[place].evidence(),
    )?;
    let Some(code) = made else { unreachable!() };
    Ok(code)
}
