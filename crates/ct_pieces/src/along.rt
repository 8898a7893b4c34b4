//! The pieces that go with one that is withdrawn, because they rest on it, and those that are left without them.

ghost use Rattle.std.specs.Prelude.{◌≡◌, ◌||◌, ◌≤◌, ℕ, List, true, if◌then◌else◌, IfOk, OnOk, length};
ghost use Rattle.std.specs.List.{list_any};
ghost use Rattle.std.specs.Str.{bytes_eq};
ghost use Rattle.ct_files.specs.PartNames.{has_name};
ghost use Rattle.ct_piece.specs.Inside.Unmarked.{unmarked};
ghost use Rattle.ct_files.specs.ByKind.{ids_of_parts};
ghost use Rattle.ct_piece.specs.Piece.{stored_words};
ghost use Rattle.ct_piece.specs.Standing.{AreStanding};
ghost use Rattle.ct_piece.specs.Withdrawal.{marks_along};
ghost use Rattle.ct_piece.specs.declared.limits.TheConstants.{MAX_STORED};

use crate::pieces::stored_by;
use ct_files::has_part;
use ct_names::Id;
use ct_piece::Piece;
use std::alloc::{AllocError, Global};
use std::collections::HashSet;

/// Whether the piece goes where those of the set do: it has the id, or names one of them as a part.
fn goes<'a>(names: &HashSet<&'a [u8]>, piece: &'a Piece, id: Id) -> bool
    ensures { result ≡ (bytes_eq piece.now.id id || list_any (has_name names.now) (ids_of_parts piece.now.evidence)) }
{
    piece.id() == id || has_part(names, piece.evidence())
}

/// Puts the name of the piece to the others. `Err` is want of memory.
fn put_name<'a>(names: &mut HashSet<&'a [u8]>, piece: &'a Piece) -> Result<(), AllocError>
    ensures { OnOk result ((id : List ℕ) → has_name names.new id ≡ (if bytes_eq piece.now.id id then true else has_name names.old id)) }
{
    names.insert(piece.name())?;
    Ok(())
}

/// For each piece, whether it goes with the piece of the id. A part stands before what names it, so one walk finds all that go. `Err` is
/// want of memory.
pub(crate) fn marks_along(alloc: Global, pieces: &[Piece], id: Id) -> Result<Vec<bool>, AllocError>
    requires { AreStanding pieces.now }
    ensures { IfOk result (λ gone. gone.items ≡ marks_along pieces.now id) }
{
    let mut marks = Vec::with_capacity(alloc, pieces.len())?;
    let mut names = HashSet::new(alloc);
    for piece in pieces {
        let gone = goes(&names, piece, id);
        if gone {
            put_name(&mut names, piece)?;
        }
        marks.push(gone)?;
    }
    Ok(marks)
}

/// Leaves out the marked items; the others keep their order.
pub(crate) fn leave_out<T: Drop>(items: &mut Vec<T>, gone: &[bool])
    requires { length gone.now ≡ length items.old.items }
    ensures { items.new.items ≡ unmarked gone.now items.old.items }
{
    let mut left = 0;
    for place in 0..gone.len() {
        if !gone[place] {
            items.swap(left, place);
            left += 1;
        }
    }
    items.truncate(left);
}

/// How many words the pieces store.
pub(crate) fn stored_words(pieces: &[Piece]) -> u64
    requires { stored_words pieces.now ≤ MAX_STORED }
    ensures { result ≡ stored_words pieces.now }
{
    let mut stored = 0;
    for piece in pieces {
        stored += stored_by(piece);
    }
    stored
}
