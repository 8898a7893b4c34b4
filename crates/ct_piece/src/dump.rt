//! The dump of pieces, as a session.

ghost use Rattle.std.specs.Prelude.{◌≡◌, ◌++◌, OnOk};
ghost use Rattle.std.specs.List.{flat_map};
ghost use Rattle.ct_piece.specs.Dump.{piece_dump, dump_text};

use crate::piece::Piece;
use ct_commands::put_submission;
use ct_text::{LINE_FEED, put_number};
use std::alloc::{AllocError, Global};

/// Puts the submissions of the pieces at the end of the text.
fn put_submissions(text: &mut Vec<u8>, pieces: &[Piece]) -> Result<(), AllocError>
    ensures { OnOk result (text.new.items ≡ text.old.items ++ flat_map piece_dump pieces.now) }
{
    for piece in pieces {
        put_submission(text, piece.id().text(), piece.document())?;
    }
    Ok(())
}

/// Puts the dump of the pieces at the end of the text. `Err` is want of memory.
pub fn put_dump(alloc: Global, text: &mut Vec<u8>, pieces: &[Piece]) -> Result<(), AllocError>
    ensures { OnOk result (text.new.items ≡ text.old.items ++ dump_text pieces.now) }
{
    text.extend_from_slice(b"# dump of ")?;
    put_number(alloc, text, pieces.len() as u64)?;
    text.extend_from_slice(b" pieces")?;
    text.push(LINE_FEED)?;
    put_submissions(text, pieces)
}
