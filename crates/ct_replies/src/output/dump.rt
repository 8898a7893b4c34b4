//! The dump of pieces, put out piece by piece.

ghost use Rattle.std.specs.Prelude.{◌++◌, codes};
ghost use Rattle.std.specs.Fmt.{decimal};
ghost use Rattle.std.specs.List.{flat_map};
ghost use Rattle.ct_io.specs.Buffered.{buffered, IsPut};
ghost use Rattle.ct_piece.specs.Dump.{dump_text, piece_dump};

use ct_commands::submission_parts;
use ct_io::{Failed, Sink, SinkBuffer};
use ct_piece::Piece;
use ct_text::{Digits, line_count};

/// Puts the submission of a piece.
fn put_submission<K: Sink>(
    sink: &mut K,
    buffer: &mut SinkBuffer,
    piece: &Piece,
) -> Result<(), Failed>
    ensures { IsPut (buffered K.holds K.faults sink.old buffer.old)
        (buffered K.holds K.faults sink.new buffer.new) (piece_dump piece.now) result }
{
    let id = piece.id();
    let document = piece.document();
    let count = Digits::of(line_count(document));
    let parts = submission_parts(id.text(), count.as_bytes(), document);
    buffer.put_parts(sink, &parts)
}

/// Puts the submissions of the pieces.
fn put_submissions<K: Sink>(
    sink: &mut K,
    buffer: &mut SinkBuffer,
    pieces: &[Piece],
) -> Result<(), Failed>
    ensures { IsPut (buffered K.holds K.faults sink.old buffer.old)
        (buffered K.holds K.faults sink.new buffer.new) (flat_map piece_dump pieces.now) result }
{
    for piece in pieces {
        put_submission(sink, buffer, piece)?;
    }
    Ok(())
}

/// Puts the comment before the submissions of a dump.
fn put_comment<K: Sink>(sink: &mut K, buffer: &mut SinkBuffer, count: usize) -> Result<(), Failed>
    ensures { IsPut (buffered K.holds K.faults sink.old buffer.old)
        (buffered K.holds K.faults sink.new buffer.new) (codes "# dump of " ++ decimal count ++ codes " pieces\n") result }
{
    let count = Digits::of(count as u64);
    let parts: [&[u8]; 3] = [b"# dump of ", count.as_bytes(), b" pieces\n"];
    buffer.put_parts(sink, &parts)
}

/// Puts the dump of the pieces, as `SinkBuffer::put` does: piece by piece, and their documents are not copied whole.
pub(crate) fn put_dump<K: Sink>(
    sink: &mut K,
    buffer: &mut SinkBuffer,
    pieces: &[Piece],
) -> Result<(), Failed>
    ensures { IsPut (buffered K.holds K.faults sink.old buffer.old)
        (buffered K.holds K.faults sink.new buffer.new) (dump_text pieces.now) result }
{
    put_comment(sink, buffer, pieces.len())?;
    put_submissions(sink, buffer, pieces)
}
