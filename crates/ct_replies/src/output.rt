//! Long replies, put out part by part.

ghost use Rattle.ct_io.specs.Buffered.{buffered, IsPut};
ghost use Rattle.ct_replies.specs.LongReply.{long_text};

mod code;
mod dump;
mod word_lines;

use crate::output::code::put_code;
use crate::output::dump::put_dump;
use crate::reply::LongReply;
use ct_io::{Failed, Sink, SinkBuffer};
use ct_piece::Piece;

/// Puts a long reply, where these pieces stand, as `SinkBuffer::put` does.
pub fn put_long<K: Sink>(
    sink: &mut K,
    buffer: &mut SinkBuffer,
    pieces: &[Piece],
    reply: &LongReply,
) -> Result<(), Failed>
    ensures { IsPut (buffered K.holds K.faults sink.old buffer.old)
        (buffered K.holds K.faults sink.new buffer.new) (long_text reply.now pieces.now) result }
{
    match reply {
        LongReply::Dump => put_dump(sink, buffer, pieces),
        LongReply::Code(code) => put_code(sink, buffer, code),
    }
}
