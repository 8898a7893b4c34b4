//! What answers commands.

ghost use Rattle.std.specs.Prelude.{◌≡◌, List, IfOk, OnOk};
ghost use Rattle.ct_io.specs.Buffered.{buffered, IsPut};
ghost use Rattle.ct_piece.specs.Piece.{PieceValue};
ghost use Rattle.ct_replies.specs.LongReply.{long_text, reply_of};
ghost use Rattle.ct_session.specs.Reply.{IsReply, pieces_after};

use ct_commands::Command;
use ct_io::{Failed, Sink, SinkBuffer};
use ct_replies::{AnyReply, LongReply};
use std::alloc::{AllocError, Global};

/// What answers commands over the pieces that it holds, each as it is to be answered.
pub trait Answers: Drop {
    // The pieces that stand.
    ghost standing: { Self → List PieceValue };

    /// Answers a command: the reply, and the pieces after it. `Err` is want of memory.
    fn answer(&mut self, alloc: Global, command: Command) -> Result<AnyReply, AllocError>
        ensures reply { IfOk result (λ answer. IsReply (standing self.old) command (reply_of answer (standing self.new))) }
        ensures pieces { OnOk result (standing self.new ≡ pieces_after (standing self.old) command) };

    /// Puts a long reply, as `SinkBuffer::put` does. It takes no memory.
    fn put_long<K: Sink>(
        &self,
        sink: &mut K,
        buffer: &mut SinkBuffer,
        reply: &LongReply,
    ) -> Result<(), Failed>
        ensures { IsPut (buffered K.holds K.faults sink.old buffer.old)
            (buffered K.holds K.faults sink.new buffer.new) (long_text reply.now (standing self.now)) result };
}
