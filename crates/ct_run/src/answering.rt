//! What answers the commands of a session: a ledger.

ghost use Rattle.std.specs.Prelude.{◌≡◌, IfOk, OnOk, OnErr};
ghost use Rattle.ct_text.specs.EntryNumbers.{named_entry};
ghost use Rattle.ct_session.specs.Reply.{IsReply, IsListReply, pieces_after};
ghost use Rattle.ct_replies.specs.LongReply.{reply_of};

mod explaining;
mod replies;

use ct_commands::Command;
use ct_io::{Failed, Sink, SinkBuffer};
use ct_ledger::Ledger;
use ct_replies::{AnyReply, LongReply, Refusal, Reply, ledger_text, put_long};
use ct_session::Answers;
use ct_text::{EntryNumbers, Text};
pub use explaining::explain;
pub use replies::{explanation, show, submit_any, table, withdraw, withdraw_all};
use std::alloc::{AllocError, Global};
use std::marker::Model;

/// Answers `list`: a code of the entry of the table with these numbers, if there is one, which has as many words as the lower bound says.
/// The ledger stays the same. `Err` is want of memory.
fn list(alloc: Global, ledger: &mut Ledger, numbers: EntryNumbers) -> Result<AnyReply, AllocError>
    ensures reply { IfOk result (λ answer. IsListReply ledger.old.pieces (named_entry numbers) (reply_of answer ledger.new.pieces)) }
    ensures unchanged { ledger.new ≡ ledger.old }
{
    match numbers.entry() {
        Some(entry) => {
            let code = ct_list::list(alloc, ledger, entry)?;
            Ok(AnyReply::Long(LongReply::Code(code)))
        }
        None => Ok(AnyReply::Short(Reply::Refused(Refusal::NoEntry))),
    }
}

/// Answers a command: the reply, and the pieces after it. After an `Err`, which is want of memory, the ledger is as before.
fn answer(alloc: Global, ledger: &mut Ledger, command: Command) -> Result<AnyReply, AllocError>
    ensures reply { IfOk result (λ answer. IsReply ledger.old.pieces command (reply_of answer ledger.new.pieces)) }
    ensures pieces { OnOk result (ledger.new.pieces ≡ pieces_after ledger.old.pieces command) }
    ensures unchanged { OnErr result (ledger.new ≡ ledger.old) }
{
    let reply = match command {
        Command::Submission(id, document) => submit_any(ledger, id, document)?,
        Command::CutOff => Reply::Refused(Refusal::CutOff),
        Command::Withdraw(id) => withdraw(ledger, id)?,
        Command::WithdrawAll(id) => withdraw_all(ledger, id)?,
        Command::Show(numbers) => show(ledger, numbers),
        Command::Table(numbers) => table(alloc, ledger, numbers)?,
        Command::Explain(side, numbers) => explanation(alloc, ledger, side, numbers)?,
        Command::List(numbers) => return list(alloc, ledger, numbers),
        Command::Ledger => {
            let lines = ledger_text(alloc, ledger.pieces())?;
            Reply::Lines(Text::from_vec(lines))
        }
        Command::Dump => return Ok(AnyReply::Long(LongReply::Dump)),
        Command::Unknown => Reply::Refused(Refusal::NoCommand),
    };
    Ok(AnyReply::Short(reply))
}

/// Answers commands by a ledger. Contracts see its pieces.
#[derive(Drop)]
pub(crate) struct LedgerAnswers {
    ledger: Ledger,
}

impl Model for LedgerAnswers {
    ghost use Rattle.std.specs.Prelude.{List};
    ghost use Rattle.ct_piece.specs.Piece.{PieceValue};

    ghost Value = { List PieceValue };

    ghost view = { λ a. a.ledger.pieces };
}

impl LedgerAnswers {
    ghost use Rattle.std.specs.Prelude.{◌≡◌, [], IfOk};

    /// With a ledger that has no piece yet. `Err` is want of memory.
    pub(crate) fn new(alloc: Global) -> Result<LedgerAnswers, AllocError>
        ensures { IfOk result (λ answers. answers ≡ []) }
    {
        Ok(LedgerAnswers {
            ledger: Ledger::new(alloc)?,
        })
    }
}

impl Answers for LedgerAnswers {
    ghost standing = { λ pieces. pieces };

    fn answer(&mut self, alloc: Global, command: Command) -> Result<AnyReply, AllocError> {
        answer(alloc, &mut self.ledger, command)
    }

    fn put_long<K: Sink>(
        &self,
        sink: &mut K,
        buffer: &mut SinkBuffer,
        reply: &LongReply,
    ) -> Result<(), Failed> {
        put_long(sink, buffer, self.ledger.pieces(), reply)
    }
}
