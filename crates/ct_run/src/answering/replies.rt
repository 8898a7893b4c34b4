//! Replies to single commands over the pieces of a ledger.

ghost use Rattle.std.specs.Prelude.{◌≡◌, ◌≢◌, Some, IfOk, OnOk, OnErr};
ghost use Rattle.std.specs.List.{AllZip};
ghost use Rattle.ct_words.specs.Entry.{IsEntry};
ghost use Rattle.ct_words.specs.TableEntries.{column};
ghost use Rattle.ct_text.specs.EntryNumbers.{named_entry};
ghost use Rattle.ct_commands.specs.declared.command.Command.TheVariants as command;
ghost use Rattle.ct_piece.specs.Submission.{submitted, with_piece};
ghost use Rattle.ct_piece.specs.Withdrawal.{withdrawn, withdrawn_all, left_by};
ghost use Rattle.ct_session.specs.Reply.{IsReply, AreBoundsOf, IsShowReply, IsTableReply, IsExplainReply, pieces_after, submission_reply, withdrawal_reply, withdrawal_all_reply};

use crate::answering::explaining;
use ct_ledger::{Ledger, SubmitFault, WithdrawFault};
use ct_names::Id;
use ct_replies::{Bounds, Refusal, Reply};
use ct_text::{EntryNumbers, TableNumbers, Text};
use ct_words::{Entry, Listed, MAX_N, Side};
use std::alloc::{AllocError, Global};

/// The bounds of an entry of the table.
fn bounds_of(ledger: &Ledger, entry: Entry) -> Bounds
    requires { IsEntry entry }
    ensures { AreBoundsOf ledger.now.pieces entry result }
{
    let table = ledger.table();
    Bounds {
        entry,
        lower: table.lower(entry),
        upper: table.upper(entry),
    }
}

/// The reply to `show`: the bounds of the entry of the table with these numbers, if there is one.
pub fn show(ledger: &Ledger, numbers: EntryNumbers) -> Reply
    ensures { IsShowReply ledger.now.pieces (named_entry numbers) result }
{
    match numbers.entry() {
        Some(entry) => Reply::Shown(bounds_of(ledger, entry)),
        None => Reply::Refused(Refusal::NoEntry),
    }
}

/// The bounds of all entries of a column of the table, in the order of their lengths: none where the column has no entry.
fn column_of(
    alloc: Global,
    ledger: &Ledger,
    numbers: TableNumbers,
) -> Result<Listed<Bounds>, AllocError>
    ensures { IfOk result (λ bounds. AllZip (AreBoundsOf ledger.now.pieces) (column numbers.d numbers.w) bounds) }
{
    let mut list = Vec::new(alloc);
    for n in 1..MAX_N + 1 {
        if let Some(entry) = numbers.entry(n) {
            list.push(bounds_of(ledger, entry))?;
        }
    }
    Ok(Listed::from_vec(list))
}

/// The reply to `table`: the bounds of the column with these numbers, where it has an entry. `Err` is want of memory.
pub fn table(alloc: Global, ledger: &Ledger, numbers: TableNumbers) -> Result<Reply, AllocError>
    ensures { IfOk result (IsTableReply ledger.now.pieces (column numbers.d numbers.w)) }
{
    let bounds = column_of(alloc, ledger, numbers)?;
    if bounds.as_slice().is_empty() {
        Ok(Reply::Refused(Refusal::NoEntry))
    } else {
        Ok(Reply::Table(bounds))
    }
}

/// The reply to `explain`: the document of an explanation of the best bound on this side of the entry of the table with these numbers,
/// if there is one. `Err` is want of memory.
pub fn explanation(
    alloc: Global,
    ledger: &Ledger,
    side: Side,
    numbers: EntryNumbers,
) -> Result<Reply, AllocError>
    ensures { IfOk result (IsExplainReply ledger.now.pieces side (named_entry numbers)) }
{
    let Some(entry) = numbers.entry() else {
        return Ok(Reply::Refused(Refusal::NoEntry));
    };
    let derivation = explaining::explain(alloc, ledger, side, entry)?;
    let document = ct_explain::print(alloc, ledger.pieces(), &derivation)?;
    Ok(Reply::Lines(Text::from_vec(document)))
}

/// Answers a submission: the reply, and the pieces after it. After an `Err`, which is want of memory, the ledger is as before.
fn submit(ledger: &mut Ledger, id: Id, document: Text) -> Result<Reply, AllocError>
    ensures reply { IfOk result (λ reply. reply ≡ submission_reply id (submitted ledger.old.pieces id document)) }
    ensures pieces { OnOk result (ledger.new.pieces ≡ with_piece ledger.old.pieces (submitted ledger.old.pieces id document)) }
    ensures unchanged { OnErr result (ledger.new ≡ ledger.old) }
{
    match ledger.submit_text(id, document) {
        Ok(size) => Ok(Reply::Accepted(id, size)),
        Err(fault) => refused(fault),
    }
}

/// The reply to a submission that has the fault; want of memory is no reply.
fn refused(fault: SubmitFault) -> Result<Reply, AllocError>
    ensures reply { IfOk result (λ reply. (fault ≢ SubmitFault.Memory) × (reply ≡ Reply.Refused (Refusal.Submission fault))) }
{
    if fault.is_memory() {
        return Err(AllocError);
    }
    Ok(Reply::Refused(Refusal::Submission(fault)))
}

/// Answers a submission, if its line is of a form of `submit`. After an `Err`, which is want of memory, the ledger is as before.
pub fn submit_any(ledger: &mut Ledger, id: Option<Id>, document: Text) -> Result<Reply, AllocError>
    ensures reply { IfOk result (IsReply ledger.old.pieces (command.Submission id document)) }
    ensures pieces { OnOk result (ledger.new.pieces ≡ pieces_after ledger.old.pieces (command.Submission id document)) }
    ensures unchanged { OnErr result (ledger.new ≡ ledger.old) }
{
    match id {
        Some(id) => submit(ledger, id, document),
        None => Ok(Reply::Refused(Refusal::NoCommand)),
    }
}

/// Answers a withdrawal: the reply, and the pieces after it. After an `Err`, which is want of memory, the ledger is as before.
pub fn withdraw(ledger: &mut Ledger, id: Id) -> Result<Reply, AllocError>
    ensures reply { IfOk result (λ reply. reply ≡ withdrawal_reply id (withdrawn ledger.old.pieces id)) }
    ensures pieces { OnOk result (ledger.new.pieces ≡ left_by ledger.old.pieces (withdrawn ledger.old.pieces id)) }
    ensures unchanged { OnErr result (ledger.new ≡ ledger.old) }
{
    match ledger.withdraw(id) {
        Ok(()) => Ok(Reply::Withdrawn(id)),
        Err(WithdrawFault::Memory) => Err(AllocError),
        Err(fault) => Ok(Reply::Refused(Refusal::Withdrawal(id, fault))),
    }
}

/// Answers a withdrawal with all that rests on a piece: the reply, and the pieces after it. After an `Err`, which is want of memory,
/// the ledger is as before.
pub fn withdraw_all(ledger: &mut Ledger, id: Id) -> Result<Reply, AllocError>
    ensures reply { IfOk result (λ reply. reply ≡ withdrawal_all_reply id ledger.old.pieces (withdrawn_all ledger.old.pieces id)) }
    ensures pieces { OnOk result (ledger.new.pieces ≡ left_by ledger.old.pieces (withdrawn_all ledger.old.pieces id)) }
    ensures unchanged { OnErr result (ledger.new ≡ ledger.old) }
{
    match ledger.withdraw_all(id) {
        Ok(count) => Ok(Reply::WithdrawnAll(id, count)),
        Err(WithdrawFault::Memory) => Err(AllocError),
        Err(fault) => Ok(Reply::Refused(Refusal::Withdrawal(id, fault))),
    }
}
