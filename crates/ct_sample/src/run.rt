//! The run of the sample: a ledger that obeys its commands.

ghost use Rattle.std.specs.Prelude.{◌≡◌, ◌≢◌, ◌≤◌, ◌<◌, ◌+◌, ◌^◌, [], IfOk, OnOk, Some, IfSome, Ok, false, is_ok, length};
ghost use Rattle.ct_files.specs.Document.{document_read_of, without_cites};
ghost use Rattle.ct_files.specs.Evidence.{IsSound};
ghost use Rattle.ct_piece.specs.Submission.{submitted, with_piece};
ghost use Rattle.ct_piece.specs.Supports.{supports_of};
ghost use Rattle.ct_piece.specs.Withdrawal.{withdrawn, left_by};
ghost use Rattle.ct_sample.specs.Run.{without_documents, made_without_document, after_submission, after_withdrawal, after_command, no_commands, run_to};
ghost use Rattle.ct_sample.specs.Inside.Sound.{IsSoundCommand};

use crate::command::{Command, command_of};
use crate::random::next;
use ct_files::write_evidence;
use ct_kind::Evidence;
use ct_ledger::{Ledger, MAX_PIECES, Piece, SubmitFault, Table, WithdrawFault};
use ct_names::Id;
use ct_text::Text;
use std::alloc::{AllocError, Global};
use std::marker::Model;

/// A ledger that obeyed commands of the sample, and the counts of those that it followed. Contracts see its pieces without
/// their documents, and the counts.
#[derive(Drop)]
pub(crate) struct Run {
    ledger: Ledger,
    accepted: u32,
    withdrawn: u32,
}

impl Model for Run {
    ghost use Rattle.ct_sample.specs.Run.{RunValue, without_documents};

    ghost Value = { RunValue };

    ghost view = { λ r. record { pieces = without_documents r.ledger.pieces; accepted = r.accepted; withdrawn = r.withdrawn } };
}

/// Submits evidence with a document without cites that reads as it: whether it is accepted. `Err` is want of memory.
fn submit_evidence(
    ledger: &mut Ledger,
    id: Id,
    evidence: Evidence,
    document: Text,
) -> Result<bool, AllocError>
    requires read { document_read_of document ≡ Ok (without_cites evidence) }
    ensures accepted { IfOk result (λ accepted. accepted ≡ is_ok (submitted ledger.old.pieces id document)) }
    ensures pieces { OnOk result (ledger.new.pieces ≡ with_piece ledger.old.pieces (submitted ledger.old.pieces id document)) }
{
    match ledger.admit(id, evidence, document) {
        Ok(_) => Ok(true),
        Err(fault) => refused(fault),
    }
}

/// Nothing is accepted where there is a fault; want of memory is no fault.
fn refused(fault: SubmitFault) -> Result<bool, AllocError>
    ensures { IfOk result (λ accepted. (fault ≢ SubmitFault.Memory) × (accepted ≡ false)) }
{
    if fault.is_memory() {
        return Err(AllocError);
    }
    Ok(false)
}

/// Withdraws the piece of the id: whether it is withdrawn. `Err` is want of memory.
fn withdraw_piece(ledger: &mut Ledger, id: Id) -> Result<bool, AllocError>
    ensures withdrawn { IfOk result (λ left. left ≡ is_ok (withdrawn ledger.old.pieces id)) }
    ensures pieces { OnOk result (ledger.new.pieces ≡ left_by ledger.old.pieces (withdrawn ledger.old.pieces id)) }
{
    match ledger.withdraw(id) {
        Ok(()) => Ok(true),
        Err(WithdrawFault::Memory) => Err(AllocError),
        Err(_) => Ok(false),
    }
}

impl Run {
    /// An empty ledger, before the first command. `Err` is want of memory.
    pub(crate) fn new(alloc: Global) -> Result<Run, AllocError>
        ensures { IfOk result (λ run. run ≡ no_commands) }
    {
        Ok(Run {
            ledger: Ledger::new(alloc)?,
            accepted: 0,
            withdrawn: 0,
        })
    }

    /// Submits the evidence under the id, with a document that is written from it. `Err` is want of memory.
    fn submit(&mut self, alloc: Global, id: Id, evidence: Evidence) -> Result<(), AllocError>
        requires sound { IsSound evidence }
        requires room { self.old.accepted + 1 < 2 ^ 32 }
        ensures { OnOk result (self.new ≡ after_submission self.old (made_without_document self.old.pieces id evidence)) }
    {
        let document = Text::from_vec(write_evidence(alloc, &evidence)?);
        let accepted = submit_evidence(&mut self.ledger, id, evidence, document)?;
        self.accepted += u32::from(accepted);
        Ok(())
    }

    /// Withdraws the piece of the id. `Err` is want of memory.
    fn withdraw(&mut self, id: Id) -> Result<(), AllocError>
        requires room { self.old.withdrawn + 1 < 2 ^ 32 }
        ensures { OnOk result (self.new ≡ after_withdrawal self.old (withdrawn self.old.pieces id)) }
    {
        let left = withdraw_piece(&mut self.ledger, id)?;
        self.withdrawn += u32::from(left);
        Ok(())
    }

    /// Applies the command. `Err` is want of memory.
    fn apply(&mut self, alloc: Global, command: Command) -> Result<(), AllocError>
        requires sound { IsSoundCommand command }
        requires room { self.old.accepted + self.old.withdrawn + 1 < 2 ^ 32 }
        ensures { OnOk result (self.new ≡ after_command self.old (Some command)) }
    {
        match command {
            Command::Submit(id, evidence) => self.submit(alloc, id, evidence),
            Command::Withdraw(id) => self.withdraw(id),
        }
    }

    /// Applies the command, where there is one. `Err` is want of memory.
    fn apply_if_any(&mut self, alloc: Global, command: Option<Command>) -> Result<(), AllocError>
        requires sound { IfSome command IsSoundCommand }
        requires room { self.old.accepted + self.old.withdrawn + 1 < 2 ^ 32 }
        ensures { OnOk result (self.new ≡ after_command self.old command) }
    {
        match command {
            Some(command) => self.apply(alloc, command),
            None => Ok(()),
        }
    }

    /// Applies the commands of the sample of so many, before which there was none. `Err` is want of memory.
    pub(crate) fn obey(&mut self, alloc: Global, number: u32) -> Result<(), AllocError>
        requires { self.old ≡ no_commands }
        ensures { OnOk result (self.new ≡ run_to number number) }
    {
        let mut seed = u64::from(number);
        for before in 0..number {
            seed = next(seed);
            let h = (seed / 65536) as u32;
            let command = command_of(alloc, before + 1, h, self.pieces())?;
            self.apply_if_any(alloc, command)?;
        }
        Ok(())
    }

    /// The pieces that stand.
    fn pieces(&self) -> &[Piece]
        ensures { without_documents result.now ≡ self.now.pieces }
    {
        self.ledger.pieces()
    }

    /// The table of the bounds of its pieces.
    pub(crate) fn table(&self) -> &Table
        ensures { result.now.supports ≡ supports_of self.now.pieces }
    {
        self.ledger.table()
    }

    /// How many pieces stand.
    pub(crate) fn standing(&self) -> usize
        ensures count { result ≡ length self.now.pieces }
        ensures few { result ≤ MAX_PIECES }
    {
        self.ledger.pieces().len()
    }

    /// How many submissions were accepted.
    pub(crate) fn accepted(&self) -> u32
        ensures { result ≡ self.now.accepted }
    {
        self.accepted
    }

    /// How many withdrawals were made.
    pub(crate) fn withdrawn(&self) -> u32
        ensures { result ≡ self.now.withdrawn }
    {
        self.withdrawn
    }
}
