//! The calls.

use crate::answer::Answer;
use crate::documents::Stated;
use ct_files::{read_evidence, write_evidence};
use ct_ledger::Ledger;
use ct_names::Id;
use ct_text::Text;
use std::alloc::{AllocError, Global};

/// A call on a ledger.
#[derive(Clone, Copy)]
pub enum Call {
    Submit,
    Admit,
    Withdraw,
    WithdrawAll,
}

impl Call {
    /// Its name.
    pub fn name(self) -> &'static str {
        match self {
            Call::Submit => "submit",
            Call::Admit => "admit",
            Call::Withdraw => "withdraw",
            Call::WithdrawAll => "withdraw_all",
        }
    }
}

/// Admits the evidence of the document, with a document that is written from it. `Err` is want of memory outside the call.
fn admit(alloc: Global, ledger: &mut Ledger, id: Id, document: &str) -> Result<Answer, AllocError> {
    let Ok(evidence) = read_evidence(alloc, document.as_bytes()) else {
        return Err(AllocError);
    };
    let text = Text::from_vec(write_evidence(alloc, &evidence)?);
    Answer::of_submission(alloc, ledger.admit(id, evidence, text))
}

/// Makes the call with the piece: its answer. `Err` is want of memory outside the call.
pub fn make(
    alloc: Global,
    ledger: &mut Ledger,
    call: Call,
    piece: Stated<'_>,
) -> Result<Answer, AllocError> {
    let Some(id) = Id::parse(piece.id.as_bytes()) else {
        return Ok(Answer::NoId);
    };
    match call {
        Call::Submit => {
            Answer::of_submission(alloc, ledger.submit(id, piece.document.as_bytes()))
        }
        Call::Admit => admit(alloc, ledger, id, piece.document),
        Call::Withdraw => Answer::of_withdrawal(alloc, id, ledger.withdraw(id)),
        Call::WithdrawAll => Answer::of_withdrawal_of_all(alloc, id, ledger.withdraw_all(id)),
    }
}
