//! The answers of calls.

use ct_ledger::{SubmitFault, WithdrawFault, submit_refusal, withdraw_refusal};
use ct_names::Id;
use std::alloc::{AllocError, Global};
use std::io;

/// What a call answers.
#[derive(Drop)]
pub enum Answer {
    /// The piece stands, and has a size but for a dual.
    Accepted(Option<u32>),
    /// The piece is gone.
    Withdrawn,
    /// So many pieces are gone.
    WithdrawnAll(u32),
    /// The text of a refusal.
    Refused(Vec<u8>),
    /// Memory ran out.
    Memory,
    /// There was no call, for what should be an id is none.
    NoId,
}

impl Answer {
    /// The answer of a submission. `Err` is want of memory for the text of a refusal.
    pub fn of_submission(
        alloc: Global,
        came: Result<Option<u32>, SubmitFault>,
    ) -> Result<Answer, AllocError> {
        match came {
            Ok(size) => Ok(Answer::Accepted(size)),
            Err(fault) if fault.is_memory() => Ok(Answer::Memory),
            Err(fault) => Ok(Answer::Refused(submit_refusal(alloc, &fault)?)),
        }
    }

    /// The answer of a withdrawal. `Err` is want of memory for the text of a refusal.
    pub fn of_withdrawal(
        alloc: Global,
        id: Id,
        came: Result<(), WithdrawFault>,
    ) -> Result<Answer, AllocError> {
        match came {
            Ok(()) => Ok(Answer::Withdrawn),
            Err(WithdrawFault::Memory) => Ok(Answer::Memory),
            Err(fault) => Ok(Answer::Refused(withdraw_refusal(alloc, id, &fault)?)),
        }
    }

    /// The answer of a withdrawal with all that rests on a piece. `Err` is want of memory for the text of a refusal.
    pub fn of_withdrawal_of_all(
        alloc: Global,
        id: Id,
        came: Result<u32, WithdrawFault>,
    ) -> Result<Answer, AllocError> {
        match came {
            Ok(count) => Ok(Answer::WithdrawnAll(count)),
            Err(fault) => Answer::of_withdrawal(alloc, id, Err(fault)),
        }
    }

    /// Whether the ledger has to be as before.
    pub fn is_fault(&self) -> bool {
        matches!(self, Answer::Refused(_) | Answer::Memory)
    }

    /// Prints it as a line.
    pub fn print(&self, rt: &impl Print) -> io::Result<()> {
        let words = match self {
            Answer::Accepted(Some(size)) => return println!(rt; "accepted size {size}"),
            Answer::Accepted(None) => "accepted",
            Answer::Withdrawn => "withdrawn",
            Answer::WithdrawnAll(count) => return println!(rt; "withdrawn count {count}"),
            Answer::Refused(text) => {
                return println!(rt; "refused {}", str::from_utf8(text).unwrap_or("no text"));
            }
            Answer::Memory => "want of memory",
            Answer::NoId => "no id",
        };
        println!(rt; "{words}")
    }
}
