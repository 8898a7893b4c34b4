//! The commands of a session.

use ct_names::Id;
use ct_text::{EntryNumbers, TableNumbers, Text};
use ct_words::Side;

/// A command of a session.
#[derive(Drop)]
pub enum Command {
    /// A submission with its whole document: its id, if its line is of a form of `submit`, and the document.
    Submission(Option<Id>, Text),
    /// A submission whose document the input cuts off.
    CutOff,
    /// The withdrawal of the piece with this id.
    Withdraw(Id),
    /// The withdrawal of the piece with this id, and of all that rests on it.
    WithdrawAll(Id),
    /// The bounds of the entry with these numbers.
    Show(EntryNumbers),
    /// The bounds of the entries in the part of the table with these numbers.
    Table(TableNumbers),
    /// An explanation of the bound on this side of the entry with these numbers.
    Explain(Side, EntryNumbers),
    /// The words of a code of the entry with these numbers.
    List(EntryNumbers),
    /// A line for each piece.
    Ledger,
    /// The commands that lead to the pieces.
    Dump,
    /// A line that is no command.
    Unknown,
}
