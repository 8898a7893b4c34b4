//! The ledger: the pieces of evidence that stand, with the table of the bounds that they give.
#![tactic(auto)]

mod ledger;

pub use ct_files::submit_refusal;
pub use ct_piece::{MAX_PIECES, MAX_STORED, Piece, SubmitFault, WithdrawFault, withdraw_refusal};
pub use ct_pieces::Pieces;
pub use ct_table::Table;
pub use ledger::Ledger;
