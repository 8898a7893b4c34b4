//! A piece of evidence that was accepted, its line in a list and its place in a dump; and what pieces that stand are, as definitions: the codes
//! of each, what a submission makes, what a withdrawal leaves or why it leaves all, and that what stands goes on to stand.
#![tactic(auto)]

mod dump;
mod fault;
mod limits;
mod piece;
mod text;

pub use ct_kind::SubmitFault;
pub use dump::put_dump;
pub use fault::WithdrawFault;
pub use limits::{MAX_PIECES, MAX_STORED};
pub use piece::Piece;
pub use text::{put_size, withdraw_refusal};
