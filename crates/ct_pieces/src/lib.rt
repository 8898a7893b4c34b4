//! The pieces of evidence that were accepted and not withdrawn, and how a piece comes and goes; no table of what they give is
//! kept.
#![tactic(auto)]

mod along;
mod builds;
mod check;
mod kept;
mod kinds;
mod new_piece;
mod pieces;
mod standing;

pub use new_piece::NewPiece;
pub use pieces::Pieces;
