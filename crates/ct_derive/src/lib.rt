//! Explanations of bounds: lines and the pieces that they need, their documents, and the check of a stated line; no table.
#![tactic(auto)]

mod check;
mod class_sizes;
mod derivation;
mod marks;
mod needed;
mod parts;
mod printing;
mod text;

pub use check::{LineFault, add_line, line_fault};
pub use class_sizes::ClassSizes;
pub use derivation::Derivation;
pub use marks::mark;
pub use needed::needed_pieces;
pub use parts::{Parts, PieceParts};
pub use printing::{ShownPiece, print};
