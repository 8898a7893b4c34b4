//! Explanations over pieces of evidence: the parts of pieces, what explains a bound of them, and its document; no table.
#![tactic(auto)]

mod parts;
mod printing;

pub use parts::PartsOfPieces;
pub use printing::print;
