//! The code behind a lower bound: the lines of its derivation, as constructions of codes from codes.
#![tactic(auto)]

mod given;
mod kept;
mod listing;
mod parts;
mod rows;

pub use listing::list;
