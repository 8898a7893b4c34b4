//! The bounds of a table followed to their reasons: the lines that a bound needs, by themselves, and the pieces that these need.
#![tactic(auto)]

mod explaining;
mod marking;
mod pruning;

pub use explaining::{explain, lines_to};
