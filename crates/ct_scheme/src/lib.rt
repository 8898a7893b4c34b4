//! The two schemes: all words of a length with their distances and the Krawtchouk numbers; those of one weight with half their distances
//! and the Johnson numbers.
#![tactic(auto)]

mod johnson;
mod numbers;

pub use johnson::Johnson;
