//! Doubly constant weight codes: a bound on how many words there are of two halves, each half of one weight.
#![tactic(auto)]

mod counted;
mod parts;
mod rounds;
mod squares;

pub use rounds::doubly;
