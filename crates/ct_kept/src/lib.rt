//! What a table keeps: the lines of a derivation, and for each slot, which is a side of an entry, its bound and the line that gives it.
#![tactic(auto)]

mod ground;
mod kept;
mod lowering;

pub use kept::{Base, Kept, Saved, Undo};
