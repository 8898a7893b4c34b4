//! The mode `sample`: commands that are made from a number, a ledger that obeys them, and a summary of it.
#![tactic(auto)]

mod command;
mod drawing;
mod laws;
mod random;
mod run;
mod summary;
mod tally;
mod writing;

pub use laws::{known_commands, samples_are_one};
pub use summary::{Summary, sample};
pub use tally::Tally;
pub use writing::write_sample;
