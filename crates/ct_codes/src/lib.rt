//! Codes that are handed in: lists of words and cosets, checked for length, difference, distance and weight.
#![tactic(auto)]

mod across;
mod check;
mod choices;
mod coset;
mod coset_search;
mod groups;
mod light;
mod near;
mod pairs;
mod rows;
mod span;

pub use check::check_words;
pub use coset::{CosetCode, check_cosets};
pub use ct_words::{
    Claim, Code, CodeFault, Entry, MAX_CODE_DISTANCE, MAX_COSET_WORK, MAX_REPRESENTATIVES,
    MAX_WORDS, Scheme, Side,
};
pub use near::first_close;
pub use pairs::first_close_pair;
