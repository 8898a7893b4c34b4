//! Documents of words and of cosets, read and written.
#![tactic(auto)]

mod cosets;
pub mod cosets_kind;
mod word_fault_text;
mod words;
pub mod words_kind;
mod written;

pub use cosets::cosets_evidence;
pub use word_fault_text::put_code_fault;
pub use words::words_evidence;
pub use written::{cosets_table, words_table};
