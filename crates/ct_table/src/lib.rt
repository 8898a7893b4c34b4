//! The table: for each entry the best bounds that any derivation from its supports gives, kept while supports come and go.
#![tactic(auto)]

mod closing;
mod exchanging;
mod follow;
mod left;
mod start;
mod table;

pub use closing::{Closing, close};
pub use ct_rules::{Line, Rule, Support};
pub use ct_words::{Claim, Side};
pub use table::Table;
