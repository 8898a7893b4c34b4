//! The mode `find`: entries that come from a source, and duals that are proposed for them, as submissions that a sink gets.
#![tactic(auto)]

mod found;
mod proposal;
mod reply;
mod source;

pub use found::MAX_PIVOTS;
pub use source::find_source;
