//! The slots of a table, which are the sides of its entries: their numbers and bounds, the supports at an entry, and which slots are still to be
//! looked at.
#![tactic(auto)]

mod bounds;
mod number;
mod places;
mod unsettled;
mod worklist;

pub use bounds::{Bounds, is_better};
pub use number::{ENTRIES, SLOTS, slot_number, slots_have_numbers};
pub use places::{SupportPlaces, entry_of_support, side_of_support};
pub use unsettled::mark_unsettled;
pub use worklist::Worklist;
