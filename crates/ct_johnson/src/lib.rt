//! Johnson's upper bounds, by counting places and pairs of words both ways.
#![tactic(auto)]

mod cap;
mod columns;
mod places;
mod unrestricted;

pub use columns::{MAX_COUNTED, column_count};
pub use places::{drop_one, drop_zero, split};
pub use unrestricted::{average, elias_bassalygo, johnson, johnson_odd};
