//! What the parity of the number of words adds to Delsarte's inequalities.
#![tactic(auto)]

mod sums;

pub use sums::{MAX_ODD, odd_sum};
