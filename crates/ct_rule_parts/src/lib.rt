//! What the rules of the table are made of, and what evidence gives to them.
#![tactic(auto)]

mod entries;
mod local_dual;
mod number;
mod support;

pub use ct_duals::AcceptedDual;
pub use entries::Entries;
pub use local_dual::LocalDual;
pub use number::{first, second, within_limit};
pub use support::{OddDual, Support, dual_at, dual_behind, local_at, odd_at, size_at};
