//! The finder: duals of Delsarte's linear program, found by an exact simplex method and checked, and the primals that show them to be least.
#![tactic(auto)]

mod arithmetic;
mod ending;
mod finding;
mod found;
mod opening;
mod pivot;
mod reading;
mod row;
mod running;
mod tableau;

pub use finding::{find, find_weight};
pub use found::{Found, Stop};
