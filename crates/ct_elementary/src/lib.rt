//! Elementary upper bounds on the size of a code without weight: far apart, Plotkin's and Hamming's.
#![tactic(auto)]

mod bounds;

pub use bounds::{far, plotkin, sphere_packing};
