//! Evidence for a bound, as one type; what a kind of it is, whatever it is made of; what it may ask about pieces; and why it is refused.
#![tactic(auto)]

mod evidence;
mod fault;
mod kind;
mod parts;
mod text;

pub use ct_classes::{StatedPartition, WordLists};
pub use evidence::Evidence;
pub use fault::SubmitFault;
pub use kind::{Kind, support_from};
pub use parts::{Found, Partitions};
pub use text::put_named;
