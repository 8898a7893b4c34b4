//! What the rules give at a slot over the bounds that stand: the best of it, and the slots that are marked for it.
#![tactic(auto)]

mod best;
mod following;
mod juxtaposition;
mod marking;
mod pulling;
mod resting;

pub use best::Best;
pub use marking::mark_dependents;
pub use pulling::{best_offer, given_rule, offer};
