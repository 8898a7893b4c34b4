//! What pieces of evidence are called, and the texts that say where they come from.
#![tactic(auto)]

mod cite;
mod id;

pub use cite::{Cite, MAX_CITE, is_cite};
pub use id::{Id, MAX_ID};
