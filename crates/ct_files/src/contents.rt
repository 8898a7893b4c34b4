//! What a document holds.

use ct_kind::Evidence;
use ct_names::Cite;

/// An evidence, and the texts that say where it comes from.
#[derive(Drop)]
pub struct Document {
    /// The evidence.
    pub evidence: Evidence,
    /// What is cited for it, in the order of the document; at most `MAX_CITES` in one that was read.
    pub cites: Vec<Cite>,
}
