//! What a submission that is accepted comes to.

use ct_rule_parts::Support;

/// What a submission that is accepted comes to: the size of its piece, where it has one, and what the piece gives to a table.
#[derive(Drop)]
pub struct NewPiece {
    /// The number of words of its code or of its classes; none for a dual.
    pub size: Option<u32>,
    /// What it gives to a table.
    pub support: Support,
}
