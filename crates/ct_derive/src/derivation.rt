//! Derivations as they are shown.

use ct_rules::Line;
use std::marker::Model;

/// The lines of a derivation, and the places of the pieces of evidence that they need. Contracts see both as lists.
pub struct Derivation {
    /// The places of the pieces that the lines need, ascending.
    pub pieces: Vec<u32>,
    /// The lines.
    pub lines: Vec<Line>,
}

impl Drop for Derivation {
    fn drop(self) {
        let Derivation {
            pieces: _,
            lines: _,
        } = self;
    }
}

impl Model for Derivation {
    ghost use Rattle.ct_derive.specs.Derivation.{DerivationValue};

    ghost Value = { DerivationValue };

    ghost view = { λ d. record { pieces = d.pieces.items; lines = d.lines.items } };
}
