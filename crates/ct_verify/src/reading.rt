//! What was read of a derivation document.

use crate::part::Part;
use ct_derive::ClassSizes;
use ct_pieces::Pieces;
use ct_rules::{Line, Support};
use std::marker::Model;

/// What was read of a derivation document. Contracts see the pieces, the lines, and where in the document this is.
#[derive(Drop)]
pub struct Reading {
    pub(crate) pieces: Pieces,
    pub(crate) supports: Vec<Support>,
    pub(crate) sizes: ClassSizes,
    pub(crate) lines: Vec<Line>,
    pub(crate) part: Part,
}

impl Model for Reading {
    ghost use Rattle.std.specs.Prelude.{◌≡◌};
    ghost use Rattle.ct_piece.specs.Supports.{supports_of};
    ghost use Rattle.ct_verify.specs.Inside.Read.{ReadingValue};

    ghost Value = { ReadingValue };

    ghost view = { λ r. record { pieces = r.pieces; lines = r.lines.items; part = r.part } };

    ghost invariant = { λ r. r.supports.items ≡ supports_of r.pieces };
}
