//! The verdict on printed derivations.

ghost use Rattle.std.specs.Prelude.{◌≤◌, List, length, All};
ghost use Rattle.ct_words.specs.declared.claim.Side.{Side};
ghost use Rattle.ct_words.specs.declared.entry.Entry.{Entry};
ghost use Rattle.ct_fields.specs.declared.document.TheConstants.{MAX_DOCUMENT};
ghost use Rattle.ct_piece.specs.Piece.{PieceValue};
ghost use Rattle.ct_piece.specs.Standing.{AreStanding};
ghost use Rattle.ct_derive.specs.Derivation.{DerivationValue};
ghost use Rattle.ct_explain.specs.Explained.{ExplainsBest, explanation_text};
ghost use Rattle.ct_verify.specs.Document.{IsVerified};

/// Whatever explanation `explain` gives of a bound over pieces that stand, the document that `print` gives of it is verified. The
/// documents of the pieces are at most `MAX_DOCUMENT` bytes long, as each is that was submitted.
pub fn printed_derivations_are_verified()
    ensures { (pieces : List PieceValue) (side : Side) (e : Entry) (d : DerivationValue) → AreStanding pieces
        → All (λ p. length p.document ≤ MAX_DOCUMENT) pieces → ExplainsBest pieces side e d
        → IsVerified (explanation_text pieces d) }
{}
