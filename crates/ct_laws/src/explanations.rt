//! What explanations over pieces are, and that there are some.

ghost use Rattle.std.specs.Prelude.{◌≡◌, ◌↔◌, ℕ, All, Contains, IsTrue, List, Some, slice_get};
ghost use Rattle.ct_words.specs.Claim.{IsTrueClaim};
ghost use Rattle.ct_words.specs.Entry.{IsEntry};
ghost use Rattle.ct_words.specs.declared.claim.Side.{Side};
ghost use Rattle.ct_words.specs.declared.entry.Entry.{Entry};
ghost use Rattle.ct_rule_parts.specs.Slot.{claim_at};
ghost use Rattle.ct_derive.specs.Derivation.{DerivationValue, AreOrdered};
ghost use Rattle.ct_derive.specs.Pieces.{AreEarlier};
ghost use Rattle.ct_files.specs.ByKind.{names};
ghost use Rattle.ct_piece.specs.Piece.{PieceValue};
ghost use Rattle.ct_piece.specs.Standing.{AreStanding};
ghost use Rattle.ct_explain.specs.Explained.{ExplainsBest};
ghost use Rattle.ct_explain.specs.Parts.{part_places, parts_of_each};

/// Over pieces that stand the best bound of each side of each entry of the table has an explanation.
pub fn bounds_are_explained()
    ensures { (pieces : List PieceValue) (side : Side) (e : Entry) → AreStanding pieces → IsEntry e →
        (d : DerivationValue) × ExplainsBest pieces side e d }
{}

/// Where the pieces stand, each claim of an explanation is true, and so is the bound that it explains. Each of its lines names lines
/// before it alone.
pub fn explained_bounds_are_true()
    ensures bound { (pieces : List PieceValue) (side : Side) (e : Entry) (d : DerivationValue) → AreStanding pieces →
        (h : ExplainsBest pieces side e d) → IsTrueClaim (claim_at (side, e) h.value) }
    ensures lines { (pieces : List PieceValue) (side : Side) (e : Entry) (d : DerivationValue) → AreStanding pieces →
        ExplainsBest pieces side e d → All (λ l. IsTrueClaim l.claim) d.lines }
    ensures ordered { (pieces : List PieceValue) (side : Side) (e : Entry) (d : DerivationValue) →
        ExplainsBest pieces side e d → AreOrdered d.lines }
{}

/// The parts of a piece are the pieces whose ids it names; where the pieces stand, they are before it.
pub fn parts_are_named_pieces()
    ensures named { (pieces : List PieceValue) (p : PieceValue) (i : ℕ) → Contains (part_places pieces p) i ↔
        ((q : PieceValue) × (slice_get pieces i ≡ Some q) × IsTrue (names p.evidence q.id)) }
    ensures earlier { (pieces : List PieceValue) → AreStanding pieces → AreEarlier (parts_of_each pieces) }
{}
