//! What the dump of a ledger leads to.

ghost use Rattle.std.specs.Prelude.{◌≡◌, ℕ, ◌≤◌, List, length, All, false};
ghost use Rattle.std.specs.List.{flat_map};
ghost use Rattle.ct_fields.specs.declared.document.TheConstants.{MAX_DOCUMENT};
ghost use Rattle.ct_piece.specs.Piece.{PieceValue};
ghost use Rattle.ct_piece.specs.Standing.{AreStanding};
ghost use Rattle.ct_piece.specs.Dump.{dump_text};
ghost use Rattle.ct_session.specs.Run.{IsRun, pieces_of};
ghost use Rattle.ct_laws.specs.Acceptance.{acceptance_text};

/// The dump of pieces that stand leads to the same pieces, in the same order, and each of them is accepted, with no other reply: a
/// ledger is saved by `dump`, and comes back when its dump is the input of a session. Their documents are at most
/// `MAX_DOCUMENT` bytes long, as each is that was submitted, and so those of the pieces that an input leads to.
pub fn dumps_lead_back()
    ensures pieces { (pieces : List PieceValue) → AreStanding pieces → All (λ p. length p.document ≤ MAX_DOCUMENT) pieces
        → pieces_of (dump_text pieces) ≡ pieces }
    ensures accepted { (pieces : List PieceValue) → AreStanding pieces → All (λ p. length p.document ≤ MAX_DOCUMENT) pieces
        → IsRun (dump_text pieces) (flat_map acceptance_text pieces) false }
    ensures of_input { (input : List ℕ) → pieces_of (dump_text (pieces_of input)) ≡ pieces_of input }
    ensures run { (input : List ℕ)
        → IsRun (dump_text (pieces_of input)) (flat_map acceptance_text (pieces_of input)) false }
{}
