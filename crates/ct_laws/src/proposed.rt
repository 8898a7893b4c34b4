//! What a session answers to what `find` writes.

ghost use Rattle.std.specs.Prelude.{◌≡◌, ◌≢◌, ◌≤◌, ℕ, All, AllPairs, List, length, map, false};
ghost use Rattle.std.specs.List.{flat_map};
ghost use Rattle.ct_words.specs.declared.entry.Entry.{Entry};
ghost use Rattle.ct_words.specs.Entry.{IsEntry};
ghost use Rattle.ct_piece.specs.declared.limits.TheConstants.{MAX_PIECES};
ghost use Rattle.ct_session.specs.Run.{IsRun, pieces_of};
ghost use Rattle.ct_laws.specs.Proposed.{AreProposed, taken_text};

/// What `find` writes for different entries of the table, not too many for a ledger, each of which has a dual, is a session in which
/// each submission is accepted, with no other reply; and it leads to a piece of each entry, in their order.
pub fn proposals_are_taken()
    ensures taken { (es : List Entry) (text : List ℕ) → All IsEntry es → AllPairs (λ e f. e ≢ f) es → length es ≤ MAX_PIECES →
        AreProposed es text → IsRun text (flat_map taken_text es) false }
    ensures pieces { (es : List Entry) (text : List ℕ) → All IsEntry es → AllPairs (λ e f. e ≢ f) es → length es ≤ MAX_PIECES →
        AreProposed es text → map (λ p. p.entry) (pieces_of text) ≡ es }
{}
