//! What the mode `find` promises of what it writes; the functions do nothing.

ghost use Rattle.std.specs.Prelude.{◌≡◌, ◌≢◌, ◌↔◌, ℕ, Bool, ◌<◌, ◌≤◌, ◌/◌, ◌%◌, min, List, [], length, All, IsSome, IsTrue, Some, None, Ok, true};
ghost use Rattle.ct_words.specs.declared.limits.TheConstants.{MAX_BOUND};
ghost use Rattle.ct_io.specs.Lines.{lines_of};
ghost use Rattle.ct_words.specs.declared.entry.Entry.{Entry};
ghost use Rattle.ct_words.specs.Code.{IsTrueUpper};
ghost use Rattle.ct_words.specs.Entry.{IsEntry};
ghost use Rattle.ct_names.specs.Id.{is_id};
ghost use Rattle.ct_duals.specs.declared.dual.Dual.{Dual};
ghost use Rattle.ct_duals.specs.Dual.{IsDual};
ghost use Rattle.ct_duals.specs.Check.{dual_fault};
ghost use Rattle.ct_duals.specs.Bound.{dual_premises, natural};
ghost use Rattle.ct_words.specs.Numbers.{numbers_of, multiplier, combination};
ghost use Rattle.ct_piece.specs.Piece.{PieceValue, stored_words};
ghost use Rattle.ct_piece.specs.Submission.{submitted};
ghost use Rattle.ct_piece.specs.declared.limits.TheConstants.{MAX_PIECES, MAX_STORED};
ghost use Rattle.ct_primal.specs.Primal.{PrimalValue};
ghost use Rattle.ct_finder.specs.Found.{bound_without_allowances, IsShown, IsLeast};
ghost use Rattle.ct_finder.specs.declared.found.Stop.{Stop};
ghost use Rattle.ct_find.specs.Proposal.{find_id, found_dual, stop_for, IsProposal};
ghost use Rattle.ct_find.specs.Reply.{IsFound, DifferInDocuments};
ghost use Rattle.ct_laws.specs.Proposed.{proposed_piece};

/// The dual that is found for an entry of the table is one of this entry, and it is accepted. It speaks of even distances alone exactly
/// where there is no weight and d is even, and allows nothing. Its bound is ⌊f(0)/c_0⌋, limited by `MAX_BOUND`; it rests on no other
/// bound, and no code of the entry has more words. Where the run stopped as least, its primal shows that no accepted dual of the entry
/// with the same mark that allows nothing has a smaller bound. Without weight one is found for each entry.
pub fn found_duals_bound_codes()
    ensures entry { (e : Entry) (d : Dual) → IsEntry e → found_dual e ≡ Some d → d.entry ≡ e }
    ensures form { (e : Entry) (d : Dual) → IsEntry e → found_dual e ≡ Some d → IsDual d }
    ensures accepted { (e : Entry) (d : Dual) → IsEntry e → found_dual e ≡ Some d → dual_fault (numbers_of e) d ≡ None }
    ensures even_distances { (e : Entry) (d : Dual) → IsEntry e → found_dual e ≡ Some d →
        (d.even ≡ true) ↔ ((e.w ≡ None) × (e.d % 2 ≡ 0)) }
    ensures nothing_allowed { (e : Entry) (d : Dual) → IsEntry e → found_dual e ≡ Some d → d.y ≡ [] }
    ensures bound { (e : Entry) (d : Dual) → IsEntry e → found_dual e ≡ Some d →
        bound_without_allowances d ≡ min MAX_BOUND (natural (combination (numbers_of e) d.c 0) / natural (multiplier d.c 0)) }
    ensures shown { (e : Entry) (d : Dual) → IsEntry e → found_dual e ≡ Some d → IsShown (stop_for e) d }
    ensures least { (e : Entry) (d : Dual) (p : PrimalValue) → IsEntry e → found_dual e ≡ Some d → stop_for e ≡ Stop.Least p → IsLeast d }
    ensures no_premises { (e : Entry) (d : Dual) → IsEntry e → found_dual e ≡ Some d → dual_premises d ≡ [] }
    ensures true_upper { (e : Entry) (d : Dual) → IsEntry e → found_dual e ≡ Some d → IsTrueUpper e (bound_without_allowances d) }
    ensures without_weight { (e : Entry) → e.w ≡ None → IsSome (found_dual e) }
{}

/// Two outputs for one input are alike: the replies to a line are equal, or proposals that differ in the bytes of their
/// documents alone, which read alike; and in both some reply is a refusal, or in none.
pub fn outputs_differ_in_documents_alone()
    ensures output { (input output other : List ℕ) (a b : Bool) → IsFound input output a → IsFound input other b →
        DifferInDocuments (lines_of input) output other }
    ensures refused { (input output other : List ℕ) (a b : Bool) → IsFound input output a → IsFound input other b →
        a ≡ b }
{}

/// What is proposed for an entry of the table is accepted: its document, submitted under its id, makes a piece that is the dual, of this
/// entry and without a size. So it is over the empty ledger, and over whatever pieces where none has the id, fewer than `MAX_PIECES`
/// stand and they store no more words than they may. The id is one, and those of different entries differ.
pub fn proposals_are_accepted()
    ensures alone { (e : Entry) (d : Dual) (bound : ℕ) (stop : Stop) (text : List ℕ) (proposal : IsProposal e d bound stop text) →
        IsEntry e → found_dual e ≡ Some d →
        submitted [] (find_id e) proposal.0 ≡ Ok (proposed_piece e d proposal.0) }
    ensures beside { (e : Entry) (d : Dual) (bound : ℕ) (stop : Stop) (text : List ℕ) (proposal : IsProposal e d bound stop text)
        (pieces : List PieceValue) → IsEntry e → found_dual e ≡ Some d →
        All (λ q. q.id ≢ find_id e) pieces → length pieces < MAX_PIECES → stored_words pieces ≤ MAX_STORED →
        submitted pieces (find_id e) proposal.0 ≡ Ok (proposed_piece e d proposal.0) }
    ensures named { (e : Entry) → IsEntry e → IsTrue (is_id (find_id e)) }
    ensures different { (e f : Entry) → IsEntry e → IsEntry f → find_id e ≡ find_id f → e ≡ f }
{}
