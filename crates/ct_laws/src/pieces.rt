//! Facts about every submission.

ghost use Rattle.std.specs.Prelude.{◌≡◌, ◌≢◌, ◌↔◌, ℕ, ◌+◌, ◌≤◌, List, length, Option, Ok, Err, Some, None, All, Contains, IfSome, IsSome, IsTrue, map, slice_get, Bool, true};
ghost use Rattle.std.specs.List.Sorted.{IsPermutation, IsSorted};
ghost use Rattle.std.specs.Ordering.{nat_cmp};
ghost use Rattle.ct_words.specs.declared.entry.Entry.{Entry};
ghost use Rattle.ct_build.specs.declared.step.Step.{Step};
ghost use Rattle.ct_classes.specs.Partition.{words_of_classes};
ghost use Rattle.ct_duals.specs.declared.dual.Dual.{Dual};
ghost use Rattle.ct_words.specs.Numbers.{numbers_of, combination};
ghost use Rattle.ct_kind.specs.declared.evidence.Evidence.TheVariants as evidence;
ghost use Rattle.ct_words.specs.Code.{IsSoundCode};
ghost use Rattle.ct_fields.specs.declared.document.TheConstants.{MAX_DOCUMENT};
ghost use Rattle.ct_piece.specs.Codes.{codes_of, code_of_place};
ghost use Rattle.ct_piece.specs.Piece.{PieceValue, has_id};
ghost use Rattle.ct_kind.specs.Ascending.{ascending};
ghost use Rattle.ct_files.specs.ByKind.{kind_of, has_code, own_reason, IsChecked, names};
ghost use Rattle.ct_laws.specs.OwnRefusal.{IsOwnRefusal};
ghost use Rattle.ct_kind.specs.KindParts.{stored_for};
ghost use Rattle.ct_kind.specs.Named.{NamedCode};
ghost use Rattle.ct_laws.specs.Refusals.{IsRefused, IsNotWithdrawn};
ghost use Rattle.ct_piece.specs.Withdrawal.{withdrawn, withdrawn_all, taken_along, is_id_among, IsTakenAlong};
ghost use Rattle.ct_piece.specs.declared.limits.TheConstants.{MAX_PIECES, MAX_STORED};
ghost use Rattle.ct_piece.specs.declared.fault.WithdrawFault.{WithdrawFault};
ghost use Rattle.ct_piece.specs.declared.fault.WithdrawFault.TheVariants as withdraw;
ghost use Rattle.ct_piece.specs.Standing.{AreStanding};
ghost use Rattle.ct_fields.specs.declared.fault.DocumentFault.{DocumentFault};
ghost use Rattle.ct_kind.specs.declared.evidence.Evidence.{Evidence};
ghost use Rattle.ct_fields.specs.Cites.{IsCites};
ghost use Rattle.ct_files.specs.Document.{DocumentValue, document_read_of};
ghost use Rattle.ct_files.specs.Evidence.{read_of, IsSound};
ghost use Rattle.ct_laws.specs.Citing.{made_recited, uncited};
ghost use Rattle.ct_piece.specs.Submission.{submitted, IsAccepted};
ghost use Rattle.ct_piece.specs.Supports.{support_of, supports_of};
ghost use Rattle.ct_kind.specs.declared.fault.SubmitFault.{SubmitFault};
ghost use Rattle.ct_kind.specs.declared.fault.SubmitFault.TheVariants as fault;
ghost use Rattle.ct_rule_parts.specs.declared.support.Support.TheVariants.{Bound, Odd, Local};
ghost use Rattle.ct_rule_parts.specs.Support.{AllStand};

/// A submission over pieces that stand makes a piece exactly where its id is free, there is room, each part that its
/// document names stands and is right, the document states a code of its entry, whose check is within the limit, a partition, or
/// a dual whose f is nowhere above what is allowed, and the words of the piece may be stored beside the others.
pub fn submissions_that_are_accepted()
    ensures accepted { (pieces : List PieceValue) (id document : List ℕ) (p : PieceValue) → AreStanding pieces
        → (submitted pieces id document ≡ Ok p) ↔ IsAccepted pieces id document p }
    ensures within { (pieces : List PieceValue) (id document : List ℕ) (p : PieceValue)
        → submitted pieces id document ≡ Ok p → length document ≤ MAX_DOCUMENT }
    ensures taken_ids { (id : List ℕ) (pieces : List PieceValue)
        → IsTrue (has_id id pieces) ↔ Contains (map (λ p. p.id) pieces) id }
{}

/// Why a submission is refused: each reason comes exactly where it is the first, in the order in which `SubmitFault` names them. Its id
/// stands; so many pieces do that there is no room; the document has a fault of its own; it names a part that does not stand; a part,
/// the words, the classes, the step, the product or the dual is refused by the kind's own check; the words would be too many.
pub fn refusals_in_order()
    ensures { (pieces : List PieceValue) (id document : List ℕ) (reason : SubmitFault)
        → (submitted pieces id document ≡ Err reason) ↔ IsRefused pieces id document reason }
{}

/// Why a kind has a reason of its own against evidence, over the codes and partitions that it may name: exactly where the plain condition of
/// the reason holds, and where that of no reason before it does. It has none against evidence that was read exactly where this is as the
/// kind asks.
pub fn reasons_of_kinds()
    ensures reason { (known : List NamedCode) (evidence : Evidence) (reason : SubmitFault)
        → (own_reason known evidence ≡ Some reason) ↔ IsOwnRefusal known evidence reason }
    ensures none { (known : List NamedCode) (evidence : Evidence) → IsSound evidence
        → (own_reason known evidence ≡ None) ↔ IsChecked known evidence }
{}

/// A submission whose document is read is refused by no fault of the document, so neither is evidence that is admitted with it.
pub fn evidence_that_is_admitted()
    ensures { (pieces : List PieceValue) (id document : List ℕ) (evidence : Evidence) (reason : DocumentFault)
        → read_of document ≡ Ok evidence → submitted pieces id document ≢ Err (fault.File reason) }
{}

/// Why a withdrawal takes nothing out: no piece has the id; or a piece names it, and then the first that does is told.
pub fn withdrawals_that_are_refused()
    ensures { (pieces : List PieceValue) (id : List ℕ) (reason : WithdrawFault)
        → (withdrawn pieces id ≡ Err reason) ↔ IsNotWithdrawn pieces id reason }
{}

/// What a withdrawal with all that rests on a piece takes out: the pieces of the least set of places that holds the one of the id and
/// each one whose piece names one of the set. It is refused exactly where no piece has the id, and the pieces that it leaves stand.
pub fn pieces_taken_along()
    ensures taken { (pieces : List PieceValue) (id : List ℕ) (i : ℕ) (p : PieceValue) → AreStanding pieces → slice_get pieces i ≡ Some p
        → (is_id_among (taken_along pieces id) p.id ≡ true) ↔ IsTakenAlong pieces id i }
    ensures least { (pieces : List PieceValue) (id : List ℕ) (places : ℕ → Bool)
        → ((i : ℕ) (p : PieceValue) → slice_get pieces i ≡ Some p → p.id ≡ id → places i ≡ true)
        → ((i j : ℕ) (p q : PieceValue) → slice_get pieces i ≡ Some p → slice_get pieces j ≡ Some q → names p.evidence q.id ≡ true
        → places j ≡ true → places i ≡ true)
        → (i : ℕ) → IsTakenAlong pieces id i → places i ≡ true }
    ensures refused { (pieces : List PieceValue) (id : List ℕ) (reason : WithdrawFault)
        → (withdrawn_all pieces id ≡ Err reason) ↔ ((reason ≡ withdraw.NoSuch) × All (λ q. q.id ≢ id) pieces) }
    ensures stand { (pieces left : List PieceValue) (id : List ℕ) → AreStanding pieces → withdrawn_all pieces id ≡ Ok left → AreStanding left }
{}

/// What a piece cites is what its document does, at most `MAX_CITES` texts, and is kept alone: a document of the same evidence makes the same piece
/// or is refused for the same reason, whatever it cites; and submissions, what goes with a piece, and the table are the same where no piece
/// cites anything.
pub fn cites_are_kept()
    ensures kept { (pieces : List PieceValue) (id document : List ℕ) (p : PieceValue) → submitted pieces id document ≡ Ok p
        → (stated : DocumentValue) × (document_read_of document ≡ Ok stated) × (p.cites ≡ stated.cites) }
    ensures right { (pieces : List PieceValue) → AreStanding pieces → All (λ p. IsCites p.cites) pieces }
    ensures alike { (pieces : List PieceValue) (id document other : List ℕ) (stated another : DocumentValue)
        → document_read_of document ≡ Ok stated → document_read_of other ≡ Ok another → stated.evidence ≡ another.evidence
        → submitted pieces id other ≡ made_recited other another.cites (submitted pieces id document) }
    ensures submissions { (pieces : List PieceValue) (id document : List ℕ)
        → submitted (uncited pieces) id document ≡ submitted pieces id document }
    ensures along { (pieces : List PieceValue) (id : List ℕ) → taken_along (uncited pieces) id ≡ taken_along pieces id }
    ensures supports { (pieces : List PieceValue) → supports_of (uncited pieces) ≡ supports_of pieces }
{}

/// The words that a piece stores, by its kind: those of its document, a basis and representatives or the words of all classes among them,
/// and of a build those of its code. A product and a dual store none. A ledger has at most 1,000 pieces, and they store at most 1,000,000 words.
pub fn stored_words_by_kind()
    ensures words { (e : Entry) (words : List ℕ) (size : Option ℕ)
        → stored_for (kind_of (evidence.Words e words)) size ≡ length words }
    ensures cosets { (e : Entry) (basis representatives : List ℕ) (size : Option ℕ)
        → stored_for (kind_of (evidence.Cosets e basis representatives)) size ≡ length basis + length representatives }
    ensures build { (e : Entry) (step : Step) (part : List ℕ) (other : Option (List ℕ)) (size : ℕ)
        → stored_for (kind_of (evidence.Build e step part other)) (Some size) ≡ size }
    ensures partition { (e : Entry) (between : ℕ) (classes : List (List ℕ)) (size : Option ℕ)
        → stored_for (kind_of (evidence.Partition e between classes)) size ≡ length (words_of_classes classes) }
    ensures product { (e : Entry) (pairs : List (List ℕ × List ℕ)) (size : Option ℕ)
        → stored_for (kind_of (evidence.Product e pairs)) size ≡ 0 }
    ensures dual { (d : Dual) (size : Option ℕ) → stored_for (kind_of (evidence.Dual d)) size ≡ 0 }
    ensures johnson_dual { (d : Dual) (size : Option ℕ) → stored_for (kind_of (evidence.JohnsonDual d)) size ≡ 0 }
    ensures odd { (d : Dual) (m : ℕ) (size : Option ℕ) → stored_for (kind_of (evidence.Odd d m)) size ≡ 0 }
    ensures local { (d : Dual) (size : Option ℕ) → stored_for (kind_of (evidence.JohnsonLocal d)) size ≡ 0 }
    ensures pieces { MAX_PIECES ≡ 1000 }
    ensures limit { MAX_STORED ≡ 1000000 }
{}

/// Numbers put into ascending order: the same numbers, each as often, and none before a smaller one.
pub fn ascending_numbers()
    ensures numbers { (xs : List ℕ) → IsPermutation xs (ascending xs) }
    ensures order { (xs : List ℕ) → IsSorted nat_cmp (ascending xs) }
{}

/// The codes of pieces that stand are codes, each of its piece's id, and in the order of the pieces. A piece has one exactly where its
/// kind has.
pub fn pieces_have_codes()
    ensures codes { (pieces : List PieceValue) → AreStanding pieces → All (λ k. IfSome k.code IsSoundCode) (codes_of pieces) }
    ensures ids { (pieces : List PieceValue) → map (λ k. k.id) (codes_of pieces) ≡ map (λ p. p.id) pieces }
    ensures each { (pieces : List PieceValue) (place : ℕ) (p : PieceValue) → AreStanding pieces → slice_get pieces place ≡ Some p
        → (IsSome (code_of_place pieces place) ↔ IsTrue (has_code p.evidence)) }
{}

/// What pieces that stand give to the table stands: each size is that of a code of its entry, from 1 to `MAX_BOUND`.
pub fn pieces_give_supports()
    ensures { (pieces : List PieceValue) → AreStanding pieces → AllStand (supports_of pieces) }
{}

/// A piece that stands and is a dual, without weight or with one, gives its bound to the table: the dual with its f(0). One with a number
/// of words gives that parity may exclude so many by it: the dual with its f(0), and the number. One of kind jlocal gives its local bound.
pub fn duals_give_their_bounds()
    ensures plain { (pieces : List PieceValue) (place : ℕ) (p : PieceValue) (d : Dual) → AreStanding pieces
        → slice_get pieces place ≡ Some p → p.evidence ≡ evidence.Dual d
        → support_of p ≡ Bound (record { dual = d; at_zero = combination (numbers_of d.entry) d.c 0 }) }
    ensures weighted { (pieces : List PieceValue) (place : ℕ) (p : PieceValue) (d : Dual) → AreStanding pieces
        → slice_get pieces place ≡ Some p → p.evidence ≡ evidence.JohnsonDual d
        → support_of p ≡ Bound (record { dual = d; at_zero = combination (numbers_of d.entry) d.c 0 }) }
    ensures odd { (pieces : List PieceValue) (place : ℕ) (p : PieceValue) (d : Dual) (m : ℕ) → AreStanding pieces
        → slice_get pieces place ≡ Some p → p.evidence ≡ evidence.Odd d m
        → support_of p ≡ Odd (record { dual = d; at_zero = combination (numbers_of d.entry) d.c 0 }) m }
    ensures local { (pieces : List PieceValue) (place : ℕ) (p : PieceValue) (d : Dual) → AreStanding pieces
        → slice_get pieces place ≡ Some p → p.evidence ≡ evidence.JohnsonLocal d
        → support_of p ≡ Local (record { dual = d; at_zero = combination (numbers_of d.entry) d.c 0 }) }
{}
