//! Facts about every ledger.

ghost use Rattle.std.specs.Prelude.{◌≡◌, ℕ, ◌<◌, ◌≤◌, ◌-◌, pos, ◌*ℤ◌, ◌<ℤ◌, int_lt, if◌then◌else◌, List, length, All, Some, None, map, slice_get};
ghost use Rattle.ct_words.specs.declared.claim.Claim.{Claim};
ghost use Rattle.ct_words.specs.declared.claim.Side.TheVariants.{Lower, Upper};
ghost use Rattle.ct_words.specs.declared.entry.Entry.{Entry};
ghost use Rattle.ct_words.specs.Code.{CodeValue, IsTrueUpper};
ghost use Rattle.ct_words.specs.Numbers.{numbers_of, combination};
ghost use Rattle.ct_duals.specs.declared.dual.Dual.{Dual};
ghost use Rattle.ct_duals.specs.Bound.{AreTrueUppers, dual_premises, dual_bound, dual_spread};
ghost use Rattle.ct_parity.specs.OddSum.{odd_sum};
ghost use Rattle.ct_kind.specs.declared.evidence.Evidence.TheVariants as evidence;
ghost use Rattle.ct_kind.specs.Named.{NamedCode};
ghost use Rattle.ct_rule_parts.specs.declared.support.Support.{Support};
ghost use Rattle.ct_rule_parts.specs.declared.support.Support.TheVariants.{Size};
ghost use Rattle.ct_rule_parts.specs.Local.{local_value};
ghost use Rattle.ct_rule_parts.specs.Parts.{slots_on};
ghost use Rattle.ct_rule_parts.specs.Slot.{slot_of};
ghost use Rattle.ct_rules.specs.declared.rule.Rule.TheVariants.{U12, V10};
ghost use Rattle.ct_rules.specs.Derivation.{IsDerived, IsBest};
ghost use Rattle.ct_rules.specs.Rule.{premises_of, value_of};
ghost use Rattle.ct_piece.specs.Codes.{code_of_place};
ghost use Rattle.ct_piece.specs.Piece.{PieceValue};
ghost use Rattle.ct_piece.specs.Standing.{AreStanding};
ghost use Rattle.ct_piece.specs.Supports.{supports_of};
ghost use Rattle.ct_laws.specs.EvidenceSupport.{IsSupportOf};

/// The best lower bound of an entry is at least the number of words of each code of it that a standing piece has, of whatever kind.
pub fn pieces_reach_their_bounds()
    ensures { (pieces : List PieceValue) (place : ℕ) (c : CodeValue) (v : ℕ) → AreStanding pieces → place < length pieces
        → code_of_place pieces place ≡ Some c → IsBest (supports_of pieces) (Lower, record { n = c.n; d = c.d; w = c.w }) v
        → length c.words ≤ v }
{}

/// Where a piece that stands gives a size to the table, it has a code, which is of the entry, with just so many words.
pub fn sizes_are_those_of_codes()
    ensures { (pieces : List PieceValue) (place : ℕ) (e : Entry) (size : ℕ) → AreStanding pieces
        → slice_get (supports_of pieces) place ≡ Some (Size e size)
        → (c : CodeValue) × (code_of_place pieces place ≡ Some c) × (record { n = c.n; d = c.d; w = c.w } ≡ e) × (length c.words ≡ size) }
{}

/// The best upper bound of the entry of a standing piece that is a dual, without weight or with one, is no greater than the bound of
/// the dual, from whatever upper bounds are derived of the entries that it rests on. Where it is a dual with a number m of words that
/// parity excludes from these bounds, L > m·E, the best upper bound is below m; where it is of kind jlocal, the best upper bound is no greater
/// than its local bound.
pub fn duals_reach_their_bounds()
    ensures plain { (pieces : List PieceValue) (place : ℕ) (p : PieceValue) (d : Dual) (claims : List Claim) (v : ℕ) → AreStanding pieces
        → slice_get pieces place ≡ Some p → p.evidence ≡ evidence.Dual d → map slot_of claims ≡ slots_on Upper (dual_premises d)
        → All (IsDerived (supports_of pieces)) claims → IsBest (supports_of pieces) (Upper, d.entry) v
        → v ≤ dual_bound d (combination (numbers_of d.entry) d.c 0) (map (λ c. c.value) claims) }
    ensures weighted { (pieces : List PieceValue) (place : ℕ) (p : PieceValue) (d : Dual) (claims : List Claim) (v : ℕ) → AreStanding pieces
        → slice_get pieces place ≡ Some p → p.evidence ≡ evidence.JohnsonDual d → map slot_of claims ≡ slots_on Upper (dual_premises d)
        → All (IsDerived (supports_of pieces)) claims → IsBest (supports_of pieces) (Upper, d.entry) v
        → v ≤ dual_bound d (combination (numbers_of d.entry) d.c 0) (map (λ c. c.value) claims) }
    ensures odd { (pieces : List PieceValue) (place : ℕ) (p : PieceValue) (d : Dual) (m : ℕ) (claims : List Claim) (v : ℕ) → AreStanding pieces
        → slice_get pieces place ≡ Some p → p.evidence ≡ evidence.Odd d m → map slot_of claims ≡ slots_on Upper (dual_premises d)
        → All (IsDerived (supports_of pieces)) claims → IsBest (supports_of pieces) (Upper, d.entry) v
        → (pos m *ℤ dual_spread d (combination (numbers_of d.entry) d.c 0) (map (λ c. c.value) claims)) <ℤ odd_sum d.entry.n m d.c → v < m }
    ensures local { (pieces : List PieceValue) (place : ℕ) (p : PieceValue) (d : Dual) (claims : List Claim) (v : ℕ) → AreStanding pieces
        → slice_get pieces place ≡ Some p → p.evidence ≡ evidence.JohnsonLocal d → map slot_of claims ≡ slots_on Upper (dual_premises d)
        → All (IsDerived (supports_of pieces)) claims → IsBest (supports_of pieces) (Upper, d.entry) v
        → v ≤ local_value (record { dual = d; at_zero = combination (numbers_of d.entry) d.c 0 }) (map (λ c. c.value) claims) }
{}

/// Evidence of kind odd that has the form of one and against which its check finds nothing, wherever what it gives stands among supports,
/// with E the spread of its dual from the bounds that it rests on, and L the sum `odd_sum`: U12 rests there on what the dual rests on, and
/// gives m − 1 where L > m·E, and nothing elsewhere. Where each of these bounds is true, no code of the dual's entry has more words than
/// U12 gives (Best, Brouwer, MacWilliams, Odlyzko and Sloane 1978, section II). Nothing is asked of the other supports.
pub fn odd_evidence_excludes_sizes()
    ensures premises { (known : List NamedCode) (supports : List Support) (place : ℕ) (d : Dual) (m : ℕ)
        → IsSupportOf known supports place (evidence.Odd d m)
        → premises_of supports (U12 place) d.entry ≡ Some (slots_on Upper (dual_premises d)) }
    ensures value { (known : List NamedCode) (supports : List Support) (place : ℕ) (d : Dual) (m : ℕ) (uppers : List ℕ)
        → IsSupportOf known supports place (evidence.Odd d m) → value_of supports (U12 place) d.entry uppers
        ≡ (if int_lt (pos m *ℤ dual_spread d (combination (numbers_of d.entry) d.c 0) uppers) (odd_sum d.entry.n m d.c) then Some (m - 1) else None) }
    ensures sound { (known : List NamedCode) (supports : List Support) (place : ℕ) (d : Dual) (m : ℕ) (uppers : List ℕ) (v : ℕ)
        → IsSupportOf known supports place (evidence.Odd d m) → AreTrueUppers (dual_premises d) uppers
        → value_of supports (U12 place) d.entry uppers ≡ Some v → IsTrueUpper d.entry v }
{}

/// Evidence of kind jlocal that has the form of one and against which its check finds nothing, wherever what it gives stands among supports:
/// V10 rests there on what the dual rests on, A(n,d,2i) for each index i where it allows more than 0, and gives its local bound, from the
/// lesser at each of these of its bound and of that of the doubly constant codes of (w,i,n−w,i,d). Where each of the bounds of these entries
/// is true, no code of the dual's entry has more words (Johnson 1972; Agrell, Vardy and Zeger 2000). Nothing is asked of the other supports.
pub fn local_evidence_bounds_codes()
    ensures premises { (known : List NamedCode) (supports : List Support) (place : ℕ) (d : Dual)
        → IsSupportOf known supports place (evidence.JohnsonLocal d)
        → premises_of supports (V10 place) d.entry ≡ Some (slots_on Upper (dual_premises d)) }
    ensures value { (known : List NamedCode) (supports : List Support) (place : ℕ) (d : Dual) (uppers : List ℕ)
        → IsSupportOf known supports place (evidence.JohnsonLocal d)
        → value_of supports (V10 place) d.entry uppers
        ≡ Some (local_value (record { dual = d; at_zero = combination (numbers_of d.entry) d.c 0 }) uppers) }
    ensures sound { (known : List NamedCode) (supports : List Support) (place : ℕ) (d : Dual) (uppers : List ℕ) (v : ℕ)
        → IsSupportOf known supports place (evidence.JohnsonLocal d) → AreTrueUppers (dual_premises d) uppers
        → value_of supports (V10 place) d.entry uppers ≡ Some v → IsTrueUpper d.entry v }
{}
