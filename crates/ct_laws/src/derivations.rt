//! What derivations give, for every list of supports, and derivations that are known.

ghost use Rattle.std.specs.Prelude.{◌≡◌, ℕ, ◌+◌, ◌≤◌, List, [], ◌∷◌, ◌++◌, length, map, All, Contains, Some, slice_get};
ghost use Rattle.ct_words.specs.declared.limits.TheConstants.{MAX_N, MAX_BOUND};
ghost use Rattle.ct_words.specs.declared.claim.Claim.{Claim};
ghost use Rattle.ct_words.specs.declared.claim.Side.TheVariants.{Lower, Upper};
ghost use Rattle.ct_words.specs.declared.entry.Entry.{Entry};
ghost use Rattle.ct_words.specs.Claim.{IsTrueClaim};
ghost use Rattle.ct_words.specs.Entry.{IsEntry, unrestricted, constant_weight};
ghost use Rattle.ct_duals.specs.Bound.{AcceptedValue, dual_premises, dual_bound};
ghost use Rattle.ct_rules.specs.declared.rule.Rule.{Rule};
ghost use Rattle.ct_rules.specs.declared.rule.Rule.TheVariants.{L1, L6, L8, L10, L11, U2, U4, U6};
ghost use Rattle.ct_rule_parts.specs.declared.support.Support.{Support};
ghost use Rattle.ct_rule_parts.specs.declared.support.Support.TheVariants.{Size, Bound};
ghost use Rattle.ct_rules.specs.Closed.{AreTrue, IsClosed};
ghost use Rattle.ct_rules.specs.Derivation.{LineValue, Follows, IsDerivation, IsDerived, IsBest};
ghost use Rattle.ct_rules.specs.Rule.{rule_side, premises_of, value_of};
ghost use Rattle.ct_rule_parts.specs.Slot.{Slot, slot_of, claim_at, lower_at, upper_at, IsNoBetter};
ghost use Rattle.ct_rule_parts.specs.Parts.{slots_on};
ghost use Rattle.ct_rule_parts.specs.Support.{Stands, AllStand};

/// Where each support stands, what derivations claim is true: the claim with which one ends, and that of each line.
pub fn derived_claims_are_true()
    ensures derived { (supports : List Support) → AllStand supports → (c : Claim) →
        IsDerived supports c → IsTrueClaim c }
    ensures lines { (supports : List Support) (lines : List LineValue) → AllStand supports →
        IsDerivation supports lines → All (λ line. IsTrueClaim line.claim) lines }
{}

/// A derivation grows by a line that follows from its lines, and is one up to each of them. Each of its lines is
/// derived; so is what a rule gives at an entry, where each premise of it is derived, whatever the derivations.
pub fn derivations_grow_by_rules()
    ensures empty { (supports : List Support) → IsDerivation supports [] }
    ensures grown { (supports : List Support) (lines : List LineValue) (line : LineValue) →
        IsDerivation supports lines → Follows supports lines line → IsDerivation supports (lines ++ line ∷ []) }
    ensures front { (supports : List Support) (lines more : List LineValue) →
        IsDerivation supports (lines ++ more) → IsDerivation supports lines }
    ensures lines { (supports : List Support) (lines : List LineValue) →
        IsDerivation supports lines → All (λ line. IsDerived supports line.claim) lines }
    ensures by_rule { (supports : List Support) (r : Rule) (e : Entry) (claims : List Claim) (v : ℕ) →
        premises_of supports r e ≡ Some (map slot_of claims) → All (IsDerived supports) claims →
        value_of supports r e (map (λ c. c.value) claims) ≡ Some v →
        IsDerived supports (claim_at (rule_side r, e) v) }
{}

/// A line that names its own place or a later one does not follow, and the rule, the entry and the places of a line
/// leave it one claim.
pub fn lines_follow_from_earlier_lines()
    ensures earlier { (supports : List Support) (before : List LineValue) (line : LineValue) (place : ℕ) →
        Contains line.from place → length before ≤ place → ¬ Follows supports before line }
    ensures one_claim { (supports : List Support) (before : List LineValue) (line other : LineValue) →
        line.rule ≡ other.rule → line.claim.entry ≡ other.claim.entry → line.from ≡ other.from →
        Follows supports before line → Follows supports before other → line.claim ≡ other.claim }
{}

/// What follows or is derived over some supports follows or is derived over these and more, so a best value over more
/// supports is at least as good.
pub fn more_supports_keep_derivations()
    ensures line { (supports more : List Support) (before : List LineValue) (line : LineValue) →
        Follows supports before line → Follows (supports ++ more) before line }
    ensures derivation { (supports more : List Support) (lines : List LineValue) →
        IsDerivation supports lines → IsDerivation (supports ++ more) lines }
    ensures derived { (supports more : List Support) (c : Claim) →
        IsDerived supports c → IsDerived (supports ++ more) c }
    ensures best { (supports more : List Support) (s : Slot) (u v : ℕ) →
        IsBest supports s u → IsBest (supports ++ more) s v → IsNoBetter s.0 u v }
{}

/// Where each support stands, true bounds of all entries to which no rule gives anything better are as good as each
/// bound that is derived, so those that are derived are best values. The best values of all slots are such bounds.
pub fn closed_bounds_are_best()
    ensures within { (supports : List Support) (bounds : Slot → ℕ) → AllStand supports → AreTrue bounds →
        IsClosed supports bounds → (c : Claim) →
        IsDerived supports c → IsNoBetter c.side c.value (bounds (slot_of c)) }
    ensures best { (supports : List Support) (bounds : Slot → ℕ) (s : Slot) → AllStand supports →
        AreTrue bounds → IsClosed supports bounds →
        IsDerived supports (claim_at s (bounds s)) → IsBest supports s (bounds s) }
    ensures closed { (supports : List Support) (bounds : Slot → ℕ) →
        ((s : Slot) → IsEntry s.1 → IsBest supports s (bounds s)) → IsClosed supports bounds }
    ensures exist { (supports : List Support) → AllStand supports →
        (bounds : Slot → ℕ) × AreTrue bounds × IsClosed supports bounds }
{}

/// Where each support stands, each slot of the table has a best value, and no slot has two.
pub fn each_slot_has_one_best_value()
    ensures exists { (supports : List Support) (s : Slot) → AllStand supports → IsEntry s.1 →
        (v : ℕ) × IsBest supports s v }
    ensures one { (supports : List Support) (s : Slot) (u v : ℕ) →
        IsBest supports s u → IsBest supports s v → u ≡ v }
{}

/// The best upper bound of the entry of a dual that stands among the supports is no greater than the bound of the dual, from
/// whatever upper bounds are derived of what the dual rests on.
pub fn standing_duals_reach_their_bounds()
    ensures { (supports : List Support) (place : ℕ) (dual : AcceptedValue) (claims : List Claim) (v : ℕ) → Stands (Bound dual) →
        slice_get supports place ≡ Some (Bound dual) → map slot_of claims ≡ slots_on Upper (dual_premises dual.dual) →
        All (IsDerived supports) claims → IsBest supports (Upper, dual.dual.entry) v →
        v ≤ dual_bound dual.dual dual.at_zero (map (λ c. c.value) claims) }
{}

/// Where each support stands, best values are true bounds, so the lower one of an entry is at most the upper one; and
/// where a lower and an upper bound of one value are derived, both are best: the value is A(n,d) or A(n,d,w).
pub fn best_values_are_true()
    ensures true_bound { (supports : List Support) (s : Slot) (v : ℕ) → AllStand supports →
        IsBest supports s v → IsTrueClaim (claim_at s v) }
    ensures in_order { (supports : List Support) (e : Entry) (u v : ℕ) → AllStand supports →
        IsBest supports (Lower, e) u → IsBest supports (Upper, e) v → u ≤ v }
    ensures equal { (supports : List Support) (e : Entry) (v : ℕ) → AllStand supports →
        IsDerived supports (claim_at (Lower, e) v) → IsDerived supports (claim_at (Upper, e) v) →
        IsBest supports (Lower, e) v × IsBest supports (Upper, e) v }
{}

/// Derivations of A(6,4) ≥ 4, A(5,3) ≥ 4 and A(8,3) ≤ 32 with no support, and of the first with a support that gives it;
/// and lines that follow from no lines, or not from these.
pub fn known_derivations()
    ensures three_lines { IsDerivation [] (
        record { claim = claim_at (lower_at 3 4) 1; rule = L1; from = [] } ∷
        record { claim = claim_at (lower_at 6 4) 4; rule = L8; from = 0 ∷ [] } ∷
        record { claim = claim_at (lower_at 5 3) 4; rule = L6; from = 1 ∷ [] } ∷ []) }
    ensures from_above { IsDerivation [] (
        record { claim = claim_at (upper_at 8 4) 16; rule = U2; from = [] } ∷
        record { claim = claim_at (upper_at 7 3) 16; rule = U4; from = 0 ∷ [] } ∷
        record { claim = claim_at (upper_at 8 3) 32; rule = U6; from = 1 ∷ [] } ∷ []) }
    ensures place_named_twice { IsDerivation [] (
        record { claim = claim_at (lower_at 3 3) 1; rule = L1; from = [] } ∷
        record { claim = claim_at (lower_at 6 6) 1; rule = L11 3 3; from = 0 ∷ 0 ∷ [] } ∷ []) }
    ensures support { IsDerivation (Size (unrestricted 6 4) 4 ∷ [])
        (record { claim = claim_at (lower_at 6 4) 4; rule = L10 0; from = [] } ∷ []) }
    ensures no_support { ¬ Follows [] []
        (record { claim = claim_at (lower_at 6 4) 4; rule = L10 0; from = [] }) }
    ensures own_place { ¬ Follows [] []
        (record { claim = claim_at (lower_at 6 4) 4; rule = L8; from = 0 ∷ [] }) }
    ensures later_place { ¬ Follows []
        (record { claim = claim_at (lower_at 3 4) 1; rule = L1; from = [] } ∷ [])
        (record { claim = claim_at (lower_at 6 4) 4; rule = L8; from = 0 ∷ 2 ∷ [] }) }
    ensures no_premise { ¬ Follows []
        (record { claim = claim_at (lower_at 3 4) 1; rule = L1; from = [] } ∷ [])
        (record { claim = claim_at (lower_at 6 4) 4; rule = L8; from = [] }) }
    ensures other_premise { ¬ Follows []
        (record { claim = claim_at (lower_at 3 3) 1; rule = L1; from = [] } ∷ [])
        (record { claim = claim_at (lower_at 6 4) 4; rule = L8; from = 0 ∷ [] }) }
    // The first premise of L8 at (10,5) is A(5,3), the second A(5,5).
    ensures other_order { ¬ Follows []
        (record { claim = claim_at (lower_at 5 3) 1; rule = L1; from = [] } ∷
        record { claim = claim_at (lower_at 5 5) 1; rule = L1; from = [] } ∷ [])
        (record { claim = claim_at (lower_at 10 5) 1; rule = L8; from = 1 ∷ 0 ∷ [] }) }
    ensures smaller_value { ¬ Follows []
        (record { claim = claim_at (lower_at 3 4) 1; rule = L1; from = [] } ∷ [])
        (record { claim = claim_at (lower_at 6 4) 3; rule = L8; from = 0 ∷ [] }) }
    ensures other_side { ¬ Follows [] []
        (record { claim = claim_at (Upper, unrestricted 3 4) 1; rule = L1; from = [] }) }
    ensures other_entry { ¬ Follows [] []
        (record { claim = claim_at (Lower, constant_weight 4 4 2) 1; rule = L1; from = [] }) }
{}

/// Claims that are true, and such that are false: A(5,3) is 4, and so neither at least 5 nor at most 3; no claim is true
/// of an entry outside of the table, of a number that is no bound, or of a distance and a weight that no entry has.
pub fn known_claims()
    ensures from_below { IsTrueClaim (claim_at (lower_at 5 3) 4) }
    ensures from_above { IsTrueClaim (claim_at (upper_at 5 3) 4) }
    ensures too_great { ¬ IsTrueClaim (claim_at (lower_at 5 3) 5) }
    ensures too_small { ¬ IsTrueClaim (claim_at (upper_at 5 3) 3) }
    ensures no_words { ¬ IsTrueClaim (claim_at (lower_at 5 3) 0) }
    ensures above_limit { ¬ IsTrueClaim (claim_at (upper_at 5 3) (MAX_BOUND + 1)) }
    ensures too_long { ¬ IsTrueClaim (claim_at (upper_at (MAX_N + 1) 3) 4) }
    ensures too_near { ¬ IsTrueClaim (claim_at (lower_at 5 2) 1) }
    ensures odd_beside_weight { ¬ IsTrueClaim (claim_at (Lower, constant_weight 5 3 2) 1) }
{}
