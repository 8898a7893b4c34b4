//! What the rules of the table mean, for all entries and all premises: what they rest on, that they are sound and
//! monotone, and that their names stand for them. And what is known of supports.

ghost use Rattle.std.specs.Prelude.{◌≡◌, ◌↔◌, ◌⊎◌, EachIndex, slice_index, ℕ, ◌≤◌, List, [], ◌∷◌, length, map, All, Some, None, IsSome, slice_get, pos};
ghost use Rattle.ct_words.specs.declared.entry.Entry.{Entry};
ghost use Rattle.ct_words.specs.declared.claim.Claim.{Claim};
ghost use Rattle.ct_words.specs.declared.claim.Side.{Side};
ghost use Rattle.ct_words.specs.declared.claim.Side.TheVariants.{Upper};
ghost use Rattle.ct_words.specs.Claim.{IsTrueOn, IsTrueClaim};
ghost use Rattle.ct_words.specs.Entry.{IsEntry, unrestricted, constant_weight};
ghost use Rattle.ct_duals.specs.Bound.{AcceptedValue, dual_premises, dual_bound};
ghost use Rattle.ct_duals.specs.Examples.{eight_four_four, eight_local};
ghost use Rattle.ct_rules.specs.declared.rule.Rule.{Rule};
ghost use Rattle.ct_rules.specs.declared.rule.Rule.TheVariants.{L10, M10, U11, U12, V9, V10};
ghost use Rattle.ct_rule_parts.specs.declared.support.Support.{Support};
ghost use Rattle.ct_rule_parts.specs.declared.support.Support.TheVariants.{Nothing, Size, Bound, Odd, Local};
ghost use Rattle.ct_rule_parts.specs.Support.{Stands};
ghost use Rattle.ct_words.specs.declared.limits.TheConstants.{MAX_N};
ghost use Rattle.std.specs.Option.{ForSome};
ghost use Rattle.ct_rule_parts.specs.Slot.{Slot, slot_of, claim_at, IsNoBetter, AreNoBetter};
ghost use Rattle.ct_rules.specs.Rule.{rule_side, cited, premises_of, value_of, name_of, arguments_of, with_arguments, bare};
ghost use Rattle.ct_rules.specs.Listing.{rule_named};
ghost use Rattle.ct_rule_parts.specs.Parts.{slots_on, within_limit};
ghost use Rattle.ct_laws.specs.DualRule.{rule_of_dual};
ghost use Rattle.ct_weight_rules.specs.OddExamples.{nine_four};

/// A claim is a bound of a slot, and a bound of a slot is a claim.
pub fn claims_bound_slots()
    ensures claim { (c : Claim) → claim_at (slot_of c) c.value ≡ c }
    ensures slot { (s : Slot) (v : ℕ) → slot_of (claim_at s v) ≡ s }
{}

/// A better bound says more: where it is true, so is each bound that is no better. Of two bounds one is no better than the
/// other. Bounds are no better than others where they are as many, and none is better than the one at its place.
pub fn better_bounds_say_more()
    ensures says_more { (side : Side) (e : Entry) (u v : ℕ) →
        IsNoBetter side u v → IsTrueOn side e v → IsTrueOn side e u }
    ensures either { (side : Side) (u v : ℕ) → IsNoBetter side u v ⊎ IsNoBetter side v u }
    ensures each { (side : Side) (us vs : List ℕ) → AreNoBetter side us vs ↔
        ((length us ≡ length vs) × EachIndex us (λ i. IsNoBetter side (slice_index us i) (slice_index vs i))) }
{}

/// A rule is defined at entries of the table alone. It rests on bounds of entries of the table, each from the side that the
/// rule bounds from, and on `MAX_N` at most where the support that it names, if it names one, stands; it gives nothing where
/// it is not defined.
pub fn premises_are_entries()
    ensures entry { (supports : List Support) (r : Rule) (e : Entry) (slots : List Slot) →
        premises_of supports r e ≡ Some slots → IsEntry e }
    ensures premises { (supports : List Support) (r : Rule) (e : Entry) (slots : List Slot) →
        premises_of supports r e ≡ Some slots → All (λ s. IsEntry s.1) slots }
    ensures side { (supports : List Support) (r : Rule) (e : Entry) (slots : List Slot) →
        premises_of supports r e ≡ Some slots → All (λ s. s.0 ≡ rule_side r) slots }
    ensures few { (supports : List Support) (r : Rule) (e : Entry) (slots : List Slot) →
        ForSome (cited supports r) Stands → premises_of supports r e ≡ Some slots → length slots ≤ MAX_N }
    ensures defined { (supports : List Support) (r : Rule) (e : Entry) (vs : List ℕ) →
        IsSome (value_of supports r e vs) → IsSome (premises_of supports r e) }
{}

/// What a rule gives is true where its premises are, and the support that it names, if it names one, stands: of a lower bound v some code of the entry has exactly v words, and of
/// an upper bound no code of it has more.
pub fn rules_are_sound()
    ensures { (supports : List Support) (r : Rule) (e : Entry) (claims : List Claim) (v : ℕ) →
        ForSome (cited supports r) Stands → premises_of supports r e ≡ Some (map slot_of claims) → All IsTrueClaim claims →
        value_of supports r e (map (λ c. c.value) claims) ≡ Some v → IsTrueClaim (claim_at (rule_side r, e) v) }
{}

/// A dual that stands among supports gives its bound: the rule that names it is defined at its entry, and rests there on the
/// upper bounds of what the dual rests on; from such it gives the bound of the dual.
pub fn standing_duals_give_their_bounds()
    ensures premises { (supports : List Support) (place : ℕ) (dual : AcceptedValue) → Stands (Bound dual) →
        slice_get supports place ≡ Some (Bound dual) →
        premises_of supports (rule_of_dual place dual.dual.entry) dual.dual.entry ≡ Some (slots_on Upper (dual_premises dual.dual)) }
    ensures value { (supports : List Support) (place : ℕ) (dual : AcceptedValue) (uppers : List ℕ) → Stands (Bound dual) →
        slice_get supports place ≡ Some (Bound dual) →
        value_of supports (rule_of_dual place dual.dual.entry) dual.dual.entry uppers ≡ Some (dual_bound dual.dual dual.at_zero uppers) }
{}

/// Where no premise is better than the one at its place among others, the value is no better than theirs, whatever
/// numbers these are. No value is lost when premises become better: with a rule for upper bounds in any case, since too
/// great a number is cut; with one for lower bounds where the better premises are true, since then it is not too great.
pub fn rules_are_monotone()
    ensures no_better { (supports : List Support) (r : Rule) (e : Entry) (us vs : List ℕ) (u v : ℕ) →
        AreNoBetter (rule_side r) us vs → value_of supports r e us ≡ Some u → value_of supports r e vs ≡ Some v →
        IsNoBetter (rule_side r) u v }
    ensures upper { (supports : List Support) (r : Rule) (e : Entry) (us vs : List ℕ) →
        rule_side r ≡ Upper → AreNoBetter Upper us vs →
        IsSome (value_of supports r e us) → IsSome (value_of supports r e vs) }
    ensures true_premises { (supports : List Support) (r : Rule) (e : Entry) (claims : List Claim) (us : List ℕ) →
        ForSome (cited supports r) Stands → premises_of supports r e ≡ Some (map slot_of claims) →
        All IsTrueClaim claims → AreNoBetter (rule_side r) us (map (λ c. c.value) claims) →
        IsSome (value_of supports r e us) → IsSome (value_of supports r e (map (λ c. c.value) claims)) }
{}

/// Names and arguments stand for rules: on its side the name of a rule leads to it with arguments that are 0, and its own
/// arguments in their place make it again. What a name leads to has that name and side, and its arguments are 0.
pub fn rules_have_names()
    ensures named { (r : Rule) → rule_named (rule_side r) (name_of r) ≡ Some (bare r) }
    ensures argued { (r : Rule) → with_arguments (bare r) (arguments_of r) ≡ r }
    ensures own { (side : Side) (name : List ℕ) (r : Rule) → rule_named side name ≡ Some r →
        (name_of r ≡ name) × (rule_side r ≡ side) × (bare r ≡ r) }
{}

/// What supports give: to the entry that they name and to no other, at the place that the rule names.
pub fn known_supports()
    ensures code { value_of (Nothing ∷ Size (unrestricted 5 3) 4 ∷ []) (L10 1) (unrestricted 5 3) [] ≡ Some 4 }
    ensures premises { premises_of (Nothing ∷ Size (unrestricted 5 3) 4 ∷ []) (L10 1) (unrestricted 5 3) ≡ Some [] }
    ensures nothing { premises_of (Nothing ∷ Size (unrestricted 5 3) 4 ∷ []) (L10 0) (unrestricted 5 3) ≡ None }
    ensures no_support { premises_of (Nothing ∷ Size (unrestricted 5 3) 4 ∷ []) (L10 2) (unrestricted 5 3) ≡ None }
    ensures other_length { premises_of (Size (unrestricted 5 3) 4 ∷ []) (L10 0) (unrestricted 6 3) ≡ None }
    ensures other_distance { premises_of (Size (unrestricted 5 4) 2 ∷ []) (L10 0) (unrestricted 5 3) ≡ None }
    ensures of_weight { value_of (Nothing ∷ Size (constant_weight 8 4 4) 14 ∷ []) (M10 1) (constant_weight 8 4 4) [] ≡
        Some 14 }
    ensures other_weight { premises_of (Size (constant_weight 8 4 4) 14 ∷ []) (M10 0) (constant_weight 8 4 3) ≡ None }
    ensures without_weight { premises_of (Size (constant_weight 8 4 4) 14 ∷ []) (L10 0) (unrestricted 8 4) ≡ None }
    // Each of the two rules is for its own entries.
    ensures weight_by_code { premises_of (Size (constant_weight 8 4 4) 14 ∷ []) (L10 0) (constant_weight 8 4 4) ≡ None }
    ensures code_by_weight { premises_of (Size (unrestricted 5 3) 4 ∷ []) (M10 0) (unrestricted 5 3) ≡ None }
    // A dual with a number of words that it may exclude gives by its own rule, and a dual alone does not.
    ensures odd_size { value_of (Nothing ∷ Odd (record { dual = nine_four; at_zero = pos 48 }) 21 ∷ []) (U12 1) (unrestricted 9 4) (1 ∷ []) ≡ Some 20 }
    ensures odd_premises { premises_of (Odd (record { dual = nine_four; at_zero = pos 48 }) 21 ∷ []) (U12 0) (unrestricted 9 4) ≡
        Some (slots_on Upper (constant_weight 9 4 8 ∷ [])) }
    ensures not_excluded { value_of (Odd (record { dual = nine_four; at_zero = pos 48 }) 19 ∷ []) (U12 0) (unrestricted 9 4) (1 ∷ []) ≡ None }
    ensures odd_as_bound { premises_of (Odd (record { dual = nine_four; at_zero = pos 48 }) 21 ∷ []) (U11 0) (unrestricted 9 4) ≡ None }
    ensures bound_as_odd { premises_of (Bound (record { dual = nine_four; at_zero = pos 48 }) ∷ []) (U12 0) (unrestricted 9 4) ≡ None }
    // So does a dual of a code seen from one of its words.
    ensures local_bound { value_of (Nothing ∷ Local (record { dual = eight_local; at_zero = pos 24 }) ∷ []) (V10 1) (constant_weight 8 4 4)
        (14 ∷ []) ≡ Some 15 }
    ensures local_premises { premises_of (Local (record { dual = eight_local; at_zero = pos 24 }) ∷ []) (V10 0) (constant_weight 8 4 4) ≡
        Some (slots_on Upper (constant_weight 8 4 4 ∷ [])) }
    ensures local_as_bound { premises_of (Local (record { dual = eight_local; at_zero = pos 24 }) ∷ []) (V9 0) (constant_weight 8 4 4) ≡ None }
    ensures bound_as_local { premises_of (Bound (record { dual = eight_four_four; at_zero = pos 672 }) ∷ []) (V10 0) (constant_weight 8 4 4) ≡ None }
{}
