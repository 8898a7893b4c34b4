//! What a table holds of its bounds, what it means that it grew, and that it keeps its reasons once supports are taken out.

ghost use Rattle.std.specs.Prelude.{◌≡◌, ◌⊎◌, ℕ, ◌*◌, ◌≤◌, List, [], ◌∷◌, ◌++◌, length, map, slice_get, Some, None};
ghost use Rattle.ct_words.specs.declared.claim.Claim.{Claim};
ghost use Rattle.ct_words.specs.Entry.{IsEntry};
ghost use Rattle.ct_rule_parts.specs.declared.support.Support.{Support};
ghost use Rattle.ct_rule_parts.specs.Slot.{Slot, slot_of, claim_at, lower_at, upper_at, IsBetter};
ghost use Rattle.ct_rules.specs.declared.rule.Rule.TheVariants.{L2, L4, L6, L10, M10, U2};
ghost use Rattle.ct_rules.specs.Rule.{named_place};
ghost use Rattle.ct_rules.specs.Derivation.{LineValue};
ghost use Rattle.ct_rules.specs.Removal.{Places, only, RestsOnPlaces, lowered_line};
ghost use Rattle.ct_kept.specs.Kept.{KeptValue, IsGroundBound, with_line_put};
ghost use Rattle.ct_slots.specs.Number.{bound_of, side_size};
ghost use Rattle.ct_table.specs.Removal.{KeepsReasons};
ghost use Rattle.ct_table.specs.Table.{TableValue, IsShownTable, Grew, HasReason, bound_at, reason_at, table_of};

/// In a table the reason of each side of each entry is a line that gives its bound; no line of it comes after that reason;
/// and one of its lines rests on no line and on no support, and gives the best bound of those that rules give so.
pub fn tables_hold_reasons()
    ensures reasoned { (table : TableValue) (s : Slot) → IsShownTable table → IsEntry s.1 →
        (line : LineValue) × HasReason table s line × (line.claim ≡ claim_at s (bound_at table s)) }
    ensures last { (table : TableValue) (i : ℕ) (line : LineValue) → IsShownTable table →
        slice_get table.lines i ≡ Some line → i ≤ reason_at table (slot_of line.claim) }
    ensures grounded { (table : TableValue) (s : Slot) → IsShownTable table → IsEntry s.1 →
        (i : ℕ) × (line : LineValue) × (slice_get table.lines i ≡ Some line) × (slot_of line.claim ≡ s) ×
        (line.from ≡ []) × (named_place line.rule ≡ None) × IsGroundBound s line.claim.value }
{}

/// Where a table grew its lines stay at their places, each later one is better than the bound that its slot had, and a reason
/// changes only with its bound. A table grew from itself, and by a better line that is now the reason of its slot.
pub fn tables_grow_by_better_lines()
    ensures stays { (old new : TableValue) (i : ℕ) (line : LineValue) → Grew old new →
        slice_get old.lines i ≡ Some line → slice_get new.lines i ≡ Some line }
    ensures better { (old new : TableValue) (i : ℕ) (line : LineValue) → Grew old new →
        length old.lines ≤ i → slice_get new.lines i ≡ Some line →
        IsBetter line.claim.side line.claim.value (bound_at old (slot_of line.claim)) }
    ensures reason { (old new : TableValue) (s : Slot) → IsEntry s.1 → bound_at new s ≡ bound_at old s →
        ¬ (reason_at new s ≡ reason_at old s) → ¬ Grew old new }
    ensures itself { (table : TableValue) → Grew table table }
    ensures by_line { (supports more : List Support) (kept : KeptValue) (line : LineValue) →
        length kept.bounds ≡ 2 * side_size → IsEntry line.claim.entry →
        IsBetter line.claim.side line.claim.value (bound_of kept.bounds (slot_of line.claim)) →
        Grew (table_of supports kept) (table_of more (with_line_put kept line)) }
{}

/// Where a table has A(6,4) ≥ 4, it does not grow by a line that says so again or says less; nor where it has A(8,4) ≤ 16 by
/// one that says so again or more.
pub fn known_lines_that_do_not_grow()
    ensures equal { (old new : TableValue) → bound_at old (lower_at 6 4) ≡ 4 →
        new.lines ≡ old.lines ++ record { claim = claim_at (lower_at 6 4) 4; rule = L4; from = 0 ∷ [] } ∷ [] → ¬ Grew old new }
    ensures smaller { (old new : TableValue) → bound_at old (lower_at 6 4) ≡ 4 →
        new.lines ≡ old.lines ++ record { claim = claim_at (lower_at 6 4) 2; rule = L2; from = [] } ∷ [] → ¬ Grew old new }
    ensures equal_above { (old new : TableValue) → bound_at old (upper_at 8 4) ≡ 16 →
        new.lines ≡ old.lines ++ record { claim = claim_at (upper_at 8 4) 16; rule = U2; from = [] } ∷ [] → ¬ Grew old new }
    ensures greater_above { (old new : TableValue) → bound_at old (upper_at 8 4) ≡ 16 →
        new.lines ≡ old.lines ++ record { claim = claim_at (upper_at 8 4) 17; rule = U2; from = [] } ∷ [] → ¬ Grew old new }
{}

/// Reasons once a support is taken out: a rule that names a later one has its place lowered by one, one that names an earlier
/// one or none stays; so it is where the line rests on another one that stays.
pub fn reasons_stay_by_lowered_rules()
    ensures later { (old new : TableValue) (s : Slot) (c : Claim) → IsEntry s.1 → KeepsReasons (only 0) old new →
        HasReason old s (record { claim = c; rule = L10 1; from = [] }) →
        (from : List ℕ) × HasReason new s (record { claim = c; rule = L10 0; from = from }) }
    ensures later_of_weight { (old new : TableValue) (s : Slot) (c : Claim) → IsEntry s.1 → KeepsReasons (only 1) old new →
        HasReason old s (record { claim = c; rule = M10 3; from = [] }) →
        (from : List ℕ) × HasReason new s (record { claim = c; rule = M10 2; from = from }) }
    ensures earlier { (old new : TableValue) (s : Slot) (c : Claim) → IsEntry s.1 → KeepsReasons (only 1) old new →
        HasReason old s (record { claim = c; rule = L10 0; from = [] }) →
        (from : List ℕ) × HasReason new s (record { claim = c; rule = L10 0; from = from }) }
    ensures no_place { (old new : TableValue) (s : Slot) (c : Claim) → IsEntry s.1 → KeepsReasons (only 0) old new →
        HasReason old s (record { claim = c; rule = L2; from = [] }) →
        (from : List ℕ) × HasReason new s (record { claim = c; rule = L2; from = from }) }
    ensures through { (old new : TableValue) (s : Slot) (c d : Claim) (i : ℕ) → IsEntry s.1 → KeepsReasons (only 0) old new →
        HasReason old s (record { claim = c; rule = L6; from = i ∷ [] }) →
        slice_get old.lines i ≡ Some (record { claim = d; rule = L10 1; from = [] }) →
        (from : List ℕ) × HasReason new s (record { claim = c; rule = L6; from = from }) }
{}

/// Tables that keep their reasons: the same lines with their rules lowered; any after one in which each reason rested on what
/// is taken out; the second of two lines, at the place of the first. And some that do not: the rule of a reason is not lowered,
/// or twice, or is another one of the same value, or the value is another.
pub fn known_reasons_after_a_removal()
    ensures lowered { (gone : Places) (table : TableValue) (left : List Support) →
        KeepsReasons gone table (record table { supports = left; lines = map (lowered_line gone) table.lines }) }
    ensures all_lost { (gone : Places) (old new : TableValue) →
        ((s : Slot) → IsEntry s.1 → RestsOnPlaces old.lines gone (reason_at old s)) → KeepsReasons gone old new }
    ensures moved { (old new : TableValue) →
        old.lines ≡ record { claim = claim_at (lower_at 5 3) 4; rule = L10 0; from = [] } ∷
        record { claim = claim_at (lower_at 6 4) 4; rule = L10 1; from = [] } ∷ [] →
        new.lines ≡ record { claim = claim_at (lower_at 6 4) 4; rule = L10 0; from = [] } ∷ [] →
        ((s : Slot) → IsEntry s.1 → (reason_at old s ≡ 0) ⊎ ((reason_at old s ≡ 1) × (reason_at new s ≡ 0))) →
        KeepsReasons (only 0) old new }
    ensures not_lowered { (old new : TableValue) (from : List ℕ) →
        HasReason old (lower_at 6 4) (record { claim = claim_at (lower_at 6 4) 4; rule = L10 1; from = [] }) →
        HasReason new (lower_at 6 4) (record { claim = claim_at (lower_at 6 4) 4; rule = L10 1; from = from }) →
        ¬ KeepsReasons (only 0) old new }
    ensures lowered_twice { (old new : TableValue) (from : List ℕ) →
        HasReason old (lower_at 6 4) (record { claim = claim_at (lower_at 6 4) 4; rule = L10 2; from = [] }) →
        HasReason new (lower_at 6 4) (record { claim = claim_at (lower_at 6 4) 4; rule = L10 0; from = from }) →
        ¬ KeepsReasons (only 0) old new }
    ensures other_rule { (old new : TableValue) (from : List ℕ) →
        HasReason old (lower_at 6 4) (record { claim = claim_at (lower_at 6 4) 4; rule = L10 1; from = [] }) →
        HasReason new (lower_at 6 4) (record { claim = claim_at (lower_at 6 4) 4; rule = L4; from = from }) →
        ¬ KeepsReasons (only 0) old new }
    ensures other_value { (old new : TableValue) (from : List ℕ) →
        HasReason old (lower_at 6 4) (record { claim = claim_at (lower_at 6 4) 4; rule = L10 1; from = [] }) →
        HasReason new (lower_at 6 4) (record { claim = claim_at (lower_at 6 4) 3; rule = L10 0; from = from }) →
        ¬ KeepsReasons (only 0) old new }
{}
