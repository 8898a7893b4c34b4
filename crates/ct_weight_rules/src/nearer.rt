//! A smaller distance.

ghost use Rattle.std.specs.Prelude.{◌≡◌, ◌+◌, ◌-◌, ◌/◌, true, false, [], ◌∷◌, Some};
ghost use Rattle.ct_words.specs.Entry.{unrestricted, constant_weight};
ghost use Rattle.ct_rule_parts.specs.Parts.{is_defined};
ghost use Rattle.ct_weight_rules.specs.Nearer.{nearer_below_of_weight, nearer_above_of_weight};

use ct_words::MAX_N;

/// Where the rules are defined, with the least and the greatest distances and weights, what they rest on and what they
/// give.
pub fn known_nearer()
    ensures below_last { is_defined nearer_below_of_weight (constant_weight MAX_N (MAX_N - 2) (MAX_N / 2)) ≡ true }
    ensures below_last_rests_on { nearer_below_of_weight.rests_on (constant_weight MAX_N (MAX_N - 2) (MAX_N / 2)) ≡ constant_weight MAX_N MAX_N (MAX_N / 2) ∷ [] }
    ensures below_first { is_defined nearer_below_of_weight (constant_weight 1 4 0) ≡ true }
    ensures below_first_rests_on { nearer_below_of_weight.rests_on (constant_weight 1 4 0) ≡ constant_weight 1 6 0 ∷ [] }
    ensures below_no_zeros { is_defined nearer_below_of_weight (constant_weight 8 4 8) ≡ true }
    ensures below_value { nearer_below_of_weight.number (constant_weight 12 6 6) (22 ∷ []) ≡ Some 22 }
    ensures below_far { is_defined nearer_below_of_weight (constant_weight MAX_N MAX_N (MAX_N / 2)) ≡ false }
    ensures below_heavy { is_defined nearer_below_of_weight (constant_weight 8 4 9) ≡ false }
    ensures below_odd_distance { is_defined nearer_below_of_weight (constant_weight 8 5 3) ≡ false }
    ensures below_no_weight { is_defined nearer_below_of_weight (unrestricted 8 6) ≡ false }
    ensures below_no_entry { is_defined nearer_below_of_weight (constant_weight (MAX_N + 1) 6 4) ≡ false }
    ensures above_first { is_defined nearer_above_of_weight (constant_weight MAX_N 6 (MAX_N / 2)) ≡ true }
    ensures above_first_rests_on { nearer_above_of_weight.rests_on (constant_weight MAX_N 6 (MAX_N / 2)) ≡ constant_weight MAX_N 4 (MAX_N / 2) ∷ [] }
    ensures above_last { is_defined nearer_above_of_weight (constant_weight 1 MAX_N 0) ≡ true }
    ensures above_last_rests_on { nearer_above_of_weight.rests_on (constant_weight 1 MAX_N 0) ≡ constant_weight 1 (MAX_N - 2) 0 ∷ [] }
    ensures above_no_zeros { is_defined nearer_above_of_weight (constant_weight 8 6 8) ≡ true }
    ensures above_value { nearer_above_of_weight.number (constant_weight 8 6 4) (14 ∷ []) ≡ Some 14 }
    ensures above_near { is_defined nearer_above_of_weight (constant_weight 8 4 4) ≡ false }
    ensures above_heavy { is_defined nearer_above_of_weight (constant_weight 8 6 9) ≡ false }
    ensures above_odd_distance { is_defined nearer_above_of_weight (constant_weight 8 7 3) ≡ false }
    ensures above_no_weight { is_defined nearer_above_of_weight (unrestricted 8 6) ≡ false }
    ensures above_no_entry { is_defined nearer_above_of_weight (constant_weight (MAX_N + 1) 6 4) ≡ false }
{}
