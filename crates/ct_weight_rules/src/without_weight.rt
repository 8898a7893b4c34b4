//! Codes of constant weight, without it.

ghost use Rattle.std.specs.Prelude.{◌≡◌, ◌+◌, ◌-◌, true, false, [], ◌∷◌, Some};
ghost use Rattle.ct_words.specs.declared.limits.TheConstants.{MAX_N};
ghost use Rattle.ct_words.specs.Entry.{unrestricted, constant_weight};
ghost use Rattle.ct_rule_parts.specs.Parts.{is_defined};
ghost use Rattle.ct_weight_rules.specs.Inside.RestedOn.{by_even_distance};
ghost use Rattle.ct_weight_rules.specs.WithoutWeight.{without_weight};

/// Where the rule is defined, with the least and the greatest weights, what it rests on and what it gives: A(7,3) ≥ A(7,4,3) = 7
/// and A(8,4) ≥ A(8,4,4) = 14.
pub fn known_without_weight()
    ensures even { is_defined (without_weight 4) (unrestricted 8 4) ≡ true }
    ensures even_rests_on { (without_weight 4).rests_on (unrestricted 8 4) ≡ constant_weight 8 4 4 ∷ [] }
    ensures even_value { (without_weight 4).number (unrestricted 8 4) (14 ∷ []) ≡ Some 14 }
    ensures odd { is_defined (without_weight 3) (unrestricted 7 3) ≡ true }
    ensures odd_rests_on { (without_weight 3).rests_on (unrestricted 7 3) ≡ constant_weight 7 4 3 ∷ [] }
    ensures odd_value { (without_weight 3).number (unrestricted 7 3) (7 ∷ []) ≡ Some 7 }
    ensures no_ones { is_defined (without_weight 0) (unrestricted 8 4) ≡ true }
    ensures no_ones_rests_on { (without_weight 0).rests_on (unrestricted 8 4) ≡ constant_weight 8 4 0 ∷ [] }
    ensures no_zeros { is_defined (without_weight 8) (unrestricted 8 4) ≡ true }
    ensures heavy { is_defined (without_weight 9) (unrestricted 8 4) ≡ false }
    ensures least { is_defined (without_weight 1) (unrestricted 1 3) ≡ true }
    ensures greatest { is_defined (without_weight MAX_N) (unrestricted MAX_N MAX_N) ≡ true }
    ensures greatest_odd { is_defined (without_weight 0) (unrestricted MAX_N (MAX_N - 1)) ≡ true }
    ensures greatest_odd_rests_on { (without_weight 0).rests_on (unrestricted MAX_N (MAX_N - 1)) ≡ constant_weight MAX_N MAX_N 0 ∷ [] }
    ensures of_weight { is_defined (without_weight 4) (constant_weight 8 4 4) ≡ false }
    ensures no_entry { is_defined (without_weight 4) (unrestricted (MAX_N + 1) 4) ≡ false }
    // The entries among which are those that rest on A(8,4,4).
    ensures rested_on_by { by_even_distance (constant_weight 8 4 4) ≡ unrestricted 8 4 ∷ unrestricted 8 3 ∷ [] }
{}
