//! Complements.

ghost use Rattle.std.specs.Prelude.{◌≡◌, ◌+◌, true, false, [], ◌∷◌, Some};
ghost use Rattle.ct_words.specs.declared.limits.TheConstants.{MAX_N};
ghost use Rattle.ct_words.specs.Entry.{unrestricted, constant_weight};
ghost use Rattle.ct_rule_parts.specs.Parts.{is_defined};
ghost use Rattle.ct_weight_rules.specs.Complemented.{complemented_below, complemented_above};

/// Where the rules are defined, with the least and the greatest weights, what they rest on and what they give: A(8,4,3) is
/// A(8,4,5) = 8. At half the length an entry rests on itself.
pub fn known_complemented()
    ensures below_few_ones { complemented_below.rests_on (constant_weight 8 4 3) ≡ constant_weight 8 4 5 ∷ [] }
    ensures below_many_ones { complemented_below.rests_on (constant_weight 8 4 5) ≡ constant_weight 8 4 3 ∷ [] }
    ensures below_itself { complemented_below.rests_on (constant_weight 8 4 4) ≡ constant_weight 8 4 4 ∷ [] }
    ensures below_no_ones { is_defined complemented_below (constant_weight 8 4 0) ≡ true }
    ensures below_no_ones_rests_on { complemented_below.rests_on (constant_weight 8 4 0) ≡ constant_weight 8 4 8 ∷ [] }
    ensures below_no_zeros { is_defined complemented_below (constant_weight 8 4 8) ≡ true }
    ensures below_no_zeros_rests_on { complemented_below.rests_on (constant_weight 8 4 8) ≡ constant_weight 8 4 0 ∷ [] }
    ensures below_last { is_defined complemented_below (constant_weight MAX_N MAX_N 0) ≡ true }
    ensures below_last_rests_on { complemented_below.rests_on (constant_weight MAX_N MAX_N 0) ≡ constant_weight MAX_N MAX_N MAX_N ∷ [] }
    ensures below_value { complemented_below.number (constant_weight 8 4 3) (8 ∷ []) ≡ Some 8 }
    ensures below_odd_distance { is_defined complemented_below (constant_weight 8 5 3) ≡ false }
    ensures below_heavy { is_defined complemented_below (constant_weight 8 4 9) ≡ false }
    ensures below_within { is_defined complemented_below (constant_weight 8 6 4) ≡ true }
    ensures below_no_weight { is_defined complemented_below (unrestricted 8 6) ≡ false }
    ensures below_no_entry { is_defined complemented_below (unrestricted (MAX_N + 1) 6) ≡ false }
    ensures below_long { is_defined complemented_below (constant_weight (MAX_N + 1) 6 4) ≡ false }
    ensures above_few_ones { complemented_above.rests_on (constant_weight 8 4 3) ≡ constant_weight 8 4 5 ∷ [] }
    ensures above_many_ones { complemented_above.rests_on (constant_weight 8 4 5) ≡ constant_weight 8 4 3 ∷ [] }
    ensures above_itself { complemented_above.rests_on (constant_weight 8 4 4) ≡ constant_weight 8 4 4 ∷ [] }
    ensures above_no_ones { is_defined complemented_above (constant_weight 8 4 0) ≡ true }
    ensures above_no_ones_rests_on { complemented_above.rests_on (constant_weight 8 4 0) ≡ constant_weight 8 4 8 ∷ [] }
    ensures above_no_zeros { is_defined complemented_above (constant_weight 8 4 8) ≡ true }
    ensures above_no_zeros_rests_on { complemented_above.rests_on (constant_weight 8 4 8) ≡ constant_weight 8 4 0 ∷ [] }
    ensures above_last { is_defined complemented_above (constant_weight MAX_N MAX_N 0) ≡ true }
    ensures above_last_rests_on { complemented_above.rests_on (constant_weight MAX_N MAX_N 0) ≡ constant_weight MAX_N MAX_N MAX_N ∷ [] }
    ensures above_value { complemented_above.number (constant_weight 8 4 3) (8 ∷ []) ≡ Some 8 }
    ensures above_odd_distance { is_defined complemented_above (constant_weight 8 5 3) ≡ false }
    ensures above_heavy { is_defined complemented_above (constant_weight 8 4 9) ≡ false }
    ensures above_within { is_defined complemented_above (constant_weight 8 6 4) ≡ true }
    ensures above_no_weight { is_defined complemented_above (unrestricted 8 6) ≡ false }
    ensures above_no_entry { is_defined complemented_above (unrestricted (MAX_N + 1) 6) ≡ false }
    ensures above_long { is_defined complemented_above (constant_weight (MAX_N + 1) 6 4) ≡ false }
{}
