//! A place left out.

ghost use Rattle.std.specs.Prelude.{◌≡◌, ◌-◌, ◌+◌, true, false, [], ◌∷◌, Some};
ghost use Rattle.ct_words.specs.declared.limits.TheConstants.{MAX_N};
ghost use Rattle.ct_words.specs.Entry.{unrestricted, constant_weight};
ghost use Rattle.ct_rule_parts.specs.Parts.{is_defined};
ghost use Rattle.ct_plain_rules.specs.Punctured.{punctured_below, punctured_above};

/// Where the rules are defined, with the least and the greatest lengths and distances, what they rest on and what they give.
pub fn known_punctured()
    ensures below_last { is_defined punctured_below (unrestricted (MAX_N - 1) (MAX_N - 1)) ≡ true }
    ensures below_rests_on { punctured_below.rests_on (unrestricted (MAX_N - 1) (MAX_N - 1)) ≡ unrestricted MAX_N MAX_N ∷ [] }
    ensures below_value { punctured_below.number (unrestricted 7 3) (16 ∷ []) ≡ Some 16 }
    ensures below_long { is_defined punctured_below (unrestricted MAX_N (MAX_N - 1)) ≡ false }
    ensures below_far { is_defined punctured_below (unrestricted (MAX_N - 1) MAX_N) ≡ false }
    ensures below_within { is_defined punctured_below (unrestricted 8 6) ≡ true }
    ensures below_of_weight { is_defined punctured_below (constant_weight 8 6 4) ≡ false }
    ensures below_no_entry { is_defined punctured_below (unrestricted (MAX_N + 1) 6) ≡ false }
    ensures above_near_first { is_defined punctured_above (unrestricted 8 4) ≡ true }
    ensures above_rests_on { punctured_above.rests_on (unrestricted 8 4) ≡ unrestricted 7 3 ∷ [] }
    ensures above_short_first { is_defined punctured_above (unrestricted 2 MAX_N) ≡ true }
    ensures above_short_rests_on { punctured_above.rests_on (unrestricted 2 MAX_N) ≡ unrestricted 1 (MAX_N - 1) ∷ [] }
    ensures above_value { punctured_above.number (unrestricted 8 4) (16 ∷ []) ≡ Some 16 }
    ensures above_short { is_defined punctured_above (unrestricted 1 4) ≡ false }
    ensures above_near { is_defined punctured_above (unrestricted 8 3) ≡ false }
    ensures above_within { is_defined punctured_above (unrestricted 8 6) ≡ true }
    ensures above_of_weight { is_defined punctured_above (constant_weight 8 6 4) ≡ false }
    ensures above_no_entry { is_defined punctured_above (unrestricted (MAX_N + 1) 6) ≡ false }
{}
