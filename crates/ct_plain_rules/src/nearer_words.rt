//! A smaller distance.

ghost use Rattle.std.specs.Prelude.{◌≡◌, ◌-◌, ◌+◌, true, false, [], ◌∷◌, Some};
ghost use Rattle.ct_words.specs.declared.limits.TheConstants.{MAX_N};
ghost use Rattle.ct_words.specs.Entry.{unrestricted, constant_weight};
ghost use Rattle.ct_rule_parts.specs.Parts.{is_defined};
ghost use Rattle.ct_plain_rules.specs.Nearer.{nearer_below, nearer_above};

/// Where the rules are defined, with the least and the greatest distances, what they rest on and what they give.
pub fn known_nearer()
    ensures below_last { is_defined nearer_below (unrestricted MAX_N (MAX_N - 1)) ≡ true }
    ensures below_rests_on { nearer_below.rests_on (unrestricted MAX_N (MAX_N - 1)) ≡ unrestricted MAX_N MAX_N ∷ [] }
    ensures below_value { nearer_below.number (unrestricted 8 3) (16 ∷ []) ≡ Some 16 }
    ensures below_far { is_defined nearer_below (unrestricted MAX_N MAX_N) ≡ false }
    ensures below_within { is_defined nearer_below (unrestricted 8 6) ≡ true }
    ensures below_of_weight { is_defined nearer_below (constant_weight 8 6 4) ≡ false }
    ensures below_no_entry { is_defined nearer_below (unrestricted (MAX_N + 1) 6) ≡ false }
    ensures above_first { is_defined nearer_above (unrestricted MAX_N 4) ≡ true }
    ensures above_rests_on { nearer_above.rests_on (unrestricted MAX_N 4) ≡ unrestricted MAX_N 3 ∷ [] }
    ensures above_value { nearer_above.number (unrestricted 8 4) (20 ∷ []) ≡ Some 20 }
    ensures above_near { is_defined nearer_above (unrestricted 8 3) ≡ false }
    ensures above_within { is_defined nearer_above (unrestricted 8 6) ≡ true }
    ensures above_of_weight { is_defined nearer_above (constant_weight 8 6 4) ≡ false }
    ensures above_no_entry { is_defined nearer_above (unrestricted (MAX_N + 1) 6) ≡ false }
{}
