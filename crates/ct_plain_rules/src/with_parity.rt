//! A parity digit.

ghost use Rattle.std.specs.Prelude.{◌≡◌, ◌-◌, ◌+◌, true, false, [], ◌∷◌, Some};
ghost use Rattle.ct_words.specs.declared.limits.TheConstants.{MAX_N};
ghost use Rattle.ct_words.specs.Entry.{unrestricted, constant_weight};
ghost use Rattle.ct_rule_parts.specs.Parts.{is_defined};
ghost use Rattle.ct_plain_rules.specs.WithParity.{parity_below, parity_above};

/// Where the rules are defined, with the least and the greatest lengths and with even and odd distances, what they rest on
/// and what they give.
pub fn known_with_parity()
    ensures below_first { is_defined parity_below (unrestricted 2 4) ≡ true }
    ensures below_rests_on { parity_below.rests_on (unrestricted 2 4) ≡ unrestricted 1 3 ∷ [] }
    ensures below_value { parity_below.number (unrestricted 8 4) (16 ∷ []) ≡ Some 16 }
    ensures below_short { is_defined parity_below (unrestricted 1 4) ≡ false }
    ensures below_odd { is_defined parity_below (unrestricted 8 5) ≡ false }
    ensures below_within { is_defined parity_below (unrestricted 8 6) ≡ true }
    ensures below_of_weight { is_defined parity_below (constant_weight 8 6 4) ≡ false }
    ensures below_no_entry { is_defined parity_below (unrestricted (MAX_N + 1) 6) ≡ false }
    ensures above_first { is_defined parity_above (unrestricted 7 3) ≡ true }
    ensures above_rests_on { parity_above.rests_on (unrestricted 7 3) ≡ unrestricted 8 4 ∷ [] }
    ensures above_last { is_defined parity_above (unrestricted (MAX_N - 1) (MAX_N - 1)) ≡ true }
    ensures above_last_rests_on { parity_above.rests_on (unrestricted (MAX_N - 1) (MAX_N - 1)) ≡ unrestricted MAX_N MAX_N ∷ [] }
    ensures above_value { parity_above.number (unrestricted 7 3) (16 ∷ []) ≡ Some 16 }
    ensures above_even { is_defined parity_above (unrestricted 8 4) ≡ false }
    ensures above_long { is_defined parity_above (unrestricted MAX_N 5) ≡ false }
    ensures above_at_six { is_defined parity_above (unrestricted 8 6) ≡ false }
    ensures above_of_weight { is_defined parity_above (constant_weight 8 6 4) ≡ false }
    ensures above_no_entry { is_defined parity_above (unrestricted (MAX_N + 1) 6) ≡ false }
{}
