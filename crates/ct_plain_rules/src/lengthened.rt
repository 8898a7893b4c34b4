//! A digit more.

ghost use Rattle.std.specs.Prelude.{◌≡◌, ◌-◌, true, false, [], ◌∷◌, ◌+◌, Some};
ghost use Rattle.ct_words.specs.declared.limits.TheConstants.{MAX_N, MAX_BOUND};
ghost use Rattle.ct_words.specs.declared.claim.Side.TheVariants.{Upper};
ghost use Rattle.ct_words.specs.Entry.{unrestricted, constant_weight};
ghost use Rattle.ct_rule_parts.specs.Parts.{is_defined, within_limit};
ghost use Rattle.ct_plain_rules.specs.Lengthened.{lengthened_below, lengthened_above};

/// Where the rules are defined, with the least and the greatest lengths, what they rest on and what they give.
pub fn known_lengthened()
    ensures below_first { is_defined lengthened_below (unrestricted 2 3) ≡ true }
    ensures below_rests_on { lengthened_below.rests_on (unrestricted 2 3) ≡ unrestricted 1 3 ∷ [] }
    ensures below_value { lengthened_below.number (unrestricted 8 3) (16 ∷ []) ≡ Some 16 }
    ensures below_short { is_defined lengthened_below (unrestricted 1 3) ≡ false }
    ensures below_within { is_defined lengthened_below (unrestricted 8 6) ≡ true }
    ensures below_of_weight { is_defined lengthened_below (constant_weight 8 6 4) ≡ false }
    ensures below_no_entry { is_defined lengthened_below (unrestricted (MAX_N + 1) 6) ≡ false }
    ensures above_last { is_defined lengthened_above (unrestricted (MAX_N - 1) MAX_N) ≡ true }
    ensures above_rests_on { lengthened_above.rests_on (unrestricted (MAX_N - 1) MAX_N) ≡ unrestricted MAX_N MAX_N ∷ [] }
    ensures above_value { lengthened_above.number (unrestricted 7 3) (20 ∷ []) ≡ Some 20 }
    ensures above_cut { within_limit Upper (lengthened_above.number (unrestricted 7 3) ((MAX_BOUND + 1) ∷ [])) ≡ Some MAX_BOUND }
    ensures above_long { is_defined lengthened_above (unrestricted MAX_N 3) ≡ false }
    ensures above_within { is_defined lengthened_above (unrestricted 8 6) ≡ true }
    ensures above_of_weight { is_defined lengthened_above (constant_weight 8 6 4) ≡ false }
    ensures above_no_entry { is_defined lengthened_above (unrestricted (MAX_N + 1) 6) ≡ false }
{}
