//! Shortened codes.

ghost use Rattle.std.specs.Prelude.{◌≡◌, ◌/◌, ◌-◌, true, false, [], ◌∷◌, ◌+◌, Some};
ghost use Rattle.ct_words.specs.declared.limits.TheConstants.{MAX_N, MAX_BOUND};
ghost use Rattle.ct_words.specs.declared.claim.Side.TheVariants.{Upper};
ghost use Rattle.ct_words.specs.Entry.{unrestricted, constant_weight};
ghost use Rattle.ct_rule_parts.specs.Parts.{is_defined, within_limit};
ghost use Rattle.ct_plain_rules.specs.Shortened.{shortened_below, shortened_above};

/// Where the rules are defined, with the least and the greatest lengths, what they rest on and what they give.
pub fn known_shortened()
    ensures below_last { is_defined shortened_below (unrestricted (MAX_N - 1) MAX_N) ≡ true }
    ensures below_rests_on { shortened_below.rests_on (unrestricted (MAX_N - 1) MAX_N) ≡ unrestricted MAX_N MAX_N ∷ [] }
    ensures below_value { shortened_below.number (unrestricted 7 4) (16 ∷ []) ≡ Some 8 }
    ensures below_odd { shortened_below.number (unrestricted 7 4) (5 ∷ []) ≡ Some 3 }
    ensures below_long { is_defined shortened_below (unrestricted MAX_N MAX_N) ≡ false }
    ensures below_within { is_defined shortened_below (unrestricted 8 6) ≡ true }
    ensures below_of_weight { is_defined shortened_below (constant_weight 8 6 4) ≡ false }
    ensures below_no_entry { is_defined shortened_below (unrestricted (MAX_N + 1) 6) ≡ false }
    ensures above_near { is_defined shortened_above (unrestricted 8 3) ≡ true }
    ensures above_rests_on { shortened_above.rests_on (unrestricted 8 3) ≡ unrestricted 7 3 ∷ [] }
    ensures above_first { is_defined shortened_above (unrestricted 2 MAX_N) ≡ true }
    ensures above_first_rests_on { shortened_above.rests_on (unrestricted 2 MAX_N) ≡ unrestricted 1 MAX_N ∷ [] }
    ensures above_value { shortened_above.number (unrestricted 8 3) (16 ∷ []) ≡ Some 32 }
    ensures above_greatest { within_limit Upper (shortened_above.number (unrestricted MAX_N 3) (MAX_BOUND / 2 ∷ [])) ≡ Some MAX_BOUND }
    ensures above_cut { within_limit Upper (shortened_above.number (unrestricted MAX_N 3) ((MAX_BOUND / 2 + 1) ∷ [])) ≡ Some MAX_BOUND }
    ensures above_short { is_defined shortened_above (unrestricted 1 3) ≡ false }
    ensures above_within { is_defined shortened_above (unrestricted 8 6) ≡ true }
    ensures above_of_weight { is_defined shortened_above (constant_weight 8 6 4) ≡ false }
    ensures above_no_entry { is_defined shortened_above (unrestricted (MAX_N + 1) 6) ≡ false }
{}
