//! A digit more.

ghost use Rattle.std.specs.Prelude.{◌≡◌, ◌+◌, ◌-◌, true, false, [], ◌∷◌, Some};
ghost use Rattle.ct_words.specs.Entry.{unrestricted, constant_weight};
ghost use Rattle.ct_rule_parts.specs.Parts.{is_defined};
ghost use Rattle.ct_weight_rules.specs.Lengthened.{lengthened_by_zero, lengthened_by_one};

use ct_words::MAX_N;

/// Where the rules are defined, with the least and the greatest lengths and weights, what they rest on and what they
/// give: a 0 after each word keeps the weight, a 1 adds one to it.
pub fn known_lengthened()
    ensures zero_first { is_defined lengthened_by_zero (constant_weight 2 4 1) ≡ true }
    ensures zero_first_rests_on { lengthened_by_zero.rests_on (constant_weight 2 4 1) ≡ constant_weight 1 4 1 ∷ [] }
    ensures zero_last { is_defined lengthened_by_zero (constant_weight MAX_N MAX_N (MAX_N - 1)) ≡ true }
    ensures zero_last_rests_on { lengthened_by_zero.rests_on (constant_weight MAX_N MAX_N (MAX_N - 1)) ≡ constant_weight (MAX_N - 1) MAX_N (MAX_N - 1) ∷ [] }
    ensures zero_no_ones { is_defined lengthened_by_zero (constant_weight 8 4 0) ≡ true }
    ensures zero_no_ones_rests_on { lengthened_by_zero.rests_on (constant_weight 8 4 0) ≡ constant_weight 7 4 0 ∷ [] }
    ensures zero_value { lengthened_by_zero.number (constant_weight 9 4 4) (14 ∷ []) ≡ Some 14 }
    ensures zero_no_zeros { is_defined lengthened_by_zero (constant_weight 8 4 8) ≡ false }
    ensures zero_short { is_defined lengthened_by_zero (constant_weight 1 4 0) ≡ false }
    ensures zero_odd_distance { is_defined lengthened_by_zero (constant_weight 8 5 3) ≡ false }
    ensures zero_no_weight { is_defined lengthened_by_zero (unrestricted 8 6) ≡ false }
    ensures zero_no_entry { is_defined lengthened_by_zero (constant_weight (MAX_N + 1) 6 4) ≡ false }
    ensures one_first { is_defined lengthened_by_one (constant_weight 2 4 1) ≡ true }
    ensures one_first_rests_on { lengthened_by_one.rests_on (constant_weight 2 4 1) ≡ constant_weight 1 4 0 ∷ [] }
    ensures one_last { is_defined lengthened_by_one (constant_weight MAX_N MAX_N MAX_N) ≡ true }
    ensures one_last_rests_on { lengthened_by_one.rests_on (constant_weight MAX_N MAX_N MAX_N) ≡ constant_weight (MAX_N - 1) MAX_N (MAX_N - 1) ∷ [] }
    ensures one_value { lengthened_by_one.number (constant_weight 9 4 5) (14 ∷ []) ≡ Some 14 }
    ensures one_no_ones { is_defined lengthened_by_one (constant_weight 8 4 0) ≡ false }
    ensures one_short { is_defined lengthened_by_one (constant_weight 1 4 1) ≡ false }
    ensures one_odd_distance { is_defined lengthened_by_one (constant_weight 8 5 3) ≡ false }
    ensures one_no_weight { is_defined lengthened_by_one (unrestricted 8 6) ≡ false }
    ensures one_no_entry { is_defined lengthened_by_one (constant_weight (MAX_N + 1) 6 4) ≡ false }
{}
