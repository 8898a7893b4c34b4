//! Far words.

ghost use Rattle.std.specs.Prelude.{◌≡◌, ◌-◌, ◌+◌, true, false, [], Some};
ghost use Rattle.ct_words.specs.declared.limits.TheConstants.{MAX_N};
ghost use Rattle.ct_words.specs.Entry.{unrestricted, constant_weight};
ghost use Rattle.ct_rule_parts.specs.Parts.{is_defined};
ghost use Rattle.ct_plain_rules.specs.FarWords.{far_words};

/// Where the rule is defined, that it rests on nothing, and that it gives 1.
pub fn known_far_words()
    ensures defined { is_defined far_words (unrestricted (MAX_N - 1) MAX_N) ≡ true }
    ensures rests_on { far_words.rests_on (unrestricted (MAX_N - 1) MAX_N) ≡ [] }
    ensures value { far_words.number (unrestricted 5 6) [] ≡ Some 1 }
    ensures not_far { is_defined far_words (unrestricted 6 6) ≡ false }
    ensures near { is_defined far_words (unrestricted 8 6) ≡ false }
    ensures of_weight { is_defined far_words (constant_weight 8 6 4) ≡ false }
    ensures no_entry { is_defined far_words (unrestricted (MAX_N + 1) 6) ≡ false }
{}
