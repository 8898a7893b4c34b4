//! One word.

ghost use Rattle.std.specs.Prelude.{◌≡◌, ◌+◌, true, false, [], Some};
ghost use Rattle.ct_words.specs.declared.limits.TheConstants.{MAX_N};
ghost use Rattle.ct_words.specs.Entry.{unrestricted, constant_weight};
ghost use Rattle.ct_rule_parts.specs.Parts.{is_defined};
ghost use Rattle.ct_weight_rules.specs.OneWord.{one_word_of_weight};

/// Where the rule is defined, that it rests on nothing, and that it gives 1.
pub fn known_one_word()
    ensures defined { is_defined one_word_of_weight (constant_weight 4 4 4) ≡ true }
    ensures rests_on { one_word_of_weight.rests_on (constant_weight 4 4 4) ≡ [] }
    ensures value { one_word_of_weight.number (constant_weight 4 4 2) [] ≡ Some 1 }
    ensures within { is_defined one_word_of_weight (constant_weight 8 6 4) ≡ true }
    ensures no_weight { is_defined one_word_of_weight (unrestricted 8 6) ≡ false }
    ensures no_entry { is_defined one_word_of_weight (unrestricted (MAX_N + 1) 6) ≡ false }
    ensures long { is_defined one_word_of_weight (constant_weight (MAX_N + 1) 6 4) ≡ false }
{}
