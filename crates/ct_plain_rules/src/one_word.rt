//! One word.

ghost use Rattle.std.specs.Prelude.{◌≡◌, ◌+◌, true, false, [], Some};
ghost use Rattle.ct_words.specs.declared.limits.TheConstants.{MAX_N};
ghost use Rattle.ct_words.specs.Entry.{unrestricted, constant_weight};
ghost use Rattle.ct_rule_parts.specs.Parts.{is_defined};
ghost use Rattle.ct_plain_rules.specs.OneWord.{one_word};

/// Where the rule is defined, that it rests on nothing, and that it gives 1.
pub fn known_one_word()
    ensures defined { is_defined one_word (unrestricted MAX_N MAX_N) ≡ true }
    ensures rests_on { one_word.rests_on (unrestricted MAX_N MAX_N) ≡ [] }
    ensures value { one_word.number (unrestricted 1 3) [] ≡ Some 1 }
    ensures within { is_defined one_word (unrestricted 8 6) ≡ true }
    ensures of_weight { is_defined one_word (constant_weight 8 6 4) ≡ false }
    ensures no_entry { is_defined one_word (unrestricted (MAX_N + 1) 6) ≡ false }
{}
