//! The words 0..0 and 1..1.

ghost use Rattle.std.specs.Prelude.{◌≡◌, ◌+◌, true, false, [], Some};
ghost use Rattle.ct_words.specs.declared.limits.TheConstants.{MAX_N};
ghost use Rattle.ct_words.specs.Entry.{unrestricted, constant_weight};
ghost use Rattle.ct_rule_parts.specs.Parts.{is_defined};
ghost use Rattle.ct_plain_rules.specs.OppositeWords.{opposite_words};

/// Where the rule is defined, that it rests on nothing, and that it gives 2.
pub fn known_opposite_words()
    ensures defined { is_defined opposite_words (unrestricted 5 5) ≡ true }
    ensures rests_on { opposite_words.rests_on (unrestricted 5 5) ≡ [] }
    ensures value { opposite_words.number (unrestricted 5 5) [] ≡ Some 2 }
    ensures too_far { is_defined opposite_words (unrestricted 5 6) ≡ false }
    ensures within { is_defined opposite_words (unrestricted 8 6) ≡ true }
    ensures of_weight { is_defined opposite_words (constant_weight 8 6 4) ≡ false }
    ensures no_entry { is_defined opposite_words (unrestricted (MAX_N + 1) 6) ≡ false }
{}
