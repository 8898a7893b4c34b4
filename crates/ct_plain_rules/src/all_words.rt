//! All words.

ghost use Rattle.std.specs.Prelude.{◌≡◌, ◌+◌, true, false, [], Some};
ghost use Rattle.ct_words.specs.declared.limits.TheConstants.{MAX_N, MAX_BOUND};
ghost use Rattle.ct_words.specs.Entry.{unrestricted, constant_weight};
ghost use Rattle.ct_rule_parts.specs.Parts.{is_defined};
ghost use Rattle.ct_plain_rules.specs.AllWords.{all_words};

/// Where the rule is defined, that it rests on nothing, and what it gives.
pub fn known_all_words()
    ensures defined { is_defined all_words (unrestricted 1 MAX_N) ≡ true }
    ensures rests_on { all_words.rests_on (unrestricted 1 MAX_N) ≡ [] }
    ensures value { all_words.number (unrestricted 3 3) [] ≡ Some 8 }
    ensures longest { all_words.number (unrestricted MAX_N 3) [] ≡ Some MAX_BOUND }
    ensures within { is_defined all_words (unrestricted 8 6) ≡ true }
    ensures of_weight { is_defined all_words (constant_weight 8 6 4) ≡ false }
    ensures no_entry { is_defined all_words (unrestricted (MAX_N + 1) 6) ≡ false }
{}
