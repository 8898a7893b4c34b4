//! Plotkin's bound, by the average distance of the words.

ghost use Rattle.std.specs.Prelude.{◌≡◌, ◌+◌, true, false, [], Some};
ghost use Rattle.ct_words.specs.declared.limits.TheConstants.{MAX_N};
ghost use Rattle.ct_words.specs.Entry.{unrestricted, constant_weight};
ghost use Rattle.ct_rule_parts.specs.Parts.{is_defined};
ghost use Rattle.ct_plain_rules.specs.Plotkin.{plotkin};

/// Where the rule is defined, with the least and the greatest lengths at even and odd distances, that it rests on nothing, and
/// what it gives.
pub fn known_plotkin()
    ensures defined { is_defined plotkin (unrestricted 10 6) ≡ true }
    ensures rests_on { plotkin.rests_on (unrestricted 10 6) ≡ [] }
    ensures value { plotkin.number (unrestricted 10 6) [] ≡ Some 6 }
    ensures near { plotkin.number (unrestricted 6 4) [] ≡ Some 4 }
    ensures shortest { plotkin.number (unrestricted 6 6) [] ≡ Some 2 }
    ensures before_last { plotkin.number (unrestricted 11 6) [] ≡ Some 12 }
    ensures longest { plotkin.number (unrestricted 8 4) [] ≡ Some 16 }
    ensures odd { plotkin.number (unrestricted 5 3) [] ≡ Some 4 }
    ensures shortest_odd { plotkin.number (unrestricted 5 5) [] ≡ Some 2 }
    ensures before_last_odd { plotkin.number (unrestricted 10 5) [] ≡ Some 12 }
    ensures longest_odd { plotkin.number (unrestricted 11 5) [] ≡ Some 24 }
    ensures short { is_defined plotkin (unrestricted 5 6) ≡ false }
    ensures short_odd { is_defined plotkin (unrestricted 4 5) ≡ false }
    ensures long { is_defined plotkin (unrestricted 13 6) ≡ false }
    ensures long_odd { is_defined plotkin (unrestricted 12 5) ≡ false }
    ensures within { is_defined plotkin (unrestricted 8 6) ≡ true }
    ensures of_weight { is_defined plotkin (constant_weight 8 6 4) ≡ false }
    ensures no_entry { is_defined plotkin (unrestricted (MAX_N + 1) 6) ≡ false }
{}
