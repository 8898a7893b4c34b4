//! The words outside the balls.

ghost use Rattle.std.specs.Prelude.{◌≡◌, ◌+◌, ◌-◌, true, false, [], ◌∷◌, Some, None};
ghost use Rattle.ct_words.specs.declared.limits.TheConstants.{MAX_N};
ghost use Rattle.ct_words.specs.Entry.{IsEntry, unrestricted, constant_weight};
ghost use Rattle.ct_rule_parts.specs.Parts.{is_defined};
ghost use Rattle.ct_weight_rules.specs.Inside.RestedOn.{by_johnson};
ghost use Rattle.ct_weight_rules.specs.Johnson.{johnson_above};

use ct_johnson::johnson_odd;
use ct_rule_parts::first;
use ct_words::Entry;

/// The number that U9 gives where its premise has the value, for the distance 2⌈d/2⌉ − 1, which is d where U9 is defined;
/// `None` where so many words leave none outside the balls.
pub fn johnson_bound(entry: Entry, values: &[u32]) -> Option<u64>
    requires { IsEntry entry }
    ensures { result ≡ johnson_above.number entry values.now }
{
    johnson_odd(entry.n, entry.d.div_ceil(2), first(values) as u32)
}

/// Where the rule is defined, with the least and the greatest distances, what it rests on and what it gives: A(11,5) ≤ 24 from
/// A(11,6,5) = 11, which a code has, and A(8,3) ≤ 25 from A(8,4,3) = 8; nothing from A(7,4,3) = 7.
pub fn known_johnson()
    ensures defined { is_defined johnson_above (unrestricted 11 5) ≡ true }
    ensures rests_on { johnson_above.rests_on (unrestricted 11 5) ≡ constant_weight 11 6 5 ∷ [] }
    ensures value { johnson_above.number (unrestricted 11 5) (11 ∷ []) ≡ Some 24 }
    ensures nearest { is_defined johnson_above (unrestricted 8 3) ≡ true }
    ensures nearest_rests_on { johnson_above.rests_on (unrestricted 8 3) ≡ constant_weight 8 4 3 ∷ [] }
    ensures nearest_value { johnson_above.number (unrestricted 8 3) (8 ∷ []) ≡ Some 25 }
    // Each of the words of A(7,4,3) takes 3 of the 21 words at distance 2.
    ensures few_outside { johnson_above.number (unrestricted 7 3) (6 ∷ []) ≡ Some 14 }
    ensures none_outside { johnson_above.number (unrestricted 7 3) (7 ∷ []) ≡ None }
    ensures more_than_all { johnson_above.number (unrestricted 7 3) (8 ∷ []) ≡ None }
    ensures shortest { is_defined johnson_above (unrestricted 3 3) ≡ true }
    ensures shortest_value { johnson_above.number (unrestricted 3 3) (1 ∷ []) ≡ None }
    ensures short { is_defined johnson_above (unrestricted 4 5) ≡ false }
    ensures even { is_defined johnson_above (unrestricted 11 6) ≡ false }
    ensures greatest { is_defined johnson_above (unrestricted MAX_N (MAX_N - 1)) ≡ true }
    ensures greatest_rests_on { johnson_above.rests_on (unrestricted MAX_N (MAX_N - 1)) ≡ constant_weight MAX_N MAX_N (MAX_N - 1) ∷ [] }
    ensures greatest_even { is_defined johnson_above (unrestricted MAX_N MAX_N) ≡ false }
    ensures of_weight { is_defined johnson_above (constant_weight 11 6 5) ≡ false }
    ensures no_entry { is_defined johnson_above (unrestricted (MAX_N + 1) 5) ≡ false }
    ensures rested_on_by { by_johnson (constant_weight 11 6 5) ≡ unrestricted 11 5 ∷ [] }
{}
