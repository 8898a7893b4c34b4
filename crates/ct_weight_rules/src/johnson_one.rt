//! Johnson's bounds by the words with a one at a place.

ghost use Rattle.std.specs.Prelude.{◌≡◌, ◌+◌, ◌-◌, true, false, [], ◌∷◌, Some};
ghost use Rattle.ct_words.specs.declared.limits.TheConstants.{MAX_N};
ghost use Rattle.ct_words.specs.Entry.{IsEntry, unrestricted, constant_weight};
ghost use Rattle.ct_rule_parts.specs.Parts.{is_defined};
ghost use Rattle.ct_weight_rules.specs.JohnsonOne.{johnson_one_below, johnson_one_above};

use ct_rule_parts::first;
use ct_words::Entry;

/// What M5 gives where its premise has this value v: of v words of length n + 1 and weight w + 1 at least ⌈(w+1)·v/(n+1)⌉ have
/// a one at some place. A missing value counts as 0, and so does a missing weight.
pub fn count_with_one(entry: Entry, values: &[u32]) -> u64
    requires { IsEntry entry }
    ensures { Some result ≡ johnson_one_below.number entry values.now }
{
    let w = entry.w.unwrap_or(0);
    let ones = (u64::from(w) + 1) * first(values);
    ones.div_ceil(u64::from(entry.n + 1))
}

/// What V4 gives where its premise has this value u: where at most u words have a one at each place, there are at most
/// ⌊n·u/w⌋. A missing value counts as 0. The number is 0 where w is 0 or missing, where V4 is not defined.
pub fn bound_by_ones(entry: Entry, values: &[u32]) -> u64
    requires { IsEntry entry }
    ensures { Some result ≡ johnson_one_above.number entry values.now }
{
    let w = entry.w.unwrap_or(0);
    let ones = u64::from(entry.n) * first(values);
    ones.checked_div(u64::from(w)).unwrap_or(0)
}

/// Where the rules are defined, with the least and the greatest lengths, distances and weights, what they rest on and what they
/// give: A(9,4,2) = 4 from A(10,4,3) = 13, and the other way round.
pub fn known_johnson_one()
    ensures below_first { is_defined johnson_one_below (constant_weight 1 4 0) ≡ true }
    ensures below_first_rests_on { johnson_one_below.rests_on (constant_weight 1 4 0) ≡ constant_weight 2 4 1 ∷ [] }
    ensures below_last { is_defined johnson_one_below (constant_weight (MAX_N - 1) MAX_N (MAX_N - 1)) ≡ true }
    ensures below_last_rests_on { johnson_one_below.rests_on (constant_weight (MAX_N - 1) MAX_N (MAX_N - 1)) ≡ constant_weight MAX_N MAX_N MAX_N ∷ [] }
    ensures below_value { johnson_one_below.number (constant_weight 9 4 2) (13 ∷ []) ≡ Some 4 }
    ensures below_whole { johnson_one_below.number (constant_weight 7 4 3) (14 ∷ []) ≡ Some 7 }
    ensures below_long { is_defined johnson_one_below (constant_weight MAX_N 4 3) ≡ false }
    ensures below_too_long { is_defined johnson_one_below (constant_weight (MAX_N + 1) 4 3) ≡ false }
    ensures below_odd_distance { is_defined johnson_one_below (constant_weight 8 5 3) ≡ false }
    ensures below_heavy { is_defined johnson_one_below (constant_weight 8 4 9) ≡ false }
    ensures below_within { is_defined johnson_one_below (constant_weight 8 6 4) ≡ true }
    ensures below_no_weight { is_defined johnson_one_below (unrestricted 8 6) ≡ false }
    ensures above_first { is_defined johnson_one_above (constant_weight 2 4 1) ≡ true }
    ensures above_first_rests_on { johnson_one_above.rests_on (constant_weight 2 4 1) ≡ constant_weight 1 4 0 ∷ [] }
    ensures above_last { is_defined johnson_one_above (constant_weight MAX_N MAX_N MAX_N) ≡ true }
    ensures above_last_rests_on { johnson_one_above.rests_on (constant_weight MAX_N MAX_N MAX_N) ≡ constant_weight (MAX_N - 1) MAX_N (MAX_N - 1) ∷ [] }
    ensures above_value { johnson_one_above.number (constant_weight 10 4 3) (4 ∷ []) ≡ Some 13 }
    ensures above_whole { johnson_one_above.number (constant_weight 8 4 4) (7 ∷ []) ≡ Some 14 }
    ensures above_short { is_defined johnson_one_above (constant_weight 1 4 1) ≡ false }
    ensures above_no_ones { is_defined johnson_one_above (constant_weight 8 4 0) ≡ false }
    ensures above_too_long { is_defined johnson_one_above (constant_weight (MAX_N + 1) 4 3) ≡ false }
    ensures above_odd_distance { is_defined johnson_one_above (constant_weight 8 5 3) ≡ false }
    ensures above_heavy { is_defined johnson_one_above (constant_weight 8 4 9) ≡ false }
    ensures above_within { is_defined johnson_one_above (constant_weight 8 6 4) ≡ true }
    ensures above_no_weight { is_defined johnson_one_above (unrestricted 8 6) ≡ false }
{}
