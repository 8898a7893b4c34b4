//! Words with no one in common.

ghost use Rattle.std.specs.Prelude.{◌≡◌, ◌+◌, ◌/◌, true, false, [], Some};
ghost use Rattle.ct_words.specs.Entry.{IsEntry, unrestricted, constant_weight};
ghost use Rattle.ct_rule_parts.specs.Parts.{is_defined};
ghost use Rattle.ct_weight_rules.specs.Disjoint.{has_disjoint_words, count_of_disjoint, disjoint_below, disjoint_above};

use ct_words::{Entry, MAX_N};

/// Whether the entry has a weight, and this is half its distance: two words of a code of the entry have no one in common.
pub fn has_disjoint_words(entry: Entry) -> bool
    ensures { result ≡ has_disjoint_words entry }
{
    match entry.w {
        Some(w) => w == entry.d / 2,
        None => false,
    }
}

/// The number of M2 and V2: how many words of d/2 ones there are side by side, ⌊n/(d/2)⌋ (Johnson 1962; Brouwer,
/// Shearer, Sloane and Smith 1990).
pub fn count_of_disjoint(entry: Entry) -> u64
    requires { IsEntry entry }
    ensures { result ≡ count_of_disjoint entry }
{
    u64::from(entry.n / (entry.d / 2))
}

/// Where the rules are defined, with the least and the greatest distances, that they rest on nothing and what they give:
/// A(13,6,3) is 4.
pub fn known_disjoint()
    ensures below_first { is_defined disjoint_below (constant_weight 2 4 2) ≡ true }
    ensures below_first_value { disjoint_below.number (constant_weight 2 4 2) [] ≡ Some 1 }
    ensures below_last { is_defined disjoint_below (constant_weight MAX_N MAX_N (MAX_N / 2)) ≡ true }
    ensures below_last_value { disjoint_below.number (constant_weight MAX_N MAX_N (MAX_N / 2)) [] ≡ Some 2 }
    ensures below_rests_on { disjoint_below.rests_on (constant_weight 13 6 3) ≡ [] }
    ensures below_value { disjoint_below.number (constant_weight 13 6 3) [] ≡ Some 4 }
    ensures below_many { disjoint_below.number (constant_weight MAX_N 4 2) [] ≡ Some (MAX_N / 2) }
    ensures below_light { is_defined disjoint_below (constant_weight 13 6 2) ≡ false }
    ensures below_heavy { is_defined disjoint_below (constant_weight 13 6 4) ≡ false }
    ensures below_long_word { is_defined disjoint_below (constant_weight 2 6 3) ≡ false }
    ensures below_no_weight { is_defined disjoint_below (unrestricted 13 6) ≡ false }
    ensures below_no_entry { is_defined disjoint_below (constant_weight (MAX_N + 1) 6 3) ≡ false }
    ensures above_first { is_defined disjoint_above (constant_weight 2 4 2) ≡ true }
    ensures above_first_value { disjoint_above.number (constant_weight 2 4 2) [] ≡ Some 1 }
    ensures above_last { is_defined disjoint_above (constant_weight MAX_N MAX_N (MAX_N / 2)) ≡ true }
    ensures above_last_value { disjoint_above.number (constant_weight MAX_N MAX_N (MAX_N / 2)) [] ≡ Some 2 }
    ensures above_rests_on { disjoint_above.rests_on (constant_weight 13 6 3) ≡ [] }
    ensures above_value { disjoint_above.number (constant_weight 13 6 3) [] ≡ Some 4 }
    ensures above_many { disjoint_above.number (constant_weight MAX_N 4 2) [] ≡ Some (MAX_N / 2) }
    ensures above_light { is_defined disjoint_above (constant_weight 13 6 2) ≡ false }
    ensures above_heavy { is_defined disjoint_above (constant_weight 13 6 4) ≡ false }
    ensures above_long_word { is_defined disjoint_above (constant_weight 2 6 3) ≡ false }
    ensures above_no_weight { is_defined disjoint_above (unrestricted 13 6) ≡ false }
    ensures above_no_entry { is_defined disjoint_above (constant_weight (MAX_N + 1) 6 3) ≡ false }
{}
