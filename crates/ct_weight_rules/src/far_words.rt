//! Far words.

ghost use Rattle.std.specs.Prelude.{◌≡◌, ◌+◌, ◌-◌, ◌/◌, true, false, [], Some};
ghost use Rattle.ct_words.specs.Entry.{IsEntry, unrestricted, constant_weight};
ghost use Rattle.ct_rule_parts.specs.Parts.{is_defined};
ghost use Rattle.ct_weight_rules.specs.FarWords.{has_no_far_words, far_words_of_weight};

use ct_words::{Entry, MAX_N};

/// Whether the entry has a weight, and no two words of it are as far apart as its distance: d > 2·min(w, n−w).
pub fn has_no_far_words(entry: Entry) -> bool
    requires { IsEntry entry }
    ensures { result ≡ has_no_far_words entry }
{
    match entry.w {
        Some(w) => 2 * w.min(entry.n - w) < entry.d,
        None => false,
    }
}

/// Where the rule is defined, with few ones and with few zeros, that it rests on nothing, and that it gives 1.
pub fn known_far_words()
    ensures few_ones { is_defined far_words_of_weight (constant_weight MAX_N 6 2) ≡ true }
    ensures few_zeros { is_defined far_words_of_weight (constant_weight MAX_N 6 (MAX_N - 2)) ≡ true }
    ensures rests_on { far_words_of_weight.rests_on (constant_weight 13 6 12) ≡ [] }
    ensures value { far_words_of_weight.number (constant_weight 13 6 12) [] ≡ Some 1 }
    ensures no_ones { is_defined far_words_of_weight (constant_weight MAX_N 4 0) ≡ true }
    ensures no_zeros { is_defined far_words_of_weight (constant_weight MAX_N 4 MAX_N) ≡ true }
    ensures half { is_defined far_words_of_weight (constant_weight (MAX_N - 1) MAX_N (MAX_N / 2 - 1)) ≡ true }
    ensures first { is_defined far_words_of_weight (constant_weight 1 4 0) ≡ true }
    ensures near_ones { is_defined far_words_of_weight (constant_weight MAX_N 6 3) ≡ false }
    ensures near_zeros { is_defined far_words_of_weight (constant_weight MAX_N 6 (MAX_N - 3)) ≡ false }
    ensures near_half { is_defined far_words_of_weight (constant_weight MAX_N MAX_N (MAX_N / 2)) ≡ false }
    ensures heavy { is_defined far_words_of_weight (constant_weight 8 6 9) ≡ false }
    ensures no_weight { is_defined far_words_of_weight (unrestricted 5 6) ≡ false }
    ensures no_entry { is_defined far_words_of_weight (constant_weight (MAX_N + 1) 6 2) ≡ false }
{}
