//! Words by one digit.

ghost use Rattle.std.specs.Prelude.{◌≡◌, ◌+◌, ◌-◌, ◌/◌, true, false, ◌∷◌, [], Some};
ghost use Rattle.ct_words.specs.declared.claim.Side.TheVariants.{Upper};
ghost use Rattle.ct_words.specs.Entry.{IsEntry, unrestricted, constant_weight};
ghost use Rattle.ct_rule_parts.specs.Entries.{listed};
ghost use Rattle.ct_rule_parts.specs.Parts.{is_defined, within_limit};
ghost use Rattle.ct_weight_rules.specs.Inside.RestedOn.{by_split};
ghost use Rattle.ct_weight_rules.specs.Split.{split};

use crate::neighbours::{one_less, one_more, zero_less, zero_more};
use ct_rule_parts::Entries;
use ct_words::{Entry, MAX_BOUND, MAX_N};

/// The entries of V6's premises: A(n−1,d,w), and A(n−1,d,w−1).
pub fn parts_of_split(entry: Entry) -> Entries<'static>
    requires { IsEntry entry }
    ensures { listed result ≡ split.rests_on entry }
{
    Entries::Two(zero_less(entry), one_less(entry))
}

/// The entries that this one is a part of: A(n+1,d,w), and A(n+1,d,w+1).
pub fn split_into(entry: Entry) -> Entries<'static>
    requires { IsEntry entry }
    ensures { listed result ≡ by_split entry }
{
    Entries::Two(zero_more(entry), one_more(entry))
}

/// Where the rule is defined, with the least and the greatest lengths and weights, what it rests on, the words with a 0 first,
/// and what it gives: a number above `MAX_BOUND` is taken as `MAX_BOUND`.
pub fn known_split()
    ensures first { is_defined split (constant_weight 2 4 1) ≡ true }
    ensures first_rests_on { split.rests_on (constant_weight 2 4 1) ≡ constant_weight 1 4 1 ∷ constant_weight 1 4 0 ∷ [] }
    ensures last { is_defined split (constant_weight MAX_N MAX_N (MAX_N - 1)) ≡ true }
    ensures last_rests_on { split.rests_on (constant_weight MAX_N MAX_N (MAX_N - 1)) ≡ constant_weight (MAX_N - 1) MAX_N (MAX_N - 1) ∷ constant_weight (MAX_N - 1) MAX_N (MAX_N - 2) ∷ [] }
    ensures light { is_defined split (constant_weight MAX_N 4 1) ≡ true }
    ensures light_rests_on { split.rests_on (constant_weight MAX_N 4 1) ≡ constant_weight (MAX_N - 1) 4 1 ∷ constant_weight (MAX_N - 1) 4 0 ∷ [] }
    ensures value { split.number (constant_weight 8 4 4) (7 ∷ 7 ∷ []) ≡ Some 14 }
    ensures greatest { within_limit Upper (split.number (constant_weight MAX_N 4 (MAX_N / 2)) ((MAX_BOUND / 2) ∷ (MAX_BOUND / 2) ∷ [])) ≡ Some MAX_BOUND }
    ensures cut { within_limit Upper (split.number (constant_weight MAX_N 4 (MAX_N / 2)) (MAX_BOUND ∷ 1 ∷ [])) ≡ Some MAX_BOUND }
    ensures no_ones { is_defined split (constant_weight 8 4 0) ≡ false }
    ensures no_zeros { is_defined split (constant_weight 8 4 8) ≡ false }
    ensures short { is_defined split (constant_weight 1 4 1) ≡ false }
    ensures odd_distance { is_defined split (constant_weight 8 5 3) ≡ false }
    ensures no_weight { is_defined split (unrestricted 8 6) ≡ false }
    ensures no_entry { is_defined split (constant_weight (MAX_N + 1) 6 4) ≡ false }
{}
