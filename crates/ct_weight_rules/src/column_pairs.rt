//! Pairs of words with a one at one place.

ghost use Rattle.std.specs.Prelude.{◌≡◌, ◌+◌, true, false, [], Some, None};
ghost use Rattle.ct_words.specs.declared.limits.TheConstants.{MAX_N};
ghost use Rattle.ct_words.specs.Entry.{IsEntry, unrestricted, constant_weight};
ghost use Rattle.ct_rule_parts.specs.Parts.{is_defined};
ghost use Rattle.ct_weight_rules.specs.ColumnPairs.{below_too_many, column_pairs};

use ct_johnson::column_count;
use ct_words::Entry;

/// The number that V8 gives, one below the least number of words that is too many; `None` where the entry has no weight
/// or there is none.
pub fn below_too_many(entry: Entry) -> Option<u64>
    requires { IsEntry entry }
    ensures { result ≡ below_too_many entry }
{
    let least = column_count(entry.n, entry.d, entry.w?)?;
    Some(u64::from(least - 1))
}

/// Where the rule is defined, that it rests on nothing, and what it gives: A(7,4,3) ≤ 7, which a code has, and so on.
#[tactic(auto, unfolding(ct_johnson::specs::Bounds::least_from))]
pub fn known_column_pairs()
    ensures defined { is_defined column_pairs (constant_weight 7 4 3) ≡ true }
    ensures rests_on { column_pairs.rests_on (constant_weight 7 4 3) ≡ [] }
    ensures value { column_pairs.number (constant_weight 7 4 3) [] ≡ Some 7 }
    ensures of_twelve { column_pairs.number (constant_weight 12 6 4) [] ≡ Some 9 }
    ensures many { column_pairs.number (constant_weight 30 14 11) [] ≡ Some 210 }
    ensures first_fails { column_pairs.number (constant_weight 8 8 3) [] ≡ None }
    ensures least_weight { column_pairs.number (constant_weight 8 8 4) [] ≡ Some 2 }
    ensures one_word { column_pairs.number (constant_weight 5 6 3) [] ≡ Some 1 }
    ensures light { is_defined column_pairs (constant_weight 8 8 3) ≡ false }
    ensures none { is_defined column_pairs (constant_weight 8 4 4) ≡ false }
    ensures greatest { is_defined column_pairs (constant_weight MAX_N MAX_N MAX_N) ≡ true }
    ensures no_weight { is_defined column_pairs (unrestricted 7 4) ≡ false }
    ensures odd { is_defined column_pairs (constant_weight 7 5 3) ≡ false }
    ensures long { is_defined column_pairs (constant_weight (MAX_N + 1) 4 4) ≡ false }
{}
