//! u followed by u + v.

ghost use Rattle.std.specs.Prelude.{◌≡◌, ◌/◌, ◌+◌, true, false, ◌^◌, ◌∷◌, [], Some, None};
ghost use Rattle.ct_words.specs.declared.limits.TheConstants.{MAX_N, MAX_BOUND};
ghost use Rattle.ct_words.specs.declared.claim.Side.TheVariants.{Lower};
ghost use Rattle.ct_words.specs.Entry.{IsEntry, unrestricted, constant_weight};
ghost use Rattle.ct_rule_parts.specs.Entries.{listed};
ghost use Rattle.ct_rule_parts.specs.Parts.{is_defined, within_limit};
ghost use Rattle.ct_plain_rules.specs.Inside.RestedOn.{by_uuv};
ghost use Rattle.ct_plain_rules.specs.Uuv.{uuv};

use crate::neighbours::{half_as_long, twice_as_long};
use ct_rule_parts::{Entries, first, second};
use ct_words::Entry;

/// The entries of L8's premises: from distance 5 on the codes of the u come first.
pub fn parts_of_uuv(entry: Entry) -> Entries<'static>
    requires { IsEntry entry }
    ensures { listed result ≡ uuv.rests_on entry }
{
    let d = entry.d;
    if d < 5 {
        Entries::One(half_as_long(entry, d))
    } else {
        Entries::Two(half_as_long(entry, d.div_ceil(2)), half_as_long(entry, d))
    }
}

/// How many sums L8 gives where its premises have these values.
pub fn count_of_uuv(entry: Entry, values: &[u32]) -> u64
    requires { IsEntry entry }
    ensures { Some result ≡ uuv.number entry values.now }
{
    if entry.d < 5 {
        (1 << (entry.n / 2).saturating_sub(1)) * first(values)
    } else {
        first(values) * second(values)
    }
}

/// The entries among which are all whose sums have words of this one.
pub fn uuv_of(entry: Entry) -> Entries<'static>
    requires { IsEntry entry }
    ensures { listed result ≡ by_uuv entry }
{
    let d = entry.d;
    Entries::Three(
        twice_as_long(entry, d),
        twice_as_long(entry, 2 * d - 1),
        twice_as_long(entry, 2 * d),
    )
}

/// Where the rule is defined, what it rests on and what it gives: A(16,4) ≥ 2048 and A(16,8) ≥ 32 from A(8,4) = 16 and
/// A(8,8) = 2, and so on. A number above `MAX_BOUND` is no bound.
pub fn known_uuv()
    ensures first { is_defined uuv (unrestricted 2 3) ≡ true }
    // At distances 3 and 4 the words u are all words of even weight.
    ensures first_rests_on { uuv.rests_on (unrestricted 2 3) ≡ unrestricted 1 3 ∷ [] }
    ensures last_near { is_defined uuv (unrestricted 8 4) ≡ true }
    ensures last_near_rests_on { uuv.rests_on (unrestricted 8 4) ≡ unrestricted 4 4 ∷ [] }
    ensures first_far { is_defined uuv (unrestricted 8 5) ≡ true }
    ensures first_far_rests_on { uuv.rests_on (unrestricted 8 5) ≡ unrestricted 4 3 ∷ unrestricted 4 5 ∷ [] }
    ensures even_rests_on { uuv.rests_on (unrestricted 8 6) ≡ unrestricted 4 3 ∷ unrestricted 4 6 ∷ [] }
    ensures odd_rests_on { uuv.rests_on (unrestricted 8 7) ≡ unrestricted 4 4 ∷ unrestricted 4 7 ∷ [] }
    ensures odd { is_defined uuv (unrestricted 8 7) ≡ true }
    ensures of_one { uuv.number (unrestricted 6 4) (1 ∷ []) ≡ Some 4 }
    ensures near { uuv.number (unrestricted 16 4) (16 ∷ []) ≡ Some 2048 }
    ensures far { uuv.number (unrestricted 16 8) (16 ∷ 2 ∷ []) ≡ Some 32 }
    ensures at_five { uuv.number (unrestricted 6 5) (2 ∷ 1 ∷ []) ≡ Some 2 }
    ensures greatest { within_limit Lower (uuv.number (unrestricted MAX_N 6) (MAX_BOUND / 2 ∷ 2 ∷ [])) ≡ Some MAX_BOUND }
    // 25 · 42,949,673 is 2^30 + 1.
    ensures above { within_limit Lower (uuv.number (unrestricted 30 6) (25 ∷ 42949673 ∷ [])) ≡ None }
    ensures far_above { within_limit Lower (uuv.number (unrestricted MAX_N 6) (MAX_BOUND / 2 ∷ 4 ∷ [])) ≡ None }
    ensures odd_length { is_defined uuv (unrestricted 7 4) ≡ false }
    ensures within { is_defined uuv (unrestricted 8 6) ≡ true }
    ensures of_weight { is_defined uuv (constant_weight 8 6 4) ≡ false }
    ensures no_entry { is_defined uuv (unrestricted (MAX_N + 1) 6) ≡ false }
{}
