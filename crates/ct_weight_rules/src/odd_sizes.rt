//! Sizes that parity excludes: U12.

ghost use Rattle.std.specs.Prelude.{◌≡◌, ◌≤◌, ◌-◌, ◌%◌, ℕ, List, true, false, [], ◌∷◌, Some, None, pos, ◌*ℤ◌, ◌≤ℤ◌, ◌<ℤ◌, int_lt};
ghost use Rattle.ct_words.specs.Code.{IsTrueUpper};
ghost use Rattle.ct_words.specs.Entry.{unrestricted, constant_weight};
ghost use Rattle.ct_words.specs.Numbers.{numbers_of, combination};
ghost use Rattle.ct_duals.specs.Bound.{AreTrueUppers, dual_premises, dual_spread};
ghost use Rattle.ct_duals.specs.Check.{dual_fault};
ghost use Rattle.ct_duals.specs.Dual.{IsDual};
ghost use Rattle.ct_duals.specs.Examples.{eight_four_four};
ghost use Rattle.ct_duals.specs.declared.dual.Dual.{Dual};
ghost use Rattle.ct_parity.specs.declared.sums.TheConstants.{MAX_ODD};
ghost use Rattle.ct_parity.specs.OddSum.{odd_sum};
ghost use Rattle.ct_rule_parts.specs.declared.support.Support.TheVariants.{Nothing, Size, Bound, Odd};
ghost use Rattle.ct_rule_parts.specs.Parts.{is_defined};
ghost use Rattle.ct_weight_rules.specs.OddExamples.{nine_four, five_three, odd_by};
ghost use Rattle.ct_weight_rules.specs.OddSizes.{is_odd_size, size_below, odd_size_above};

use ct_parity::{MAX_ODD, odd_sum};
use ct_rule_parts::AcceptedDual;

/// Whether a number of words is one that parity may exclude: odd, from 3 to `MAX_ODD`.
fn is_odd_size(m: u32) -> bool
    ensures { result ≡ is_odd_size m }
{
    3 <= m && m <= MAX_ODD && m % 2 == 1
}

/// Whether `least` is above the product of `m` and `most`, both at least 1. The product, which need not fit, is not made.
fn is_above(least: i128, m: u32, most: i128) -> bool
    requires some { 1 ≤ m }
    requires most { pos 1 ≤ℤ most }
    ensures { result ≡ int_lt (pos m *ℤ most) least }
{
    if least <= 0 {
        return false;
    }
    (least as u128 - 1) / u128::from(m) >= most as u128
}

/// The number that U12 gives from the upper bounds that the dual rests on, in their order: m − 1 where m is odd, from 3 to `MAX_ODD`,
/// and f adds up to more over the pairs of any m words than over those of m words of a code: L > m·E, with L the sum `odd_sum`, and
/// E the spread f(0) + S + T. `None` elsewhere. It takes no memory.
pub fn size_below(accepted: &AcceptedDual, m: u32, uppers: &[u32]) -> Option<u64>
    ensures { result ≡ size_below (Some (record { accepted = accepted.now; m = m })) uppers.now }
{
    if !is_odd_size(m) {
        return None;
    }
    let dual = accepted.dual();
    let least = odd_sum(dual.entry.n, m, dual.c.as_slice());
    if is_above(least, m, accepted.spread(uppers)) {
        Some(u64::from(m - 1))
    } else {
        None
    }
}

/// Where a dual of an entry without weight is accepted, the upper bounds that it rests on are true, m is odd and L > m·E, no code of
/// the entry has m words or more (Best, Brouwer, MacWilliams, Odlyzko and Sloane 1978, section II): one with more has one of m words
/// in it, over whose pairs f adds up to at most m·E, while over the pairs of any m words it adds up to at least L.
pub fn parity_excludes_sizes()
    ensures { (dual : Dual) (m : ℕ) (uppers : List ℕ) → dual.entry.w ≡ None → IsDual dual → dual_fault (numbers_of dual.entry) dual ≡ None →
        AreTrueUppers (dual_premises dual) uppers → m % 2 ≡ 1 →
        (pos m *ℤ dual_spread dual (combination (numbers_of dual.entry) dual.c 0) uppers) <ℤ odd_sum dual.entry.n m dual.c →
        IsTrueUpper dual.entry (m - 1) }
{}

/// What a dual and an odd number of words give to the entry without weight that the dual is of, and to no other: A(9,4) is at most 20,
/// since 21 words are excluded, L = 1368 and 21·64 = 1344; 19 words are not, nor an even number, nor 5 of A(5,3), where L = 5·5.
pub fn known_odd_sizes()
    ensures value { (odd_size_above (Some (Odd (record { dual = nine_four; at_zero = pos 48 }) 21))).number (unrestricted 9 4) (1 ∷ []) ≡ Some 20 }
    ensures fewer { size_below (Some (odd_by nine_four (pos 48) 19)) (1 ∷ []) ≡ None }
    ensures even { size_below (Some (odd_by nine_four (pos 48) 22)) (1 ∷ []) ≡ None }
    ensures next { size_below (Some (odd_by nine_four (pos 48) 23)) (1 ∷ []) ≡ Some 22 }
    ensures not_above { size_below (Some (odd_by five_three (pos 1) 5)) (2 ∷ 1 ∷ 1 ∷ []) ≡ None }
    ensures group { size_below (Some (odd_by five_three (pos 1) 5)) (2 ∷ 0 ∷ 1 ∷ []) ≡ Some 4 }
    ensures one_word { size_below (Some (odd_by nine_four (pos 0) 1)) [] ≡ None }
    ensures three_words { size_below (Some (odd_by nine_four (pos 0) 3)) [] ≡ Some 2 }
    ensures most { size_below (Some (odd_by nine_four (pos 48) MAX_ODD)) (1 ∷ []) ≡ Some 1048574 }
    ensures too_many { size_below (Some (odd_by nine_four (pos 48) 1048577)) (1 ∷ []) ≡ None }
    ensures defined { is_defined (odd_size_above (Some (Odd (record { dual = nine_four; at_zero = pos 48 }) 21))) (unrestricted 9 4) ≡ true }
    ensures rests_on { (odd_size_above (Some (Odd (record { dual = nine_four; at_zero = pos 48 }) 21))).rests_on (unrestricted 9 4)
        ≡ constant_weight 9 4 8 ∷ [] }
    ensures other_length { is_defined (odd_size_above (Some (Odd (record { dual = nine_four; at_zero = pos 48 }) 21))) (unrestricted 8 4) ≡ false }
    ensures other_distance { is_defined (odd_size_above (Some (Odd (record { dual = nine_four; at_zero = pos 48 }) 21))) (unrestricted 9 3) ≡ false }
    ensures of_weight { is_defined (odd_size_above (Some (Odd (record { dual = eight_four_four; at_zero = pos 672 }) 15))) (constant_weight 8 4 4) ≡ false }
    ensures a_bound { is_defined (odd_size_above (Some (Bound (record { dual = nine_four; at_zero = pos 48 })))) (unrestricted 9 4) ≡ false }
    ensures a_size { is_defined (odd_size_above (Some (Size (unrestricted 9 4) 20))) (unrestricted 9 4) ≡ false }
    ensures nothing { is_defined (odd_size_above (Some Nothing)) (unrestricted 9 4) ≡ false }
    ensures no_support { is_defined (odd_size_above None) (unrestricted 9 4) ≡ false }
{}
