//! The bound of Elias and Bassalygo, by the average over translates.

ghost use Rattle.std.specs.Prelude.{◌≡◌, ◌+◌, true, false, [], ◌∷◌, Some};
ghost use Rattle.ct_words.specs.declared.limits.TheConstants.{MAX_N};
ghost use Rattle.ct_words.specs.Entry.{IsEntry, unrestricted, constant_weight};
ghost use Rattle.ct_rule_parts.specs.Parts.{is_defined};
ghost use Rattle.ct_weight_rules.specs.Inside.RestedOn.{by_elias_bassalygo};
ghost use Rattle.ct_weight_rules.specs.EliasBassalygo.{elias_bassalygo};

use ct_johnson::average;
use ct_rule_parts::first;
use ct_words::Entry;

/// The number ⌊2^(n−1)·u/C(n,w)⌋ that U10 with the weight w gives where its premise has the value u; 0 where w is above n.
pub fn averaged(w: u32, entry: Entry, values: &[u32]) -> u64
    requires { IsEntry entry }
    ensures { Some result ≡ (elias_bassalygo w).number entry values.now }
{
    average(entry.n, w, first(values) as u32)
}

/// Where the rule is defined, with the least and the greatest weights, what it rests on and what it gives: A(8,4) ≤ 25 from
/// A(8,4,4) = 14, A(16,6) ≤ 458 from A(16,6,6) = 112.
pub fn known_elias_bassalygo()
    ensures defined { is_defined (elias_bassalygo 4) (unrestricted 8 4) ≡ true }
    ensures rests_on { (elias_bassalygo 4).rests_on (unrestricted 8 4) ≡ constant_weight 8 4 4 ∷ [] }
    ensures value { (elias_bassalygo 4).number (unrestricted 8 4) (14 ∷ []) ≡ Some 25 }
    ensures of_sixteen { (elias_bassalygo 6).number (unrestricted 16 6) (112 ∷ []) ≡ Some 458 }
    ensures no_ones { is_defined (elias_bassalygo 0) (unrestricted 8 4) ≡ true }
    ensures no_ones_value { (elias_bassalygo 0).number (unrestricted 8 4) (1 ∷ []) ≡ Some 128 }
    ensures no_zeros { is_defined (elias_bassalygo 8) (unrestricted 8 4) ≡ true }
    ensures no_zeros_value { (elias_bassalygo 8).number (unrestricted 8 4) (1 ∷ []) ≡ Some 128 }
    ensures heavy { is_defined (elias_bassalygo 9) (unrestricted 8 4) ≡ false }
    ensures odd { is_defined (elias_bassalygo 4) (unrestricted 8 5) ≡ false }
    ensures least { is_defined (elias_bassalygo 1) (unrestricted 1 4) ≡ true }
    ensures least_value { (elias_bassalygo 1).number (unrestricted 1 4) (1 ∷ []) ≡ Some 1 }
    ensures greatest { is_defined (elias_bassalygo MAX_N) (unrestricted MAX_N MAX_N) ≡ true }
    ensures above { (elias_bassalygo 0).number (unrestricted 30 4) (4 ∷ []) ≡ Some 2147483648 }
    ensures of_weight { is_defined (elias_bassalygo 4) (constant_weight 8 4 4) ≡ false }
    ensures no_entry { is_defined (elias_bassalygo 4) (unrestricted (MAX_N + 1) 4) ≡ false }
    ensures rested_on_by { by_elias_bassalygo (constant_weight 8 4 4) ≡ unrestricted 8 4 ∷ [] }
{}
