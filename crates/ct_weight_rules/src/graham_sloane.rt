//! The codes of Graham and Sloane: a sum class.

ghost use Rattle.std.specs.Prelude.{◌≡◌, true, false, [], Some, None};
ghost use Rattle.ct_words.specs.Entry.{IsEntry, unrestricted, constant_weight};
ghost use Rattle.ct_rule_parts.specs.Parts.{is_defined};
ghost use Rattle.ct_weight_rules.specs.GrahamSloane.{sum_class_size, graham_sloane};

use ct_sum_classes::sum_class_count;
use ct_words::Entry;

/// The number of M9 with the residue r: how many words of the length and the weight of the entry there are, the places of
/// whose ones add up to r modulo n, where the distance is 4, r is below n and there is such a word (Graham and Sloane
/// 1980).
pub fn sum_class_size(r: u32, entry: Entry) -> Option<u64>
    requires { IsEntry entry }
    ensures { result ≡ sum_class_size r entry }
{
    let w = entry.w?;
    if entry.d != 4 || entry.n <= r {
        return None;
    }
    let size = sum_class_count(entry.n, w, r);
    if size > 0 { Some(size) } else { None }
}

/// Where the rule is defined, with the least and the greatest residues, that it rests on nothing and what it gives: A(6,4,3) is 4.
pub fn known_graham_sloane()
    ensures value { (graham_sloane 0).number (constant_weight 6 4 3) [] ≡ Some 4 }
    ensures other_value { (graham_sloane 1).number (constant_weight 6 4 3) [] ≡ Some 3 }
    ensures defined { is_defined (graham_sloane 0) (constant_weight 6 4 3) ≡ true }
    ensures last { is_defined (graham_sloane 5) (constant_weight 6 4 3) ≡ true }
    ensures rests_on { (graham_sloane 0).rests_on (constant_weight 6 4 3) ≡ [] }
    ensures no_residue { is_defined (graham_sloane 6) (constant_weight 6 4 3) ≡ false }
    ensures empty { is_defined (graham_sloane 1) (constant_weight 6 4 0) ≡ false }
    ensures no_ones { (graham_sloane 0).number (constant_weight 6 4 0) [] ≡ Some 1 }
    ensures farther { is_defined (graham_sloane 0) (constant_weight 6 6 3) ≡ false }
    ensures no_weight { is_defined (graham_sloane 0) (unrestricted 6 4) ≡ false }
{}
