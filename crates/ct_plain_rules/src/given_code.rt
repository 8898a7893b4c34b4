//! A code that is handed in.

ghost use Rattle.std.specs.Prelude.{◌≡◌, true, false, [], Some, None};
ghost use Rattle.ct_words.specs.Entry.{unrestricted, constant_weight};
ghost use Rattle.ct_rule_parts.specs.declared.support.Support.TheVariants.{Nothing, Size};
ghost use Rattle.ct_rule_parts.specs.Parts.{is_defined};
ghost use Rattle.ct_plain_rules.specs.GivenCode.{given_code};

/// What a support gives: its size, to the entry without weight that it names and to no other.
pub fn known_given_code()
    ensures value { (given_code (Some (Size (unrestricted 5 3) 4))).number (unrestricted 5 3) [] ≡ Some 4 }
    ensures defined { is_defined (given_code (Some (Size (unrestricted 5 3) 4))) (unrestricted 5 3) ≡ true }
    ensures rests_on { (given_code (Some (Size (unrestricted 5 3) 4))).rests_on (unrestricted 5 3) ≡ [] }
    ensures nothing { is_defined (given_code (Some Nothing)) (unrestricted 5 3) ≡ false }
    ensures no_support { is_defined (given_code None) (unrestricted 5 3) ≡ false }
    ensures other_length { is_defined (given_code (Some (Size (unrestricted 5 3) 4))) (unrestricted 6 3) ≡ false }
    ensures other_distance { is_defined (given_code (Some (Size (unrestricted 5 4) 2))) (unrestricted 5 3) ≡ false }
    ensures without_weight { is_defined (given_code (Some (Size (constant_weight 8 4 4) 14))) (unrestricted 8 4) ≡ false }
    ensures of_weight { is_defined (given_code (Some (Size (constant_weight 8 4 4) 14))) (constant_weight 8 4 4) ≡ false }
{}
