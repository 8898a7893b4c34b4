//! A code of constant weight that is handed in.

ghost use Rattle.std.specs.Prelude.{◌≡◌, true, false, [], Some, None};
ghost use Rattle.ct_words.specs.Entry.{unrestricted, constant_weight};
ghost use Rattle.ct_rule_parts.specs.declared.support.Support.TheVariants.{Nothing, Size};
ghost use Rattle.ct_rule_parts.specs.Parts.{is_defined};
ghost use Rattle.ct_weight_rules.specs.GivenCode.{given_code_of_weight};

/// What a support gives: its size, to the entry with weight that it names and to no other.
pub fn known_given_code()
    ensures value { (given_code_of_weight (Some (Size (constant_weight 8 4 4) 14))).number (constant_weight 8 4 4) [] ≡ Some 14 }
    ensures defined { is_defined (given_code_of_weight (Some (Size (constant_weight 8 4 4) 14))) (constant_weight 8 4 4) ≡ true }
    ensures rests_on { (given_code_of_weight (Some (Size (constant_weight 8 4 4) 14))).rests_on (constant_weight 8 4 4) ≡ [] }
    ensures nothing { is_defined (given_code_of_weight (Some Nothing)) (constant_weight 8 4 4) ≡ false }
    ensures no_support { is_defined (given_code_of_weight None) (constant_weight 8 4 4) ≡ false }
    ensures other_weight { is_defined (given_code_of_weight (Some (Size (constant_weight 8 4 4) 14))) (constant_weight 8 4 3) ≡ false }
    ensures without_weight { is_defined (given_code_of_weight (Some (Size (constant_weight 8 4 4) 14))) (unrestricted 8 4) ≡ false }
    ensures code_by_weight { is_defined (given_code_of_weight (Some (Size (unrestricted 5 3) 4))) (unrestricted 5 3) ≡ false }
{}
