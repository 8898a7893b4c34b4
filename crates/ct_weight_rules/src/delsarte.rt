//! Delsarte's bound of a dual that is handed in: U11 and V9.

ghost use Rattle.std.specs.Prelude.{◌≡◌, true, false, [], ◌∷◌, Some, None, pos, option_map};
ghost use Rattle.ct_words.specs.Entry.{unrestricted, constant_weight};
ghost use Rattle.ct_duals.specs.Examples.{thirteen_six, eight_four_four};
ghost use Rattle.ct_rule_parts.specs.declared.support.Support.TheVariants.{Nothing, Size, Bound};
ghost use Rattle.ct_rule_parts.specs.Parts.{is_defined};
ghost use Rattle.ct_weight_rules.specs.Delsarte.{dual_above, dual_above_of_weight};

/// What a dual gives to the entry without weight that it is of, and to no other: A(13,6) is at most 32, from 4 and 1 at the
/// weights 10 and 12.
pub fn known_dual_above()
    ensures value { (dual_above (Some (Bound (record { dual = thirteen_six; at_zero = pos 96 })))).number
        (unrestricted 13 6) (4 ∷ 1 ∷ []) ≡ Some 32 }
    ensures defined { is_defined (dual_above (Some (Bound (record { dual = thirteen_six; at_zero = pos 96 })))) (unrestricted 13 6) ≡ true }
    ensures rests_on { (dual_above (Some (Bound (record { dual = thirteen_six; at_zero = pos 96 })))).rests_on (unrestricted 13 6)
        ≡ constant_weight 13 6 10 ∷ constant_weight 13 6 12 ∷ [] }
    ensures at_odd_distance { (dual_above (Some (Bound (record { dual = record thirteen_six { entry = unrestricted 13 5 }; at_zero = pos 96 })))).rests_on
        (unrestricted 13 5) ≡ constant_weight 13 6 10 ∷ constant_weight 13 6 12 ∷ [] }
    ensures other_length { is_defined (dual_above (Some (Bound (record { dual = thirteen_six; at_zero = pos 96 })))) (unrestricted 14 6) ≡ false }
    ensures other_distance { is_defined (dual_above (Some (Bound (record { dual = thirteen_six; at_zero = pos 96 })))) (unrestricted 13 5) ≡ false }
    ensures of_weight { is_defined (dual_above (Some (Bound (record { dual = eight_four_four; at_zero = pos 672 })))) (constant_weight 8 4 4) ≡ false }
    ensures a_size { is_defined (dual_above (Some (Size (unrestricted 13 6) 32))) (unrestricted 13 6) ≡ false }
    ensures nothing { is_defined (dual_above (Some Nothing)) (unrestricted 13 6) ≡ false }
    ensures no_support { is_defined (dual_above None) (unrestricted 13 6) ≡ false }
{}

/// What a dual gives to the entry with weight that it is of, and to no other: A(8,4,4) is at most 14.
pub fn known_dual_above_of_weight()
    ensures value { (dual_above_of_weight (Some (Bound (record { dual = eight_four_four; at_zero = pos 672 })))).number
        (constant_weight 8 4 4) [] ≡ Some 14 }
    ensures defined { is_defined (dual_above_of_weight (Some (Bound (record { dual = eight_four_four; at_zero = pos 672 })))) (constant_weight 8 4 4) ≡ true }
    ensures rests_on { (dual_above_of_weight (Some (Bound (record { dual = eight_four_four; at_zero = pos 672 })))).rests_on (constant_weight 8 4 4) ≡ [] }
    ensures other_weight { is_defined (dual_above_of_weight (Some (Bound (record { dual = eight_four_four; at_zero = pos 672 })))) (constant_weight 8 4 3) ≡ false }
    ensures without_weight { is_defined (dual_above_of_weight (Some (Bound (record { dual = thirteen_six; at_zero = pos 96 })))) (unrestricted 13 6) ≡ false }
    ensures a_size { is_defined (dual_above_of_weight (Some (Size (constant_weight 8 4 4) 14))) (constant_weight 8 4 4) ≡ false }
    ensures nothing { is_defined (dual_above_of_weight (Some Nothing)) (constant_weight 8 4 4) ≡ false }
    ensures no_support { is_defined (dual_above_of_weight None) (constant_weight 8 4 4) ≡ false }
{}
