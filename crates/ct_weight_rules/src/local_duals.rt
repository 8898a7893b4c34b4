//! The local bound of a dual that is handed in: V10.

ghost use Rattle.std.specs.Prelude.{◌≡◌, ℕ, List, true, false, [], ◌∷◌, Some, None, pos};
ghost use Rattle.ct_words.specs.Code.{IsTrueUpper};
ghost use Rattle.ct_words.specs.Entry.{unrestricted, constant_weight};
ghost use Rattle.ct_words.specs.Numbers.{numbers_of, combination};
ghost use Rattle.ct_duals.specs.Bound.{AreTrueUppers, dual_premises};
ghost use Rattle.ct_duals.specs.Check.{dual_fault};
ghost use Rattle.ct_duals.specs.Dual.{IsDual};
ghost use Rattle.ct_duals.specs.Examples.{thirteen_six, eight_four_four, eight_local, ones_local};
ghost use Rattle.ct_duals.specs.declared.dual.Dual.{Dual};
ghost use Rattle.ct_rule_parts.specs.declared.support.Support.TheVariants.{Nothing, Size, Bound, Odd, Local};
ghost use Rattle.ct_rule_parts.specs.Local.{doubly_uppers, local_value};
ghost use Rattle.ct_rule_parts.specs.Parts.{is_defined};
ghost use Rattle.ct_weight_rules.specs.LocalDuals.{local_above};

/// Where a dual of an entry A(n,d,w) is accepted and the upper bounds of the entries A(n,d,2i) that it rests on are true, no code of the
/// entry is larger than its local bound, at each index from the lesser of the upper bound and the bound of the doubly constant codes of
/// (w,i,n−w,i,d): the words at distance 2i from a word are, that word added, a code of both kinds.
pub fn local_duals_bound_codes()
    ensures { (dual : Dual) (w : ℕ) (uppers : List ℕ) → dual.entry.w ≡ Some w → IsDual dual → dual_fault (numbers_of dual.entry) dual ≡ None →
        AreTrueUppers (dual_premises dual) uppers →
        IsTrueUpper dual.entry (local_value (record { dual = dual; at_zero = combination (numbers_of dual.entry) dual.c 0 }) uppers) }
{}

/// What a dual gives to the entry with weight that it is of by its local bound, and to no other: A(8,4,4) is at most 15 from 14, since a
/// doubly constant code of (4,2,4,2,4) has at most 12 words; from 10, which is less, 13; and where f is 1 everywhere, at most 18 from 14, 4
/// and 2, by 12, 4 and 1.
pub fn known_local_above()
    ensures value { (local_above (Some (Local (record { dual = eight_local; at_zero = pos 24 })))).number (constant_weight 8 4 4) (14 ∷ []) ≡ Some 15 }
    ensures by_premise { (local_above (Some (Local (record { dual = eight_local; at_zero = pos 24 })))).number (constant_weight 8 4 4) (10 ∷ []) ≡ Some 13 }
    ensures doubly { doubly_uppers eight_local ≡ 12 ∷ [] }
    ensures all_indices { doubly_uppers ones_local ≡ 12 ∷ 4 ∷ 1 ∷ [] }
    ensures all { (local_above (Some (Local (record { dual = ones_local; at_zero = pos 1 })))).number (constant_weight 8 4 4) (14 ∷ 4 ∷ 2 ∷ []) ≡ Some 18 }
    ensures defined { is_defined (local_above (Some (Local (record { dual = eight_local; at_zero = pos 24 })))) (constant_weight 8 4 4) ≡ true }
    ensures rests_on { (local_above (Some (Local (record { dual = ones_local; at_zero = pos 1 })))).rests_on (constant_weight 8 4 4)
        ≡ constant_weight 8 4 4 ∷ constant_weight 8 4 6 ∷ constant_weight 8 4 8 ∷ [] }
    ensures other_weight { is_defined (local_above (Some (Local (record { dual = eight_local; at_zero = pos 24 })))) (constant_weight 8 4 3) ≡ false }
    ensures other_distance { is_defined (local_above (Some (Local (record { dual = eight_local; at_zero = pos 24 })))) (constant_weight 8 6 4) ≡ false }
    ensures without_weight { is_defined (local_above (Some (Local (record { dual = thirteen_six; at_zero = pos 96 })))) (unrestricted 13 6) ≡ false }
    ensures a_bound { is_defined (local_above (Some (Bound (record { dual = eight_four_four; at_zero = pos 672 })))) (constant_weight 8 4 4) ≡ false }
    ensures a_size { is_defined (local_above (Some (Size (constant_weight 8 4 4) 14))) (constant_weight 8 4 4) ≡ false }
    ensures odd { is_defined (local_above (Some (Odd (record { dual = eight_four_four; at_zero = pos 672 }) 15))) (constant_weight 8 4 4) ≡ false }
    ensures nothing { is_defined (local_above (Some Nothing)) (constant_weight 8 4 4) ≡ false }
    ensures no_support { is_defined (local_above None) (constant_weight 8 4 4) ≡ false }
{}
