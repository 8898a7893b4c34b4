//! What duals promise at the entries of the table; the functions do nothing.
ghost use Rattle.std.specs.Prelude.{◌≡◌, ℕ, ◌≤◌, List, [], ◌∷◌, ℤ, pos, ◌≤ℤ◌, Some, None};
ghost use Rattle.ct_words.specs.Code.{IsTrueUpper};
ghost use Rattle.ct_words.specs.Entry.{constant_weight};
ghost use Rattle.ct_duals.specs.declared.dual.Dual.{Dual};
ghost use Rattle.ct_duals.specs.Dual.{IsDual};
ghost use Rattle.ct_duals.specs.Check.{dual_fault};
ghost use Rattle.ct_duals.specs.Bound.{AcceptedValue, IsAccepted, AreTrueUppers, IsSpread, positive, dual_premises, dual_spread, dual_bound};
ghost use Rattle.ct_duals.specs.Local.{AreTrueLocals, local_bound};
ghost use Rattle.ct_duals.specs.declared.fault.DualFault.TheVariants.{Above};
ghost use Rattle.ct_words.specs.Numbers.{numbers_of, combination};
ghost use Rattle.ct_duals.specs.Examples.{thirteen_six, eight_four_four, eight_local, ones_local, one_everywhere, above_at_last};

/// No code of the entry of an accepted dual is larger than its bound, where the upper bounds that it rests on are true.
pub fn duals_bound_codes()
    ensures { (dual : Dual) (uppers : List ℕ) → IsDual dual →
        dual_fault (numbers_of dual.entry) dual ≡ None → AreTrueUppers (dual_premises dual) uppers →
        IsTrueUpper dual.entry (dual_bound dual (combination (numbers_of dual.entry) dual.c 0) uppers) }
{}

/// A dual that stands is sound: no code of its entry is larger than its bound, wherever the upper bounds that it rests on are
/// true, and f adds up to at most its spread for each word of a code; nor than its local bound, where there is a weight and its numbers
/// bound the doubly constant codes about a word. These bounds and that spread are at least 1. A dual of the form of one stands with its
/// f(0) where the check accepts it.
pub fn accepted_duals_are_sound()
    ensures sound { (accepted : AcceptedValue) (uppers : List ℕ) → IsAccepted accepted →
        AreTrueUppers (dual_premises accepted.dual) uppers →
        IsTrueUpper accepted.dual.entry (dual_bound accepted.dual accepted.at_zero uppers) }
    ensures some { (accepted : AcceptedValue) (uppers : List ℕ) → IsAccepted accepted →
        1 ≤ dual_bound accepted.dual accepted.at_zero uppers }
    ensures spread { (accepted : AcceptedValue) (uppers : List ℕ) → IsAccepted accepted →
        AreTrueUppers (dual_premises accepted.dual) uppers →
        IsSpread accepted.dual.entry (combination (numbers_of accepted.dual.entry) accepted.dual.c) (dual_spread accepted.dual accepted.at_zero uppers) }
    ensures local { (accepted : AcceptedValue) (w : ℕ) (uppers : List ℕ) → IsAccepted accepted → accepted.dual.entry.w ≡ Some w →
        AreTrueLocals accepted.dual.entry w (positive accepted.dual.y) uppers →
        IsTrueUpper accepted.dual.entry (local_bound accepted.dual accepted.at_zero uppers) }
    ensures some_local { (accepted : AcceptedValue) (uppers : List ℕ) → IsAccepted accepted →
        1 ≤ local_bound accepted.dual accepted.at_zero uppers }
    ensures some_spread { (accepted : AcceptedValue) (uppers : List ℕ) → IsAccepted accepted →
        pos 1 ≤ℤ dual_spread accepted.dual accepted.at_zero uppers }
    ensures checked { (dual : Dual) → IsDual dual → dual_fault (numbers_of dual.entry) dual ≡ None →
        IsAccepted (record { dual = dual; at_zero = combination (numbers_of dual.entry) dual.c 0 }) }
{}

/// Two duals that are accepted, and their bounds: A(13,6) is at most 32, from 4 and 1 at the weights 10 and 12, and
/// A(8,4,4) at most 14.
pub fn known_duals()
    ensures accepted { dual_fault (numbers_of thirteen_six.entry) thirteen_six ≡ None }
    ensures at_zero { combination (numbers_of thirteen_six.entry) thirteen_six.c 0 ≡ pos 96 }
    ensures bound { dual_bound thirteen_six (pos 96) (4 ∷ 1 ∷ []) ≡ 32 }
    ensures weighted { dual_fault (numbers_of eight_four_four.entry) eight_four_four ≡ None }
    ensures weighted_bound { dual_bound eight_four_four (pos 672) [] ≡ 14 }
{}

/// Which duals stand: those of A(13,6) and A(8,4,4) with their f(0), and the first with no other; one of A(5,3) that is 1
/// everywhere doesn't, nor does one of A(5,4) that is above what is allowed at the last distance alone.
pub fn known_standing_duals()
    ensures stands { IsAccepted (record { dual = thirteen_six; at_zero = pos 96 }) }
    ensures weighted_stands { IsAccepted (record { dual = eight_four_four; at_zero = pos 672 }) }
    ensures one_value { (at_zero : ℤ) → IsAccepted (record { dual = thirteen_six; at_zero = at_zero }) → at_zero ≡ pos 96 }
    ensures above { (at_zero : ℤ) → ¬ IsAccepted (record { dual = one_everywhere; at_zero = at_zero }) }
    ensures above_at_last { (at_zero : ℤ) → ¬ IsAccepted (record { dual = above_at_last; at_zero = at_zero }) }
{}

/// Two duals of A(8,4,4) and their local bounds. One allows 8 at the index 2 alone: 15, from 12 for the doubly constant codes of
/// (4,2,4,2,4); with 7 allowed it is refused, since f is 8 there. One is 1 everywhere: 18, from 12, 4 and 1 at the indices 2, 3 and 4, of
/// which its bound counts but the greater of the last two.
pub fn known_local_bounds()
    ensures accepted { dual_fault (numbers_of eight_local.entry) eight_local ≡ None }
    ensures at_zero { combination (numbers_of eight_local.entry) eight_local.c 0 ≡ pos 24 }
    ensures bound { local_bound eight_local (pos 24) (12 ∷ []) ≡ 15 }
    ensures greater { local_bound eight_local (pos 24) (14 ∷ []) ≡ 17 }
    ensures above { dual_fault (numbers_of eight_local.entry) (record eight_local { y = (2, pos 7) ∷ [] }) ≡ Some (Above 2 (pos 8) (pos 7)) }
    ensures ones_accepted { dual_fault (numbers_of ones_local.entry) ones_local ≡ None }
    ensures all { local_bound ones_local (pos 1) (12 ∷ 4 ∷ 1 ∷ []) ≡ 18 }
    ensures in_group { dual_bound ones_local (pos 1) (12 ∷ 4 ∷ 1 ∷ []) ≡ 17 }
    ensures rests_on { dual_premises ones_local ≡ constant_weight 8 4 4 ∷ constant_weight 8 4 6 ∷ constant_weight 8 4 8 ∷ [] }
    ensures stands { IsAccepted (record { dual = eight_local; at_zero = pos 24 }) }
{}
