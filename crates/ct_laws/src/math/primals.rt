//! What primals promise, each a clause of a function that does nothing.

ghost use Rattle.std.specs.Prelude.{◌≡◌, ℕ, ◌≤◌, [], ◌∷◌, true, false, ℤ, pos, negsuc, Some, None};
ghost use Rattle.ct_words.specs.Entry.{unrestricted, constant_weight};
ghost use Rattle.ct_words.specs.Numbers.{numbers_of, combination};
ghost use Rattle.ct_duals.specs.declared.dual.Dual.{Dual};
ghost use Rattle.ct_duals.specs.Dual.{Fits, IsDual};
ghost use Rattle.ct_duals.specs.Check.{dual_fault};
ghost use Rattle.ct_duals.specs.Bound.{dual_bound};
ghost use Rattle.ct_primal.specs.declared.primal_fault.PrimalFault.TheVariants.{Scale, Below};
ghost use Rattle.ct_primal.specs.Primal.{PrimalValue, IsPrimal, IsSound, primal_fault, primal_value};

use ct_words::Scheme;

/// No dual of the same entry and mark that is accepted, and allows nothing, has a bound below the value of a sound primal: c_k times
/// the k-th transformed number, added over k, is at least c_0 times the whole, and at most q times f(0) (weak duality).
pub fn primals_lie_below_duals<S: Scheme>(scheme: &S)
    ensures { (primal : PrimalValue) (dual : Dual) →
        Fits (S.belongs scheme.now) (S.index scheme.now) (S.degree scheme.now) (S.number scheme.now) primal.entry →
        IsPrimal primal → IsSound (S.number scheme.now) primal → IsDual dual → dual.entry ≡ primal.entry → dual.even ≡ primal.even →
        dual.y ≡ [] → dual_fault (S.number scheme.now) dual ≡ None →
        primal_value primal ≤ dual_bound dual (combination (S.number scheme.now) dual.c 0) [] }
{}

/// A primal has no fault exactly where it is sound.
pub fn sound_primals_have_no_fault()
    ensures accepted { (number : ℕ → ℕ → ℤ) (primal : PrimalValue) → IsSound number primal → primal_fault number primal ≡ None }
    ensures sound { (number : ℕ → ℕ → ℤ) (primal : PrimalValue) → primal_fault number primal ≡ None → IsSound number primal }
{}

/// A primal of A(8,4,4) with the value 14, which is A(8,4,4) itself; a larger number at the last index is refused, and so is the scale
/// 0. The distances of the code of Nordstrom and Robinson are one of A(16,6) with the value 256, its size; one word more at
/// distance 10 is refused.
pub fn known_primals()
    ensures accepted { primal_fault (numbers_of (constant_weight 8 4 4))
        (record { entry = constant_weight 8 4 4; even = false; q = pos 1; a = (2, pos 12) ∷ (4, pos 1) ∷ [] }) ≡ None }
    ensures value { primal_value (record { entry = constant_weight 8 4 4; even = false; q = pos 1; a = (2, pos 12) ∷ (4, pos 1) ∷ [] }) ≡ 14 }
    ensures below { primal_fault (numbers_of (constant_weight 8 4 4))
        (record { entry = constant_weight 8 4 4; even = false; q = pos 1; a = (2, pos 12) ∷ (4, pos 2) ∷ [] }) ≡ Some (Below 1 (negsuc 15)) }
    ensures scale { primal_fault (numbers_of (constant_weight 8 4 4))
        (record { entry = constant_weight 8 4 4; even = false; q = pos 0; a = [] }) ≡ Some Scale }
    ensures nordstrom_robinson { primal_fault (numbers_of (unrestricted 16 6)) (record {
      entry = unrestricted 16 6;
      even = true;
      q = pos 1;
      a = (6, pos 112) ∷ (8, pos 30) ∷ (10, pos 112) ∷ (16, pos 1) ∷ [];
    }) ≡ None }
    ensures its_size { primal_value (record {
      entry = unrestricted 16 6;
      even = true;
      q = pos 1;
      a = (6, pos 112) ∷ (8, pos 30) ∷ (10, pos 112) ∷ (16, pos 1) ∷ [];
    }) ≡ 256 }
    ensures one_more { primal_fault (numbers_of (unrestricted 16 6)) (record {
      entry = unrestricted 16 6;
      even = true;
      q = pos 1;
      a = (6, pos 112) ∷ (8, pos 30) ∷ (10, pos 113) ∷ (16, pos 1) ∷ [];
    }) ≡ Some (Below 1 (negsuc 3)) }
    ensures rounded_down { primal_value (record { entry = unrestricted 5 3; even = false; q = pos 2; a = (3, pos 3) ∷ [] }) ≡ 2 }
{}
