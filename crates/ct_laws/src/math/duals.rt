//! What duals promise, for every dual and every list of words; the functions do nothing.
ghost use Rattle.std.specs.Prelude.{◌≡◌, ◌≢◌, ◌↔◌, ℕ, ◌≤◌, ◌<◌, List, ℤ, pos, ◌≤ℤ◌, ◌<ℤ◌, Some, None};
ghost use Rattle.ct_words.specs.Code.{IsTrueUpper};
ghost use Rattle.ct_duals.specs.declared.dual.Dual.{Dual};
ghost use Rattle.ct_duals.specs.declared.fault.DualFault.TheVariants.{Lead, Above};
ghost use Rattle.ct_words.specs.Numbers.{multiplier, combination};
ghost use Rattle.ct_duals.specs.Dual.{Fits, IsDual};
ghost use Rattle.ct_duals.specs.Check.{dual_fault, IsBelow, IsLeastAbove};
ghost use Rattle.ct_duals.specs.Bound.{AreTrueUppers, AreAtMost, positive, dual_premises, dual_spread, dual_bound};
ghost use Rattle.ct_duals.specs.Local.{AreTrueLocals, local_bound};

use ct_words::Scheme;

/// No code of the entry of an accepted dual is larger than its bound, where the upper bounds that it rests on are true.
///
/// For a code, add f over the indices of all ordered pairs of its words. By Delsarte's inequalities that is at least c_0
/// times the square of its size. By what is allowed it is at most its size times f(0) + S + T: as many words are at the
/// distance i from one of them as a code of weight i has at most, and only one distance of the group G occurs from a word.
/// Where the dual speaks of even distances alone, a place of the code is exchanged for a parity digit first.
pub fn accepted_duals_bound_codes<S: Scheme>(scheme: &S)
    ensures { (dual : Dual) (uppers : List ℕ) →
        Fits (S.belongs scheme.now) (S.index scheme.now) (S.degree scheme.now) (S.number scheme.now) dual.entry → IsDual dual →
        dual_fault (S.number scheme.now) dual ≡ None → AreTrueUppers (dual_premises dual) uppers →
        IsTrueUpper dual.entry (dual_bound dual (combination (S.number scheme.now) dual.c 0) uppers) }
{}

/// No code of the entry A(n,d,w) of an accepted dual is larger than its local bound, where each U_i is at least as large as every doubly
/// constant code of (w,i,n−w,i,d).
///
/// The words of a code at distance 2i from one of its words, that word added and their places put in the order of its ones and then its
/// zeros, have i ones in each part: they are such a code. So what f adds up to over a word and all words is at most f(0) + Σ y_i·U_i.
pub fn accepted_duals_bound_codes_about_words<S: Scheme>(scheme: &S)
    ensures { (dual : Dual) (w : ℕ) (uppers : List ℕ) →
        Fits (S.belongs scheme.now) (S.index scheme.now) (S.degree scheme.now) (S.number scheme.now) dual.entry → IsDual dual →
        dual_fault (S.number scheme.now) dual ≡ None → dual.entry.w ≡ Some w → AreTrueLocals dual.entry w (positive dual.y) uppers →
        IsTrueUpper dual.entry (local_bound dual (combination (S.number scheme.now) dual.c 0) uppers) }
{}

/// What the check of a dual says: it is accepted exactly where c_0 is at least 1 and f nowhere above what is allowed; `Lead` comes
/// exactly where c_0 is below 1; and `Above` exactly where it isn't, and f is above at the index that it names and at no
/// lesser one, with both numbers.
pub fn faults_of_duals()
    ensures accepted { (number : ℕ → ℕ → ℤ) (dual : Dual) →
        (dual_fault number dual ≡ None) ↔ ((pos 1 ≤ℤ multiplier dual.c 0) × IsBelow number dual) }
    ensures lead { (number : ℕ → ℕ → ℤ) (dual : Dual) →
        (dual_fault number dual ≡ Some Lead) ↔ (multiplier dual.c 0 ≤ℤ pos 0) }
    ensures above { (number : ℕ → ℕ → ℤ) (dual : Dual) (at : ℕ) (value allowed : ℤ) →
        (dual_fault number dual ≡ Some (Above at value allowed)) ↔ IsLeastAbove number dual at value allowed }
{}

/// Smaller upper bounds never give a greater spread, nor a greater bound, nor a greater local bound.
pub fn bounds_of_duals_are_monotone()
    ensures spread { (dual : Dual) (at_zero : ℤ) (uppers others : List ℕ) →
        AreAtMost uppers others → dual_spread dual at_zero uppers ≤ℤ dual_spread dual at_zero others }
    ensures bound { (dual : Dual) (at_zero : ℤ) (uppers others : List ℕ) →
        AreAtMost uppers others → dual_bound dual at_zero uppers ≤ dual_bound dual at_zero others }
    ensures local { (dual : Dual) (at_zero : ℤ) (uppers others : List ℕ) →
        AreAtMost uppers others → local_bound dual at_zero uppers ≤ local_bound dual at_zero others }
{}
