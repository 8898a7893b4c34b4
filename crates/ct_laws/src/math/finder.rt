//! What the finder's run promises; the functions do nothing.
ghost use Rattle.std.specs.Prelude.{◌≡◌, ℕ, ◌+◌, ◌*◌, ◌^◌, ◌/◌, ◌-◌, ◌≤◌, min, Bool, List, [], ◌∷◌, map, All, Some, None, ℤ, pos, negsuc, ◌*ℤ◌, ◌≤ℤ◌, length, unsigned_abs};
ghost use Rattle.std.specs.Int.{◌∣◌, IsGcd};
ghost use Rattle.ct_words.specs.declared.limits.TheConstants.{MAX_BOUND};
ghost use Rattle.ct_words.specs.declared.entry.Entry.{Entry};
ghost use Rattle.ct_words.specs.Entry.{unrestricted};
ghost use Rattle.ct_finder.specs.Column.{Tableau, columns, range_of, opening};
ghost use Rattle.ct_words.specs.Numbers.{krawtchouk, multiplier, combination};
ghost use Rattle.ct_duals.specs.Dual.{IsDual, degree_of};
ghost use Rattle.ct_duals.specs.Check.{dual_fault};
ghost use Rattle.ct_duals.specs.Bound.{dual_bound, natural};
ghost use Rattle.ct_finder.specs.Divisor.{gcd, divisor, reduced};
ghost use Rattle.ct_finder.specs.Pivot.{first_wide};
ghost use Rattle.ct_finder.specs.Run.End.{Least, Turns, Wide};
ghost use Rattle.ct_finder.specs.Run.{run, run_of, run_dual, ones_dual, IsAsked};
ghost use Rattle.ct_finder.specs.Sum.{AreSums, after};
ghost use Rattle.ct_finder.specs.Basic.{Solves, AreBasic};
ghost use Rattle.ct_finder.specs.RunPrimal.{run_primal, wide_number, numbers_made};
ghost use Rattle.ct_primal.specs.Primal.{IsPrimal, IsSound, primal_value};
ghost use Rattle.ct_laws.specs.Mathematics.RunExamples.{run_eight_four_four, last_eight_four_four, dual_eight_four_four, run_six_three, last_six_three, dual_six_three, run_eight_four, last_eight_four, dual_eight_four, wide_tableau, wide_cost_tableau, narrow_tableau, one_row, primal_eight_four_four, primal_six_three, primal_eight_four, wide_scale_tableau, wide_number_tableau};

/// Each row of a tableau of a run is the sum of the opening rows, each times the row's entry at that opening row's s_k;
/// the cost row alone has the opening cost row in it, at least once.
pub fn rows_are_sums_of_opening_rows()
    ensures { (number : ℕ → ℕ → ℤ) (e : Entry) (even : Bool) (pivots : ℕ) →
        AreSums number (columns (range_of e even) (degree_of e)) (degree_of e) (after (columns (range_of e even) (degree_of e)) pivots (opening number (range_of e even) (degree_of e))) }
{}

/// Where a run ends as least, its dual has the form of one, is accepted, and has the bound ⌊f(0)/c_0⌋, limited by
/// `MAX_BOUND`.
pub fn least_duals_are_accepted()
    ensures form { (number : ℕ → ℕ → ℤ) (e : Entry) (even : Bool) (pivots : ℕ) (last : Tableau) → IsAsked e even →
        run_of number e even pivots ≡ Least last → IsDual (run_dual e even last.cost) }
    ensures accepted { (number : ℕ → ℕ → ℤ) (e : Entry) (even : Bool) (pivots : ℕ) (last : Tableau) →
        ((i : ℕ) → number 0 i ≡ pos 1) → run_of number e even pivots ≡ Least last →
        dual_fault number (run_dual e even last.cost) ≡ None }
    ensures bound { (e : Entry) (even : Bool) (cost : List ℤ) (at_zero : ℤ) →
        dual_bound (run_dual e even cost) at_zero [] ≡
        min MAX_BOUND (natural at_zero / natural (multiplier (run_dual e even cost).c 0)) }
{}

/// The dual of n + 1 ones is accepted at every entry without weight: its f is 2^n at 0 and 0 elsewhere.
pub fn ones_are_accepted()
    ensures form { (n d : ℕ) (even : Bool) → IsAsked (unrestricted n d) even →
        IsDual (ones_dual (unrestricted n d) even) }
    ensures accepted { (n d : ℕ) (even : Bool) → IsAsked (unrestricted n d) even →
        dual_fault (krawtchouk n) (ones_dual (unrestricted n d) even) ≡ None }
    ensures at_zero { (n d : ℕ) (even : Bool) →
        combination (krawtchouk n) (ones_dual (unrestricted n d) even).c 0 ≡ pos (2 ^ n) }
    ensures elsewhere { (n d i : ℕ) (even : Bool) → 1 ≤ i → i ≤ n →
        combination (krawtchouk n) (ones_dual (unrestricted n d) even).c i ≡ pos 0 }
{}

/// Where a run ends as least, over numbers of a scheme that are at least 0 at index 0, its primal has the form of one and is sound; its
/// value is the bound of the run's dual. So no accepted dual of the entry with the same mark that allows nothing has a smaller one.
pub fn least_primals_are_sound()
    ensures form { (e : Entry) (even : Bool) (last : Tableau) → IsAsked e even →
        IsPrimal (run_primal e even (range_of e even) last) }
    ensures sound { (number : ℕ → ℕ → ℤ) (e : Entry) (even : Bool) (pivots : ℕ) (last : Tableau) →
        ((k : ℕ) → k ≤ degree_of e → pos 0 ≤ℤ number k 0) → run_of number e even pivots ≡ Least last →
        IsSound number (run_primal e even (range_of e even) last) }
    ensures value { (number : ℕ → ℕ → ℤ) (e : Entry) (even : Bool) (pivots : ℕ) (last : Tableau) →
        ((k : ℕ) → k ≤ degree_of e → pos 0 ≤ℤ number k 0) → number 0 0 ≡ pos 1 → run_of number e even pivots ≡ Least last →
        primal_value (run_primal e even (range_of e even) last) ≡
        dual_bound (run_dual e even last.cost) (combination number (run_dual e even last.cost).c 0) [] }
{}

/// What `gcd` is: it divides both numbers, and each number that divides both divides it.
pub fn gcd_is_greatest()
    ensures { (a b : ℕ) → IsGcd a b (gcd a b) }
{}

/// What a row is divided by: the greatest number that divides each of its entries, where one is not 0, and else 1; each
/// quotient is exact.
pub fn rows_are_divided_by_their_greatest_divisor()
    ensures divides { (row : List ℤ) → All (λ z. divisor row ∣ unsigned_abs z) row }
    ensures greatest { (row : List ℤ) (m : ℕ) → All (λ z. m ∣ unsigned_abs z) row → ¬ All (λ z. z ≡ pos 0) row →
        m ≤ divisor row }
    ensures zeros { (row : List ℤ) → All (λ z. z ≡ pos 0) row → divisor row ≡ 1 }
    ensures exact { (row : List ℤ) → map (λ z. pos (divisor row) *ℤ z) (reduced row) ≡ row }
{}

/// Runs whose ends are known: A(8,4,4) is at most 14, after three pivots, and A(6,3) at most 8, after two; A(8,4) at most
/// 16, after six pivots, in four of which several rows have the least fraction: the row whose basic column comes first is
/// taken, and another choice would end with other multipliers. Their primals have the bounds as their values.
pub fn known_runs()
    ensures weighted { run_eight_four_four 3 ≡ Least last_eight_four_four }
    ensures weighted_bound { dual_bound dual_eight_four_four (pos 672) [] ≡ 14 }
    ensures weighted_pivots { run_eight_four_four 2 ≡ Turns }
    ensures weighted_primal { primal_eight_four_four.q ≡ pos 48 }
    ensures weighted_pairs { primal_eight_four_four.a ≡ (2, pos 576) ∷ (4, pos 48) ∷ [] }
    ensures plain { run_six_three 2 ≡ Least last_six_three }
    ensures plain_bound { dual_bound dual_six_three (pos 8) [] ≡ 8 }
    ensures plain_primal { primal_six_three.q ≡ pos 2 }
    ensures plain_pairs { primal_six_three.a ≡ (3, pos 8) ∷ (4, pos 6) ∷ [] }
    ensures tied { run_eight_four 6 ≡ Least last_eight_four }
    ensures tied_bound { dual_bound dual_eight_four (pos 64) [] ≡ 16 }
    ensures tied_pivots { run_eight_four 5 ≡ Turns }
    ensures tied_primal { primal_eight_four.q ≡ pos 8 }
    ensures tied_pairs { primal_eight_four.a ≡ (4, pos 112) ∷ (8, pos 8) ∷ [] }
{}

/// The numbers of a primal in the order in which they are made, the scale after each row first, and the first of them that is above
/// 2^63 - 1: of A(8,4,4) none is; with enough primes as entries the scale is; with constants of 2^62 a number of a row is.
pub fn known_numbers_of_primals()
    ensures order { numbers_made 3 last_eight_four_four ≡ 16 ∷ 48 ∷ 48 ∷ 576 ∷ [] }
    ensures none { wide_number 3 last_eight_four_four ≡ None }
    ensures scale { wide_number 1 wide_scale_tableau ≡ Some (pos 647208138850831221463) }
    ensures number { wide_number 2 wide_number_tableau ≡ Some (pos (3 * 2 ^ 62)) }
{}

/// Wide entries of tableaus: those above 2^63 - 1 in absolute value; the first comes from the rows in their order, and from
/// the cost row where no row has one. A pivot that would give such a tableau is not made, and the run ends.
pub fn known_wide_entries()
    ensures in_a_row { first_wide wide_tableau ≡ Some (negsuc (2 ^ 63 - 1)) }
    ensures in_the_cost_row { first_wide wide_cost_tableau ≡ Some (pos (2 ^ 63)) }
    ensures none { first_wide narrow_tableau ≡ None }
    ensures ends { run (columns [] 1) 1 (one_row (2 ^ 62) (pos 1 ∷ negsuc 1 ∷ pos 0 ∷ [])) ≡ Wide (pos (2 ^ 63)) }
    ensures goes_on { run (columns [] 1) 1 (one_row (2 ^ 61) (pos 1 ∷ negsuc 1 ∷ pos 0 ∷ [])) ≡
        Least (one_row (2 ^ 61) (pos 3 ∷ pos 0 ∷ pos (2 ^ 62) ∷ [])) }
{}

/// Numbers at places that solve the tableau after some pivots solve the opening tableau; where no number of the scheme at index 0 is
/// below 0, each row of it has a constant of at least 0, and its basic column to itself.
pub fn solutions_of_rows_solve_opening_rows()
    ensures solutions { (number : ℕ → ℕ → ℤ) (e : Entry) (even : Bool) (pivots : ℕ) (x : List (ℕ × ℤ)) →
        Solves x (after (columns (range_of e even) (degree_of e)) pivots (opening number (range_of e even) (degree_of e))) → Solves x (opening number (range_of e even) (degree_of e)) }
    ensures basic { (number : ℕ → ℕ → ℤ) (e : Entry) (even : Bool) (pivots : ℕ) →
        ((k : ℕ) → k ≤ degree_of e → pos 0 ≤ℤ number k 0) →
        AreBasic (length (columns (range_of e even) (degree_of e))) (after (columns (range_of e even) (degree_of e)) pivots (opening number (range_of e even) (degree_of e))) }
{}
