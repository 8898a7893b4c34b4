//! How many words the sum classes of a length and a weight have, counted by residues without listing them.

ghost use Rattle.std.specs.Prelude.{◌≡◌, ℕ, suc, ◌+◌, ◌-◌, ◌%◌, ◌^◌, ◌<◌, ◌≤◌, length, slice_index};
ghost use Rattle.ct_words.specs.declared.limits.TheConstants.{MAX_N};
ghost use Rattle.ct_sum_classes.specs.SumClass.{sum_class};
ghost use Rattle.ct_sum_classes.specs.Inside.Sizes.{IsTable, IsLow, IsRow};

use ct_words::MAX_N;

/// How many residues a row has room for.
pub(crate) const RESIDUES: usize = MAX_N as usize;

/// How many weights a table has room for.
pub(crate) const WEIGHTS: usize = RESIDUES + 1;

/// At each residue s of a length n how many sets of places there are, all of one number of places, that add up to s
/// modulo n.
pub(crate) type Row = [u32; RESIDUES];

/// A row for each number of places.
pub(crate) type Table = [Row; WEIGHTS];

/// How many words have length n, from 1 to `MAX_N`, weight w up to n, and ones whose places add up to r modulo n, for r
/// below n: how many subsets of w elements of 0, .., n − 1 have the sum r modulo n (Graham and Sloane 1980). It takes
/// no memory.
pub fn sum_class_count(n: u32, w: u32, r: u32) -> u64
    requires length { (1 ≤ n) × (n ≤ MAX_N) }
    requires weight { w ≤ n }
    requires residue { r < n }
    ensures { result ≡ length (sum_class n w r) }
{
    u64::from(sum_class_sizes(n, w)[r as usize])
}

/// The same for each r below n at once.
pub fn sum_class_sizes(n: u32, w: u32) -> [u32; RESIDUES]
    requires length { (1 ≤ n) × (n ≤ MAX_N) }
    requires weight { w ≤ n }
    ensures { (r : ℕ) → r < n → slice_index result r ≡ length (sum_class n w r) }
{
    sizes_up_to(n, w)[w as usize]
}

/// The same for each weight up to w.
#[inline(always)]
pub(crate) fn sizes_up_to(n: u32, w: u32) -> Table
    requires length { (1 ≤ n) × (n ≤ MAX_N) }
    requires weight { w ≤ n }
    ensures { IsTable n n w result }
{
    let mut table = no_element();
    for element in 0..n {
        add_element(&mut table, n, w, element);
    }
    table
}

/// The table of no element: one set, the empty one, whose sum is 0.
fn no_element() -> Table
    ensures { (n : ℕ) → 1 ≤ n → IsTable n 0 MAX_N result }
{
    let mut table = [no_set(); WEIGHTS];
    table[0] = one_set();
    table
}

/// The row of no set.
fn no_set() -> Row
    ensures { (n k : ℕ) → IsRow n 0 (suc k) result }
{
    [0; RESIDUES]
}

/// The row of the empty set.
fn one_set() -> Row
    ensures { (n : ℕ) → 1 ≤ n → IsRow n 0 0 result }
{
    let mut row = [0; RESIDUES];
    row[0] = 1;
    row
}

/// Counts also the sets that have the element, up to w elements, where the table counts those of the elements below it.
fn add_element(table: &mut Table, n: u32, w: u32, element: u32)
    requires length { n ≤ MAX_N }
    requires weight { w ≤ n }
    requires element { element < n }
    requires below { IsTable n element w table.old }
    ensures { IsTable n (element + 1) w table.new }
{
    let mut fewer = table[0];
    // No set has more places than there are.
    for ones in 1..w.min(element + 1) as usize + 1 {
        let same = table[ones];
        add_with_element(&mut table[ones], &fewer, n as usize, element as usize);
        fewer = same;
    }
}

/// Adds to the row of the sets of so many places without the element those of one place fewer with it.
fn add_with_element(row: &mut Row, fewer: &Row, n: usize, element: usize)
    requires length { n ≤ MAX_N }
    requires element { element < n }
    requires same { IsLow n row.old }
    requires fewer { IsLow n fewer.now }
    ensures { (s : ℕ) → s < n →
        slice_index row.new s ≡ slice_index row.old s + slice_index fewer.now ((s + (n - element)) % n) }
{
    for sum in 0..element {
        row[sum] += fewer[sum + (n - element)];
    }
    for sum in element..n {
        row[sum] += fewer[sum - element];
    }
}
