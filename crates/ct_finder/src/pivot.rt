//! The entering column and the pivot row.
ghost use Rattle.std.specs.Prelude.{◌≡◌, ◌<◌, ◌≤◌, ℕ, List, ℤ, length, All, zip, get_or, [], IfSome, Option};
ghost use Rattle.ct_finder.specs.Column.{columns};
ghost use Rattle.ct_finder.specs.Pivot.{entering, comes_before, pivot_row};
ghost use Rattle.ct_finder.specs.Inside.Pivot.{is_better};

use crate::arithmetic::product;
use crate::row::Row;

/// The place of the first a or s at which the cost row is negative.
pub(crate) fn entering(cost: &[i64]) -> Option<usize>
    requires { 2 ≤ length cost.now }
    ensures value { (range : List ℕ) (degree : ℕ) → length cost.now ≡ length (columns range degree) →
        result ≡ entering (columns range degree) cost.now }
    ensures within { IfSome result (λ e. e < length cost.now) }
{
    for j in 1..cost.len() - 1 {
        if cost[j] < 0 {
            return Some(j);
        }
    }
    None
}

/// The place of the first row that may enter at e and that no other comes before: its constant over its entry there is
/// the least, and its basic column the first among those.
pub(crate) fn pivot_row(rows: &[Row], basics: &[usize], e: usize) -> Option<usize>
    requires width { All (λ row. e < length row) rows.now }
    requires count { length basics.now ≡ length rows.now }
    ensures value { (cost : List ℤ) →
        result ≡ pivot_row e (record { rows = rows.now; basics = basics.now; cost = cost }) }
    ensures within { IfSome result (λ i. i < length rows.now) }
{
    let mut best: Option<usize> = None;
    for i in 0..rows.len() {
        if is_better(rows, basics, e, best, i) {
            best = Some(i);
        }
    }
    best
}

/// Whether the row at the place i may enter at e and comes before the best so far.
fn is_better(rows: &[Row], basics: &[usize], e: usize, best: Option<usize>, i: usize) -> bool
    requires width { All (λ row. e < length row) rows.now }
    requires count { length basics.now ≡ length rows.now }
    requires place { i < length rows.now }
    requires best { IfSome best (λ b. b < length rows.now) }
    ensures { result ≡ is_better e (zip rows.now basics.now) best i }
{
    let row = rows[i].as_slice();
    if row[e] <= 0 {
        return false;
    }
    match best {
        None => true,
        Some(b) => comes_before(row, basics[i], rows[b].as_slice(), basics[b], e),
    }
}

/// Whether a row with its basic column comes before another.
fn comes_before(row: &[i64], basic: usize, other: &[i64], other_basic: usize, e: usize) -> bool
    requires place { e < length row.now }
    requires other { e < length other.now }
    ensures { result ≡ comes_before e (row.now, basic) (other.now, other_basic) }
{
    let left = product(row[row.len() - 1], other[e]);
    let right = product(other[other.len() - 1], row[e]);
    if left < right {
        return true;
    }
    left <= right && basic < other_basic
}
