//! The tableau and its pivots.
ghost use Rattle.std.specs.Prelude.{◌≡◌, ◌<◌, ◌≤◌, None, pos, ◌≤ℤ◌, length, All, map, set, get_or, [], find, flat_map};
ghost use Rattle.ct_finder.specs.Pivot.{at, is_wide, pivoted_row, pivoted, first_wide};
ghost use Rattle.ct_finder.specs.Narrow.{AreNarrow};
ghost use Rattle.ct_finder.specs.Ready.{seen, IsReady};

use crate::row::Row;

/// A tableau: a row for each k, the place of the basic column of each, the cost row; and room for a copy of the pivot row.
#[derive(Drop)]
pub struct Tableau {
    /// The row of each k, ascending.
    pub rows: Vec<Row>,
    /// The place of the basic column of each row.
    pub basics: Vec<usize>,
    /// The cost row.
    pub cost: Row,
    /// Room for a copy of the pivot row, of the same width.
    pub pivot: Row,
}

impl Tableau {
    /// Lets the row at the place enter at e. Where an entry would be wide, the first such entry, and the tableau is of no
    /// more use.
    pub(crate) fn pivot_on(&mut self, place: usize, e: usize) -> Option<i128>
        requires ready { IsReady self.old }
        requires place { place < length self.old.rows.items }
        requires column { e < length self.old.cost }
        requires positive { pos 1 ≤ℤ at (get_or self.old.rows.items place []) e }
        ensures wide { result ≡ first_wide (pivoted e place (seen self.old)) }
        ensures pivoted { result ≡ None → seen self.new ≡ pivoted e place (seen self.old) }
        ensures pivot { length self.new.pivot ≡ length self.old.pivot }
    {
        self.pivot.copy_from(&self.rows[place]);
        let wide = pivot_other_rows(&mut self.rows, &self.pivot, place, e);
        if wide.is_some() {
            return wide;
        }
        self.basics[place] = e;
        self.cost.pivot_on(&self.pivot, e)
    }
}

/// Pivots each row but the pivot row, which stands at the place. Where an entry would be wide, the first such entry.
fn pivot_other_rows(rows: &mut [Row], pivot: &Row, place: usize, e: usize) -> Option<i128>
    requires width { All (λ row. length row ≡ length pivot.now) rows.old }
    requires column { e < length pivot.now }
    requires positive { pos 1 ≤ℤ at pivot.now e }
    requires narrow { AreNarrow pivot.now }
    requires place { place < length rows.old }
    requires own { get_or rows.old place [] ≡ pivot.now }
    ensures wide { result ≡
        find is_wide (flat_map (λ row. row) (set (map (pivoted_row e pivot.now) rows.old) place pivot.now)) }
    ensures rows { result ≡ None → rows.new ≡ set (map (pivoted_row e pivot.now) rows.old) place pivot.now }
{
    for i in 0..rows.len() {
        if i != place {
            let wide = rows[i].pivot_on(pivot, e);
            if wide.is_some() {
                return wide;
            }
        }
    }
    None
}
