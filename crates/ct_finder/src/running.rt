//! The run over a tableau.
ghost use Rattle.std.specs.Prelude.{◌≡◌, ℕ, List, length, None};
ghost use Rattle.ct_finder.specs.Column.{columns};
ghost use Rattle.ct_finder.specs.Run.{run};
ghost use Rattle.ct_finder.specs.Inside.Step.{step};
ghost use Rattle.ct_finder.specs.Ready.{seen, IsReady, step_of, end_of};

use crate::pivot::{entering, pivot_row};
use crate::tableau::Tableau;

/// How a run ends.
#[derive(Clone, Copy)]
pub enum Ending {
    /// No a or s of the cost row is negative.
    Least,
    /// As many pivots as were asked for were made.
    Turns,
    /// The next pivot would give this entry.
    Wide(i128),
}

/// Makes at most so many pivots over a tableau whose columns are z, the a's and s's, and the constants: as many basic columns
/// as rows, all rows of one width. After `Least` the tableau is that of the run's end; after `Wide`, which names the first
/// entry above 2^63 - 1 in absolute value that the next pivot would give, the tableau is of no more use. It takes no memory.
pub fn run(tableau: &mut Tableau, pivots: u32) -> Ending
    requires ready { IsReady tableau.old }
    ensures end { (range : List ℕ) (degree : ℕ) → length tableau.old.cost ≡ length (columns range degree) →
        end_of result (seen tableau.new) ≡ run (columns range degree) pivots (seen tableau.old) }
{
    for made in 0..pivots {
        if let Some(ending) = step(tableau) {
            return ending;
        }
    }
    match entering(tableau.cost.as_slice()) {
        None => Ending::Least,
        Some(_) => Ending::Turns,
    }
}

/// Makes a pivot; none where the run ends before it.
fn step(tableau: &mut Tableau) -> Option<Ending>
    requires { IsReady tableau.old }
    ensures value { (range : List ℕ) (degree : ℕ) → length tableau.old.cost ≡ length (columns range degree) →
        step_of result (seen tableau.new) ≡ step (columns range degree) (seen tableau.old) }
    ensures ready { result ≡ None → IsReady tableau.new }
    ensures width { result ≡ None → length tableau.new.cost ≡ length tableau.old.cost }
{
    let Some(e) = entering(tableau.cost.as_slice()) else {
        return Some(Ending::Least);
    };
    let Some(place) = pivot_row(&tableau.rows, &tableau.basics, e) else {
        return None;
    };
    match tableau.pivot_on(place, e) {
        None => None,
        Some(entry) => Some(Ending::Wide(entry)),
    }
}
