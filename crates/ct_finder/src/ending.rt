//! How a run ends, with the multipliers of its dual and what is read of its primal.
ghost use Rattle.ct_finder.specs.Inside.Rows.{multipliers_of};
ghost use Rattle.std.specs.Prelude.{◌≡◌, ◌≤◌, ℕ, pos, ◌≤ℤ◌, length, All, IfOk};
ghost use Rattle.ct_finder.specs.Column.{columns, opening};
ghost use Rattle.ct_finder.specs.Run.{run};
ghost use Rattle.ct_finder.specs.Ending.{ending_of};

use crate::opening::opening;
use crate::reading::{Reading, read_primal};
use crate::running::{Ending as TableauEnding, run};
use ct_duals::Multipliers;
use ct_words::{Entry, Scheme};
use std::alloc::{AllocError, Global};

/// How a run ends.
#[derive(Drop)]
pub(crate) enum Ending {
    /// With the least bound: these multipliers, and what is read of the primal.
    Least(Multipliers, Reading),
    /// After as many pivots as were asked for.
    Turns,
    /// Before a pivot that would give this entry.
    Wide(i128),
}

/// The run over the numbers of a scheme, with an a for each index of the range and at most so many pivots; its primal is one of the
/// entry and the mark. No number of the scheme at index 0 is below 0.
pub(crate) fn run_over<S: Scheme>(
    alloc: Global,
    scheme: &S,
    entry: Entry,
    even: bool,
    range: &[u32],
    pivots: u32,
) -> Result<Ending, AllocError>
    requires range { All (λ i. i ≤ S.degree scheme.now) range.now }
    requires some { (k : ℕ) → k ≤ S.degree scheme.now → pos 0 ≤ℤ S.number scheme.now k 0 }
    ensures { IfOk result (λ e. e ≡ ending_of entry even range.now (S.degree scheme.now)
        (run (columns range.now (S.degree scheme.now)) pivots
        (opening (S.number scheme.now) range.now (S.degree scheme.now)))) }
{
    let mut tableau = opening(alloc, scheme, range)?;
    match run(&mut tableau, pivots) {
        TableauEnding::Least => {
            let c = multipliers(alloc, tableau.cost.as_slice(), range, scheme.degree())?;
            let primal = read_primal(alloc, &tableau, entry, even, range)?;
            Ok(Ending::Least(c, primal))
        }
        TableauEnding::Turns => Ok(Ending::Turns),
        TableauEnding::Wide(entry) => Ok(Ending::Wide(entry)),
    }
}

/// The multipliers of a run's dual: the cost row's entry at z, and those at the s's.
fn multipliers(
    alloc: Global,
    cost: &[i64],
    range: &[u32],
    degree: u32,
) -> Result<Multipliers, AllocError>
    requires { length cost.now ≡ length (columns range.now degree) }
    ensures { IfOk result (λ c. c ≡ multipliers_of (columns range.now degree) degree cost.now) }
{
    let entries = &cost[range.len() + 1..cost.len() - 1];
    let mut numbers = Vec::with_capacity(alloc, cost.len())?;
    numbers.push(cost[0])?;
    for entry in entries {
        numbers.push(*entry)?;
    }
    Ok(Multipliers::from_vec(numbers))
}
