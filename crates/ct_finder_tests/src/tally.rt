//! Counting the duals.

use crate::row::{number, outcome, text};
use std::io;
use toml::Value;

/// How many rows there were, and for how many of them another dual was found than is known.
#[derive(Clone, Copy, Default)]
pub struct Tally {
    /// How many rows there were.
    pub duals: u32,
    /// How many came out otherwise.
    pub differ: u32,
}

impl Tally {
    /// Counts the row, with at most so many turns. Prints its numbers and what was found, where this is another than is known.
    pub fn find(
        &mut self,
        rt: &(impl Print + AllocGlobal),
        turns: u32,
        row: &[Value],
    ) -> io::Result<()> {
        let came = outcome(rt.alloc(), row, turns)?;
        self.duals = self.duals.saturating_add(1);
        if came.as_str() != text(row.get(3)) {
            self.differ = self.differ.saturating_add(1);
            let (n, d) = (number(row.first()), number(row.get(1)));
            println!(rt; "{n} {d}, {turns} turns: {came}")?;
        }
        Ok(())
    }
}
