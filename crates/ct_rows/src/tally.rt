//! Counting the rows.

use crate::fields::{are_known, text};
use crate::row::{difference, sizes, what_is_known};
use std::io;
use std::rt::Files;
use toml::Value;

/// How many rows there were, and how many of them came out otherwise.
#[derive(Clone, Copy, Default)]
pub struct Tally {
    /// How many rows there were.
    pub rows: u32,
    /// How many came out otherwise.
    pub differ: u32,
}

impl Tally {
    /// Counts a row. Prints its name and what came, where that is not what is known.
    pub fn count(
        &mut self,
        rt: &impl Print,
        name: &str,
        is_met: bool,
        came: &str,
    ) -> io::Result<()> {
        self.rows = self.rows.saturating_add(1);
        if !is_met {
            self.differ = self.differ.saturating_add(1);
            println!(rt; "{name}: {came}")?;
        }
        Ok(())
    }

    /// Runs the program on the row, which comes after some of the parts, in pieces of each of its sizes, and counts it.
    pub fn run(
        &mut self,
        rt: &(impl Print + Files + AllocGlobal),
        row: &Value,
        parts: &[Value],
    ) -> io::Result<()> {
        let known = what_is_known(rt, parts, row)?;
        let mut came = None;
        for size in sizes(rt.alloc(), row)? {
            came = difference(rt.alloc(), row, &known, size)?.or(came);
        }
        let is_met = came.is_none() && are_known(row) && parts.iter().all(are_known);
        self.count(
            rt,
            text(row, "name"),
            is_met,
            came.as_deref().unwrap_or("other keys"),
        )
    }
}
