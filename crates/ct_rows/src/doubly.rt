//! A bound on doubly constant weight codes that no entry of the table shows: it comes of the count of many words. `bench/doubly.py` has the same.

use crate::tally::Tally;
use ct_doubly::doubly;
use std::io;

/// Counts a row for the bound.
pub fn run_all(rt: &(impl Print + AllocGlobal), tally: &mut Tally) -> io::Result<()> {
    let bound = doubly(9, 5, 20, 5, 8);
    let came = format!(in rt.alloc(); "{bound} in the place of 34884")?;
    tally.count(rt, "a doubly constant weight code", bound == 34_884, &came)
}
