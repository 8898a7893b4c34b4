//! Runs the program on inputs whose output is known, and says which of them come out otherwise: the rows of the files `rows.toml` and
//! `made.toml`, which lie where this runs, what no input shows, and the derivations of `verdicts.toml`.
#![tactic(auto)]

mod calls;
mod chain;
mod doubly;
mod fields;
mod listings;
mod numbers;
mod outcome;
mod row;
mod tally;
mod verdicts;

use crate::fields::list;
use crate::tally::Tally;
use std::fs;
use toml::Value;

fn main(rt: HostRuntime) -> anyhow::Result<()> {
    let mut tally = Tally::default();
    for name in ["rows.toml", "made.toml"] {
        let text = fs::read_to_string(&rt, name)?;
        let file = Value::Table(toml::table_from_str(rt.alloc(), text.as_str())?);
        for row in list(&file, "row") {
            tally.run(&rt, row, list(&file, "part"))?;
        }
    }
    calls::run_all(&rt, &mut tally)?;
    numbers::run_all(&rt, &mut tally)?;
    chain::run_all(&rt, &mut tally)?;
    doubly::run_all(&rt, &mut tally)?;
    listings::run_all(&rt, &mut tally)?;
    println!(rt; "{} rows, {} differ", tally.rows, tally.differ)?;
    let mut derivations = Tally::default();
    verdicts::run_all(&rt, &mut derivations)?;
    println!(rt;
        "{} derivations, {} differ",
        derivations.rows, derivations.differ
    )?;
    Ok(())
}
