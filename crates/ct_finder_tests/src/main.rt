//! Looks for duals of entries whose bounds are known, the rows of the file `bounds.toml`, which lies where this runs, and says which of them
//! come out otherwise.
#![tactic(auto)]

mod row;
mod tally;

use crate::row::{list, number};
use crate::tally::Tally;
use std::fs;
use toml::Value;

fn main(rt: HostRuntime) -> anyhow::Result<()> {
    let mut tally = Tally::default();
    let text = fs::read_to_string(&rt, "bounds.toml")?;
    let file = Value::Table(toml::table_from_str(rt.alloc(), text.as_str())?);
    for group in list(file.get("group")) {
        for row in list(group.get("rows")) {
            tally.find(&rt, number(group.get("turns")), list(Some(row)))?;
        }
    }
    println!(rt; "{} duals, {} differ", tally.duals, tally.differ)?;
    Ok(())
}
