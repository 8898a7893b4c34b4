//! The entries of the table, listed.

ghost use Rattle.std.specs.Prelude.{◌≡◌, ◌++◌, All, OnOk, IfOk};
ghost use Rattle.ct_words.specs.Entry.{IsEntry};
ghost use Rattle.ct_words.specs.TableEntries.{column, columns_of_weight, table_entries};

use crate::entry::Entry;
use crate::limits::MAX_N;
use std::alloc::{AllocError, Global};

/// Puts the entries of a column at the end, by length.
fn put_column(entries: &mut Vec<Entry>, d: u32, w: Option<u32>) -> Result<(), AllocError>
    ensures { OnOk result (entries.new.items ≡ entries.old.items ++ column d w) }
{
    for n in 1..MAX_N + 1 {
        let entry = Entry { n, d, w };
        if entry.in_table() {
            entries.push(entry)?;
        }
    }
    Ok(())
}

/// Puts the entries of the columns of a weight, or of those without one, at the end, by distance.
fn put_columns(entries: &mut Vec<Entry>, w: Option<u32>) -> Result<(), AllocError>
    ensures { OnOk result (entries.new.items ≡ entries.old.items ++ columns_of_weight w) }
{
    for d in 3..MAX_N + 1 {
        put_column(entries, d, w)?;
    }
    Ok(())
}

/// The entries of the table, each once: those without weight, and then those of each weight, by distances and lengths. `Err` is
/// want of memory.
pub fn table_entries(alloc: Global) -> Result<Vec<Entry>, AllocError>
    ensures listed { IfOk result (λ entries. entries.items ≡ table_entries) }
    ensures in_table { IfOk result (λ entries. All IsEntry entries.items) }
{
    let mut entries = Vec::new(alloc);
    put_columns(&mut entries, None)?;
    for w in 0..MAX_N + 1 {
        put_columns(&mut entries, Some(w))?;
    }
    Ok(entries)
}
