//! The sample, and its summary.

ghost use Rattle.std.specs.Prelude.{◌≡◌, ◌++◌, All, IfOk, OnOk, codes};
ghost use Rattle.ct_words.specs.Entry.{IsEntry};
ghost use Rattle.ct_words.specs.TableEntries.{table_entries};
ghost use Rattle.ct_sample.specs.Run.{no_commands, run_to};
ghost use Rattle.ct_sample.specs.Summary.{IsSummary, named_line, summary_text};

use crate::run::Run;
use crate::tally::{Tally, tally_of};
use ct_text::{LINE_FEED, put_spaced};
use ct_words::{Entry, table_entries};
use std::alloc::{AllocError, Global};

/// What the commands of the sample leave.
#[derive(Clone, Copy)]
pub struct Summary {
    /// How many commands there were.
    pub commands: u32,
    /// How many submissions were accepted.
    pub accepted: u32,
    /// How many withdrawals were made.
    pub withdrawn: u32,
    /// How many pieces stand.
    pub standing: u32,
    /// The bounds of all entries of the table.
    pub tally: Tally,
}

/// The summary of this run of so many commands, over the entries of the table.
fn summary_of(number: u32, run: &Run, entries: &[Entry]) -> Summary
    requires run { run.now ≡ run_to number number }
    requires listed { entries.now ≡ table_entries }
    requires in_table { All IsEntry entries.now }
    ensures { IsSummary number result }
{
    Summary {
        commands: number,
        accepted: run.accepted(),
        withdrawn: run.withdrawn(),
        standing: run.standing() as u32,
        tally: tally_of(run.table(), entries),
    }
}

/// The summary of a run that obeys the commands of the sample of so many, over the entries of the table. `Err` is want of memory.
fn summary_after(
    alloc: Global,
    number: u32,
    run: &mut Run,
    entries: &[Entry],
) -> Result<Summary, AllocError>
    requires fresh { run.old ≡ no_commands }
    requires listed { entries.now ≡ table_entries }
    requires in_table { All IsEntry entries.now }
    ensures { IfOk result (IsSummary number) }
{
    run.obey(alloc, number)?;
    Ok(summary_of(number, run, entries))
}

/// The summary of the sample of so many commands. `Err` is want of memory.
pub fn sample(alloc: Global, number: u32) -> Result<Summary, AllocError>
    ensures { IfOk result (IsSummary number) }
{
    let entries = table_entries(alloc)?;
    let mut run = Run::new(alloc)?;
    summary_after(alloc, number, &mut run, &entries)
}

/// Puts a line at the end of the text: a name, a space and a number.
fn put_line(alloc: Global, text: &mut Vec<u8>, name: &[u8], number: u64) -> Result<(), AllocError>
    ensures { OnOk result (text.new.items ≡ text.old.items ++ named_line name.now number) }
{
    text.extend_from_slice(name)?;
    put_spaced(alloc, text, number)?;
    text.push(LINE_FEED)?;
    Ok(())
}

/// The seven lines of the summary. `Err` is want of memory.
pub(crate) fn summary_text(alloc: Global, summary: &Summary) -> Result<Vec<u8>, AllocError>
    ensures { IfOk result (λ text. text.items ≡ summary_text summary.now) }
{
    let mut text = Vec::new(alloc);
    put_line(alloc, &mut text, b"commands", u64::from(summary.commands))?;
    put_line(alloc, &mut text, b"accepted", u64::from(summary.accepted))?;
    put_line(alloc, &mut text, b"withdrawn", u64::from(summary.withdrawn))?;
    put_line(alloc, &mut text, b"standing", u64::from(summary.standing))?;
    put_line(alloc, &mut text, b"equal", u64::from(summary.tally.equal))?;
    put_line(alloc, &mut text, b"lower", summary.tally.lower)?;
    put_line(alloc, &mut text, b"upper", summary.tally.upper)?;
    Ok(text)
}
