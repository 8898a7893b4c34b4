//! The lines of a table that one of them needs, as marks of their places.

ghost use Rattle.std.specs.Prelude.{◌≡◌, ◌+◌, ◌<◌, ◌≤◌, IfOk, false, length, replicate, take};
ghost use Rattle.ct_derive.specs.Pruning.{AreMarkedFrom, AreMarked};

use ct_derive::mark;
use ct_table::Table;
use std::alloc::{AllocError, Global};

/// Marks the lines that the line at the place names, where it is marked.
fn mark_named(marks: &mut [bool], table: &Table, place: usize)
    requires place { place < length marks.old }
    requires lines { length marks.old ≤ length table.now.lines }
    ensures { AreMarkedFrom (place + 1) (take (length marks.old) table.now.lines) marks.old →
        AreMarkedFrom place (take (length marks.old) table.now.lines) marks.new }
{
    if !marks[place] {
        return;
    }
    mark(marks, table.line(place).from.as_slice());
}

/// Marks the lines that the marked ones need, from the last place down.
fn mark_all(marks: &mut [bool], table: &Table)
    requires { length marks.old ≤ length table.now.lines }
    ensures { AreMarkedFrom (length marks.old) (take (length marks.old) table.now.lines) marks.old →
        AreMarked (take (length marks.old) table.now.lines) marks.new }
{
    let mut place = marks.len();
    while place > 0 {
        place -= 1;
        mark_named(marks, table, place);
    }
}

/// Marks the last of the first lines of the table, and those that it needs, where none is marked.
fn mark_needed(marks: &mut [bool], table: &Table, last: usize)
    requires none { marks.old ≡ replicate (last + 1) false }
    requires last { last < length table.now.lines }
    ensures { AreMarked (take (last + 1) table.now.lines) marks.new }
{
    marks[last] = true;
    mark_all(marks, table);
}

/// Marks of the first lines of the table, up to this one: those that it needs, and itself. `Err` is want of memory.
pub(crate) fn needed_lines(
    alloc: Global,
    table: &Table,
    last: usize,
) -> Result<Vec<bool>, AllocError>
    requires { last < length table.now.lines }
    ensures size { IfOk result (λ marks. length marks.items ≡ last + 1) }
    ensures needed { IfOk result (λ marks. AreMarked (take (last + 1) table.now.lines) marks.items) }
{
    let count = table.line_count();
    prove!(last < count);
    let mut marks = vec![in alloc; false; last + 1]?;
    mark_needed(&mut marks, table, last);
    Ok(marks)
}
