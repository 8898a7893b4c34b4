//! The marked lines of a table, by themselves.

ghost use Rattle.std.specs.Prelude.{◌≡◌, ◌<◌, ◌≤◌, ◌++◌, ◌∷◌, [], All, IfOk, OnOk, if◌then◌else◌, length, map, take, slice_index};
ghost use Rattle.ct_derive.specs.Pruning.{moved_line, pruned, unmarked};

use ct_rules::Line;
use ct_table::Table;
use smallvec::SmallVec;
use std::alloc::{AllocError, Global};

/// The places to which these have moved. `Err` is want of memory.
fn moved_places(
    alloc: Global,
    from: &[usize],
    moved: &[usize],
) -> Result<SmallVec<usize, 2>, AllocError>
    requires { All (λ p. p < length moved.now) from.now }
    ensures { IfOk result (λ places. places.items ≡ map (slice_index moved.now) from.now) }
{
    let mut places = SmallVec::new(alloc);
    for place in from {
        places.push(moved[*place])?;
    }
    Ok(places)
}

/// The line, with the places of the lines that it names as they are now. `Err` is want of memory.
fn moved_line(alloc: Global, line: &Line, moved: &[usize]) -> Result<Line, AllocError>
    requires { All (λ p. p < length moved.now) line.now.from }
    ensures { IfOk result (λ there. there ≡ moved_line (slice_index moved.now) line.now) }
{
    let from = moved_places(alloc, line.from.as_slice(), moved)?;
    Ok(Line {
        claim: line.claim,
        rule: line.rule,
        from,
    })
}

/// Puts the line, with the places of the lines that it names as they are now, where it is needed. `Err` is want of memory.
fn put_line(
    alloc: Global,
    lines: &mut Vec<Line>,
    line: &Line,
    moved: &[usize],
    is_needed: bool,
) -> Result<(), AllocError>
    requires { All (λ p. p < length moved.now) line.now.from }
    ensures { OnOk result (lines.new.items ≡ lines.old.items ++ (if is_needed then moved_line (slice_index moved.now) line.now ∷ [] else [])) }
{
    if is_needed {
        let line = moved_line(alloc, line, moved)?;
        lines.push(line)?;
    }
    Ok(())
}

/// The marked lines of the table, by themselves. `Err` is want of memory.
pub(crate) fn marked_lines(
    alloc: Global,
    table: &Table,
    marks: &[bool],
) -> Result<Vec<Line>, AllocError>
    requires { length marks.now ≤ length table.now.lines }
    ensures { IfOk result (λ lines. lines.items ≡ pruned (unmarked marks.now) (take (length marks.now) table.now.lines)) }
{
    let mut moved = Vec::new(alloc);
    let mut lines = Vec::new(alloc);
    for place in 0..marks.len() {
        let there = lines.len();
        put_line(alloc, &mut lines, table.line(place), &moved, marks[place])?;
        moved.push(there)?;
    }
    Ok(lines)
}
