//! Tables of codes that are known: what comes and goes with supports.

ghost use Rattle.std.specs.Prelude.{◌<◌, ◌≡◌, IfOk, IfSome};
ghost use Rattle.ct_words.specs.Entry.{IsEntry};
ghost use Rattle.ct_rule_parts.specs.Support.{Stands};

use crate::known::{CODES, Cosets, NUMBERS, TWO_WORDS, entry_at, support_of};
use crate::values::{GOLAY_BOUNDS, assert_bounds};
use ct_rules::{Rule, Support};
use ct_table::Table;
use ct_words::{Claim, Entry, Side};
use std::alloc::{AllocError, Global};
use std::process::Abort;
use std::test::Fail;

/// The first entry that has other bounds in the other table.
fn first_difference(table: &Table, other: &Table) -> Option<Entry> {
    for number in 0..NUMBERS {
        let entry = entry_at(number);
        if entry.in_table()
            && (table.lower(entry) != other.lower(entry)
                || table.upper(entry) != other.upper(entry))
        {
            return Some(entry);
        }
    }
    None
}

/// The claim and the rule of the line that gives the bound of a side of an entry.
fn reason(table: &Table, side: Side, entry: Entry) -> (Claim, Rule)
    requires { IsEntry entry }
{
    let line = table.line(table.reason(side, entry));
    (line.claim, line.rule)
}

/// The first entry that has a bound of the side with another reason in the other table.
fn first_other_reason(table: &Table, other: &Table, side: Side) -> Option<Entry> {
    for number in 0..NUMBERS {
        let entry = entry_at(number);
        if entry.in_table() && reason(table, side, entry) != reason(other, side, entry) {
            return Some(entry);
        }
    }
    None
}

/// Puts a support at the end, and says how often a rule was tried for it.
fn add(rt: &impl Abort, table: &mut Table, support: Support) -> Result<u64, Fail>
    requires { Stands support }
{
    let before = table.evaluations();
    assert!(rt; table.supports().len() < 1000);
    table.add(support)?;
    let after = table.evaluations();
    assert!(rt; before <= after);
    Ok(after - before)
}

/// Takes out the support at the place, and says how often a rule was tried for it.
fn remove(rt: &impl Abort, table: &mut Table, place: usize) -> Result<u64, Fail> {
    let before = table.evaluations();
    assert!(rt; place < table.supports().len());
    table.remove(place)?;
    let after = table.evaluations();
    assert!(rt; before <= after);
    Ok(after - before)
}

/// Puts what a code gives without so many of its last places at the end, and says how often a rule was tried for it.
fn add_code(
    rt: &impl Abort,
    alloc: Global,
    table: &mut Table,
    code: Cosets,
    places: u32,
) -> Result<u64, Fail> {
    let support = support_of(rt, alloc, code, places)?;
    add(rt, table, support)
}

/// How often a table that is made anew over no supports tries a rule.
fn evaluations_of_rebuild(alloc: Global) -> Result<u64, AllocError> {
    let table = Table::rebuild(alloc, Vec::new(alloc))?;
    Ok(table.evaluations())
}

/// The bounds of the two tables are the same.
fn assert_same(rt: &impl Abort, table: &Table, other: &Table) {
    assert!(rt; first_difference(table, other).is_none());
}

/// The bounds are those of a table over no supports.
fn assert_empty(rt: &impl Abort, alloc: Global, table: &Table) -> Result<(), Fail> {
    let empty = Table::new(alloc)?;
    assert_same(rt, table, &empty);
    Ok(())
}

/// The bounds are those of a table over no supports, and so are the claims and rules that give them.
fn assert_as_new(rt: &impl Abort, alloc: Global, table: &Table) -> Result<(), Fail> {
    let empty = Table::new(alloc)?;
    assert_same(rt, table, &empty);
    assert!(rt; first_other_reason(table, &empty, Side::Lower).is_none());
    assert!(rt; first_other_reason(table, &empty, Side::Upper).is_none());
    Ok(())
}

/// A code of fewer words than the table has already, as A(5,3) is at least 4: nothing follows from it, nothing is lost with it.
fn try_two_words(rt: &impl Abort, alloc: Global, table: &mut Table) -> Result<(), Fail> {
    let lines = table.line_count();
    let tried = add_code(rt, alloc, table, TWO_WORDS, 0)?;
    assert!(rt; 0 < tried && tried <= 10);
    assert!(rt; table.line_count() == lines);
    assert!(rt; remove(rt, table, 0)? <= 10);
    assert_as_new(rt, alloc, table)
}

#[test]
fn support_that_improves_nothing(rt: HostRuntime) -> Result<(), Fail> {
    let mut table = Table::new(rt.alloc())?;
    try_two_words(&rt, rt.alloc(), &mut table)
}

/// A removal tries less than a table that is made anew.
fn try_golay(rt: &impl Abort, alloc: Global, table: &mut Table) -> Result<(), Fail> {
    add_code(rt, alloc, table, CODES[0], 0)?;
    assert_bounds(rt, table, Side::Lower, &GOLAY_BOUNDS);
    let tried = remove(rt, table, 0)?;
    assert!(rt; 0 < tried && tried < evaluations_of_rebuild(alloc)?);
    assert_empty(rt, alloc, table)
}

#[test]
fn code_and_its_removal(rt: HostRuntime) -> Result<(), Fail> {
    let mut table = Table::new(rt.alloc())?;
    try_golay(&rt, rt.alloc(), &mut table)
}

/// Without how many of its last places Golay's code comes first, without how many then, and the place of the one that goes first.
type Order = (u32, u32, usize);

/// Golay's code comes without so many of its last places, and without so many others; then the one at the place goes, and the
/// one that is left. With one of them or with both the bounds are those of one table, and in the end those of none.
fn come_and_go(
    rt: &impl Abort,
    alloc: Global,
    (first, second, place): Order,
    one: &Table,
    table: &mut Table,
) -> Result<(), Fail> {
    add_code(rt, alloc, table, CODES[0], first)?;
    assert_same(rt, table, one);
    add_code(rt, alloc, table, CODES[0], second)?;
    assert_same(rt, table, one);
    remove(rt, table, place)?;
    assert_same(rt, table, one);
    remove(rt, table, 0)?;
    assert_empty(rt, alloc, table)
}

/// Each order of coming and going.
const ORDERS: [Order; 5] = [(0, 1, 0), (0, 1, 1), (1, 0, 0), (1, 0, 1), (0, 0, 0)];

/// The codes come and go in each order, on tables that are empty before.
fn come_and_go_in_each_order(rt: &impl Abort, alloc: Global, one: &Table) -> Result<(), Fail> {
    for order in &ORDERS {
        let mut table = Table::new(alloc)?;
        come_and_go(rt, alloc, *order, one, &mut table)?;
    }
    Ok(())
}

// A(24,8) and A(23,7) rest on one another, by L5 and L6: each code alone gives all that both give. With the last of them
// nothing stays, whatever the order.
#[test]
fn codes_that_hold_up_one_another(rt: HostRuntime) -> Result<(), Fail> {
    let mut one = Table::new(rt.alloc())?;
    add_code(&rt, rt.alloc(), &mut one, CODES[0], 0)?;
    come_and_go_in_each_order(&rt, rt.alloc(), &one)
}

/// Numbers that look as if they were drawn, the same each time.
#[derive(Drop)]
struct Numbers {
    last: u64,
}

impl Numbers {
    /// The next number, below the limit.
    fn below(&mut self, limit: usize) -> usize
        requires { 0 < limit }
        ensures { result < limit }
    {
        self.last = self.last.wrapping_mul(75).wrapping_add(74) % 65537;
        self.last as usize % limit
    }
}

/// What a code of the list gives without a few of its basis words, representatives and last places.
fn some_support(rt: &impl Abort, alloc: Global, numbers: &mut Numbers) -> Result<Support, Fail>
    ensures { IfOk result Stands }
{
    let code = CODES[numbers.below(4)];
    let words = code.basis.len().saturating_sub(numbers.below(3));
    let cosets = numbers.below(code.representatives.len()) + 1;
    let part = Cosets {
        basis: &code.basis[..words],
        representatives: &code.representatives[..cosets],
        ..code
    };
    let places = numbers.below(5) as u32;
    support_of(rt, alloc, part, places)
}

/// Takes a support out or puts one at the end, so that there are about four.
fn change(
    rt: &impl Abort,
    alloc: Global,
    table: &mut Table,
    numbers: &mut Numbers,
) -> Result<u64, Fail> {
    let count = table.supports().len();
    if numbers.below(8) < count {
        remove(rt, table, numbers.below(count))
    } else {
        let support = some_support(rt, alloc, numbers)?;
        add(rt, table, support)
    }
}

/// The same support, where it is no dual: none is handed in here.
fn copy_of(support: &Support) -> Option<Support>
    ensures { IfSome result (λ copy. copy ≡ support.now) }
{
    match support {
        Support::Nothing => Some(Support::Nothing),
        Support::Size { entry, size } => Some(Support::Size {
            entry: *entry,
            size: *size,
        }),
        Support::Bound(_) | Support::Odd { .. } | Support::Local(_) => None,
    }
}

/// The same supports.
fn copies_of(alloc: Global, supports: &[Support]) -> Result<Vec<Support>, AllocError>
    ensures { IfOk result (λ copies. copies.items ≡ supports.now) }
{
    let mut copies = Vec::new(alloc);
    for support in supports {
        let Some(copy) = copy_of(support) else {
            return Err(AllocError);
        };
        copies.push(copy)?;
    }
    Ok(copies)
}

/// The bounds are those of a table that is made anew over the same supports.
fn assert_as_rebuilt(rt: &impl Abort, alloc: Global, table: &Table) -> Result<(), Fail> {
    let anew = Table::rebuild(alloc, copies_of(alloc, table.supports())?)?;
    assert_same(rt, table, &anew);
    Ok(())
}

/// Whatever comes and goes, the bounds are those of a table that is made anew.
fn change_often(rt: &impl Abort, alloc: Global, table: &mut Table) -> Result<(), Fail> {
    let mut numbers = Numbers { last: 1 };
    for _ in 0..300 {
        change(rt, alloc, table, &mut numbers)?;
        assert_as_rebuilt(rt, alloc, table)?;
    }
    Ok(())
}

#[test]
fn many_changes(rt: HostRuntime) -> Result<(), Fail> {
    let mut table = Table::new(rt.alloc())?;
    change_often(&rt, rt.alloc(), &mut table)
}
