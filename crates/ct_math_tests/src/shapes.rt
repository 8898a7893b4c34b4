//! What the shapes of codes tell of a step, without their words.

ghost use Rattle.std.specs.Option.{ForSome};
ghost use Rattle.ct_build.specs.Build.{IsShape};

use crate::build_parts::{Few, Place, entry_of};
use crate::build_steps::{Change, fits, step_of};
use ct_build::{BuildFault, Shape, early_fault, result_size};
use std::alloc::Global;
use std::process::Abort;
use std::test::Fail;

/// The shape of a code of the entry with so many words.
fn shape(rt: &impl Abort, place: Place, size: u64) -> Shape
    ensures { IsShape result }
{
    let entry = entry_of(place);
    assert!(rt; entry.in_table());
    Shape::new(entry, size)
}

/// The number of words that the step makes of codes of these shapes, where it is known, or the first reason against it.
fn told(
    rt: &impl Abort,
    alloc: Global,
    change: Change,
    stated: Place,
    part: Shape,
    other: Option<Shape>,
) -> Result<Result<Option<u64>, BuildFault>, Fail>
    requires part { IsShape part }
    requires other { ForSome other IsShape }
{
    let step = step_of(alloc, change)?;
    let stated = entry_of(stated);
    assert!(rt; fits(&step, stated));
    match early_fault(&step, stated, part, other) {
        Some(fault) => Ok(Err(fault)),
        None => Ok(Ok(result_size(&step, part, other))),
    }
}

/// As many words as the limit.
const MOST: u64 = 262_144;

/// Steps over one part of length 26 and just so many words as the limit, the stated entry, and how many words it is known that they make.
const OF_ONE: [(Change, Place, Option<u64>); 5] = [
    (Change::Lengthen, (27, 4, None), Some(MOST)),
    (Change::Puncture(Few::One([0])), (25, 3, None), Some(MOST)),
    (
        Change::Shorten(Few::One([0]), Few::One([1])),
        (25, 4, None),
        None,
    ),
    (Change::Select(1), (26, 4, Some(13)), None),
    (Change::Trim(5), (26, 4, None), Some(5)),
];

/// The same steps over one word more are refused.
#[test]
fn sizes_of_one_part(rt: HostRuntime) -> Result<(), Fail> {
    let most = shape(&rt, (26, 4, None), MOST);
    let above = shape(&rt, (26, 4, None), MOST + 1);
    for (change, stated, wanted) in &OF_ONE {
        let made = told(&rt, rt.alloc(), *change, *stated, most, None)?;
        assert!(rt; made == Ok(*wanted), "{stated:?}");
        let refused = told(&rt, rt.alloc(), *change, *stated, above, None)?;
        assert!(rt; refused == Err(BuildFault::Size(MOST + 1)), "{stated:?}");
    }
    Ok(())
}

/// Steps of two parts of length 14, how many words these have, and how many it is known that are made, or the reason against it.
const OF_TWO: [(Change, u64, u64, Result<Option<u64>, BuildFault>); 4] = [
    (Change::Uuv, 512, 512, Ok(Some(MOST))),
    (Change::Uuv, 512, 513, Err(BuildFault::Size(262_656))),
    (Change::Juxtapose, 512, 511, Ok(Some(511))),
    (
        Change::Juxtapose,
        262_145,
        262_146,
        Err(BuildFault::Size(262_145)),
    ),
];

#[test]
fn sizes_of_two_parts(rt: HostRuntime) -> Result<(), Fail> {
    let half = (14, 4, None);
    let stated = (28, 4, None);
    for (change, first, second, wanted) in &OF_TWO {
        let (part, other) = (shape(&rt, half, *first), shape(&rt, half, *second));
        let answer = told(&rt, rt.alloc(), *change, stated, part, Some(other))?;
        assert!(rt; answer == *wanted, "{first} {second}");
    }
    Ok(())
}
