//! Duals that are known, and such that are refused.

use crate::build_parts::{Few, Place, entry_of};
use crate::dual_answers::{Answer, answer_to};
use ct_duals::DualFault;
use std::alloc::{AllocError, Global};
use std::process::Abort;
use std::test::Fail;

/// The entry of a dual, whether it is for even weights alone, its multipliers and allowances, the upper bounds that it rests on, and what
/// becomes of it.
type Row = (Place, bool, Few<i64>, Few<(u32, i64)>, Few<u32>, Answer);

/// Each dual has its answer.
fn assert_answers(rt: &impl Abort, alloc: Global, rows: &[Row]) -> Result<(), AllocError> {
    for (number, (place, even, c, y, uppers, want)) in rows.iter().enumerate() {
        let (c, y, uppers) = (c.as_slice(), y.as_slice(), uppers.as_slice());
        let answer = answer_to(alloc, entry_of(*place), *even, c, y, uppers)?;
        assert!(rt; answer == *want, "row {number}");
    }
    Ok(())
}

/// Duals of the linear program, from the literature or found by a solver and put into whole numbers, with the bounds that
/// they give: those of the extended Golay code, of its words of weight 8, of the Nordstrom-Robinson code and of Steiner
/// systems are met. Where 0 is allowed at an index, the bound rests on no entry for it.
const KNOWN: [Row; 13] = [
    (
        (13, 6, None),
        true,
        Few::Three([5, 1, 1]),
        Few::Two([(10, 16), (12, 48)]),
        Few::Two([4, 1]),
        Answer::Bound(32),
    ),
    (
        (13, 6, None),
        true,
        Few::Three([5, 1, 1]),
        Few::Two([(10, 16), (12, 48)]),
        Few::Two([4, 2]),
        Answer::Bound(38),
    ),
    (
        (13, 6, None),
        true,
        Few::Three([5, 1, 1]),
        Few::Three([(8, 0), (10, 16), (12, 48)]),
        Few::Two([4, 1]),
        Answer::Bound(32),
    ),
    (
        (16, 6, None),
        true,
        Few::Five([60, 60, 18, 12, 3]),
        Few::None([]),
        Few::None([]),
        Answer::Bound(256),
    ),
    (
        (16, 6, None),
        true,
        Few::Five([20, 20, 6, 4, 1]),
        Few::None([]),
        Few::None([]),
        Answer::Bound(256),
    ),
    (
        (24, 8, None),
        true,
        Few::Seven([3024, 3024, 1869, 924, 344, 100, 15]),
        Few::None([]),
        Few::None([]),
        Answer::Bound(4096),
    ),
    (
        (5, 3, None),
        false,
        Few::One([1]),
        Few::Three([(3, 1000), (4, 1), (5, 1)]),
        Few::Three([2, 1, 1]),
        Answer::Bound(2002),
    ),
    (
        (5, 3, None),
        false,
        Few::Six([1, 1, 1, 1, 1, 1]),
        Few::None([]),
        Few::None([]),
        Answer::Bound(32),
    ),
    (
        (8, 4, Some(4)),
        false,
        Few::Three([48, 21, 4]),
        Few::None([]),
        Few::None([]),
        Answer::Bound(14),
    ),
    (
        (8, 4, Some(4)),
        false,
        Few::Two([8, 1]),
        Few::One([(2, 8)]),
        Few::One([14]),
        Answer::Bound(17),
    ),
    (
        (12, 6, Some(6)),
        false,
        Few::Three([180, 55, 4]),
        Few::None([]),
        Few::None([]),
        Answer::Bound(22),
    ),
    (
        (24, 8, Some(8)),
        false,
        Few::Five([10725120, 1927170, 210924, 17917, 1012]),
        Few::None([]),
        Few::None([]),
        Answer::Bound(759),
    ),
    (
        (10, 4, Some(4)),
        false,
        Few::Four([2016, 486, 140, 45]),
        Few::None([]),
        Few::None([]),
        Answer::Bound(30),
    ),
];

#[test]
fn known_bounds(rt: HostRuntime) -> Result<(), Fail> {
    Ok(assert_answers(&rt, rt.alloc(), &KNOWN)?)
}

/// The greatest multiplier.
const MOST: i64 = 9223372036854775807;

/// It at length 30.
const GREATEST: [Row; 2] = [
    (
        (30, 30, None),
        false,
        Few::One([MOST]),
        Few::One([(30, MOST)]),
        Few::One([1]),
        Answer::Bound(2),
    ),
    (
        (30, 30, None),
        false,
        Few::One([1]),
        Few::One([(30, MOST)]),
        Few::One([1073741824]),
        Answer::Bound(1073741824),
    ),
];

/// It at all indices of lengths 28 and 30: an entry, how many multipliers its dual has, and its bound.
const ALL_GREATEST: [(Place, usize, u32); 3] = [
    ((28, 28, None), 29, 268435456),
    ((30, 3, None), 31, 1073741824),
    ((30, 30, None), 31, 1073741824),
];

/// The greatest multipliers at lengths 28 and 30: the sums fit, and the bound is the least of what they give and 2^30.
#[test]
fn greatest_numbers(rt: HostRuntime) -> Result<(), Fail> {
    for (place, count, want) in &ALL_GREATEST {
        let c = vec![in rt.alloc(); MOST; *count]?;
        let answer = answer_to(rt.alloc(), entry_of(*place), false, &c, &[], &[])?;
        assert!(rt; answer == Answer::Bound(*want), "{place:?}");
    }
    Ok(assert_answers(&rt, rt.alloc(), &GREATEST)?)
}

/// What is refused: a first multiplier of 0, before all else, and the least index where f is above what is allowed.
const REFUSED: [Row; 10] = [
    (
        (8, 4, Some(4)),
        false,
        Few::Three([0, 21, 4]),
        Few::None([]),
        Few::None([]),
        Answer::Refused(DualFault::Lead),
    ),
    (
        (13, 6, None),
        true,
        Few::Three([0, 1, 1]),
        Few::None([]),
        Few::None([]),
        Answer::Refused(DualFault::Lead),
    ),
    (
        (13, 6, None),
        true,
        Few::Three([5, 1, 1]),
        Few::One([(10, 16)]),
        Few::None([]),
        Answer::Refused(DualFault::Above {
            at: 12,
            value: 48,
            allowed: 0,
        }),
    ),
    (
        (13, 6, None),
        true,
        Few::Three([5, 1, 1]),
        Few::None([]),
        Few::None([]),
        Answer::Refused(DualFault::Above {
            at: 10,
            value: 16,
            allowed: 0,
        }),
    ),
    (
        (13, 6, None),
        true,
        Few::Three([5, 1, 1]),
        Few::Two([(10, 15), (12, 47)]),
        Few::None([]),
        Answer::Refused(DualFault::Above {
            at: 10,
            value: 16,
            allowed: 15,
        }),
    ),
    (
        (13, 6, None),
        false,
        Few::Three([5, 1, 1]),
        Few::Two([(10, 16), (12, 48)]),
        Few::None([]),
        Answer::Refused(DualFault::Above {
            at: 9,
            value: 6,
            allowed: 0,
        }),
    ),
    (
        (5, 3, None),
        false,
        Few::One([1]),
        Few::None([]),
        Few::None([]),
        Answer::Refused(DualFault::Above {
            at: 3,
            value: 1,
            allowed: 0,
        }),
    ),
    (
        (8, 4, Some(4)),
        false,
        Few::Three([48, 20, 4]),
        Few::None([]),
        Few::None([]),
        Answer::Refused(DualFault::Above {
            at: 4,
            value: 16,
            allowed: 0,
        }),
    ),
    (
        (8, 4, Some(4)),
        false,
        Few::Two([8, 1]),
        Few::One([(2, 7)]),
        Few::None([]),
        Answer::Refused(DualFault::Above {
            at: 2,
            value: 8,
            allowed: 7,
        }),
    ),
    (
        (8, 4, Some(4)),
        false,
        Few::One([1]),
        Few::None([]),
        Few::None([]),
        Answer::Refused(DualFault::Above {
            at: 2,
            value: 1,
            allowed: 0,
        }),
    ),
];

#[test]
fn refused_duals(rt: HostRuntime) -> Result<(), Fail> {
    Ok(assert_answers(&rt, rt.alloc(), &REFUSED)?)
}

/// What has not the form of a dual.
const MALFORMED: [Row; 13] = [
    (
        (31, 6, None),
        false,
        Few::One([1]),
        Few::None([]),
        Few::None([]),
        Answer::Malformed,
    ),
    (
        (13, 5, None),
        true,
        Few::One([1]),
        Few::None([]),
        Few::None([]),
        Answer::Malformed,
    ),
    (
        (13, 6, None),
        false,
        Few::None([]),
        Few::None([]),
        Few::None([]),
        Answer::Malformed,
    ),
    (
        (3, 3, None),
        false,
        Few::Five([1, 1, 1, 1, 1]),
        Few::None([]),
        Few::None([]),
        Answer::Malformed,
    ),
    (
        (13, 6, None),
        false,
        Few::Two([1, -1]),
        Few::None([]),
        Few::None([]),
        Answer::Malformed,
    ),
    (
        (13, 6, None),
        false,
        Few::One([1]),
        Few::One([(5, 1)]),
        Few::None([]),
        Answer::Malformed,
    ),
    (
        (13, 6, None),
        false,
        Few::One([1]),
        Few::One([(14, 1)]),
        Few::None([]),
        Answer::Malformed,
    ),
    (
        (13, 6, None),
        true,
        Few::One([1]),
        Few::One([(7, 1)]),
        Few::None([]),
        Answer::Malformed,
    ),
    (
        (13, 6, None),
        false,
        Few::One([1]),
        Few::Two([(8, 1), (8, 1)]),
        Few::None([]),
        Answer::Malformed,
    ),
    (
        (13, 6, None),
        false,
        Few::One([1]),
        Few::One([(8, -1)]),
        Few::None([]),
        Answer::Malformed,
    ),
    (
        (8, 4, Some(4)),
        true,
        Few::One([1]),
        Few::None([]),
        Few::None([]),
        Answer::Malformed,
    ),
    (
        (8, 4, Some(4)),
        false,
        Few::One([1]),
        Few::One([(1, 1)]),
        Few::None([]),
        Answer::Malformed,
    ),
    (
        (8, 4, Some(4)),
        false,
        Few::One([1]),
        Few::One([(5, 1)]),
        Few::None([]),
        Answer::Malformed,
    ),
];

#[test]
fn malformed_duals(rt: HostRuntime) -> Result<(), Fail> {
    Ok(assert_answers(&rt, rt.alloc(), &MALFORMED)?)
}
