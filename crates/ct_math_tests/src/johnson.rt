//! The bounds at values from tables and by hand. Upper bounds of A(n,d,w) from Brouwer, Shearer, Sloane and Smith 1990
//! stand as premises; A(8,4,4) = 14, A(12,6,6) = 22 and others are met.

ghost use Rattle.std.specs.Prelude.{◌≡◌, ◌≤◌, true};

use ct_johnson::{column_count, drop_one, drop_zero, elias_bassalygo, johnson, split};
use ct_words::{Entry, MAX_BOUND, MAX_N};

/// A length, a weight, an upper bound that stands, and the bound that follows from it.
type OfWeight = (u32, u32, u32, u32);

/// Whether the number may stand as an upper bound.
fn is_bound(u: u32) -> bool
    ensures { result ≡ true → (1 ≤ u) × (u ≤ MAX_BOUND) }
{
    1 <= u && u <= MAX_BOUND
}

/// Steiner systems meet the bounds: A(7,4,3) = 7, A(8,4,4) = 14, A(10,4,4) = 30, A(12,6,6) = 22, A(24,8,8) = 759.
const WITH_A_ONE: [OfWeight; 17] = [
    (6, 3, 2, 4),
    (7, 3, 3, 7),
    (8, 3, 3, 8),
    (8, 4, 7, 14),
    (9, 4, 8, 18),
    (10, 4, 12, 30),
    (11, 5, 5, 11),
    (12, 6, 11, 22),
    (24, 8, 253, 759),
    (2, 1, 1, 2),
    (2, 2, 1, 1),
    (30, 30, MAX_BOUND, MAX_BOUND),
    (30, 29, 1037950430, 1073741824),
    (30, 29, 1037950429, 1073741823),
    (30, 1, 35791394, 1073741820),
    (30, 1, 35791395, MAX_BOUND),
    (30, 1, MAX_BOUND, MAX_BOUND),
];

fn is_with_a_one((n, w, u, want): OfWeight) -> bool {
    2 <= n && n <= MAX_N && 1 <= w && w <= n && is_bound(u) && drop_one(n, w, u) == want
}

#[test]
fn words_with_a_one(rt: HostRuntime) {
    for row in &WITH_A_ONE {
        assert!(rt; is_with_a_one(*row), "{row:?}");
    }
}

/// The complements: A(7,4,4) = A(7,4,3) = 7 from A(6,4,4) = A(6,4,2) = 3, A(8,4,5) = 8 from A(7,4,5) = 3.
const WITH_A_ZERO: [OfWeight; 13] = [
    (7, 4, 3, 7),
    (8, 5, 3, 8),
    (8, 4, 7, 14),
    (9, 4, 14, 25),
    (12, 6, 11, 22),
    (24, 16, 253, 759),
    (2, 0, 1, 1),
    (2, 1, 1, 2),
    (30, 0, MAX_BOUND, MAX_BOUND),
    (30, 1, 1037950429, 1073741823),
    (30, 29, 35791394, 1073741820),
    (30, 29, 35791395, MAX_BOUND),
    (30, 29, MAX_BOUND, MAX_BOUND),
];

fn is_with_a_zero((n, w, u, want): OfWeight) -> bool {
    2 <= n && n <= MAX_N && w < n && is_bound(u) && drop_zero(n, w, u) == want
}

#[test]
fn words_with_a_zero(rt: HostRuntime) {
    for row in &WITH_A_ZERO {
        assert!(rt; is_with_a_zero(*row), "{row:?}");
    }
}

/// Two upper bounds, and what they give together.
type OfHalves = (u32, u32, u32);

/// A(8,4,4) = 14 = A(7,4,4) + A(7,4,3), and the ends.
const HALVES: [OfHalves; 7] = [
    (7, 7, 14),
    (3, 4, 7),
    (1, 1, 2),
    (1073741823, 1, MAX_BOUND),
    (1073741822, 1, 1073741823),
    (MAX_BOUND, 1, MAX_BOUND),
    (MAX_BOUND, MAX_BOUND, MAX_BOUND),
];

fn is_of_halves((u0, u1, want): OfHalves) -> bool {
    is_bound(u0) && is_bound(u1) && split(u0, u1) == want
}

#[test]
fn both_halves(rt: HostRuntime) {
    for row in &HALVES {
        assert!(rt; is_of_halves(*row), "{row:?}");
    }
}

/// A length, a distance, a weight, and the least number of words that is too many.
type OfColumns = (u32, u32, u32, Option<u32>);

/// A(7,4,3) = 7, A(8,6,4) = 2, A(9,6,4) = 3, A(10,6,4) = 5, A(11,6,4) = 6, A(12,6,4) = 9, each by hand; A(28,14,13) is
/// at most 196, and A(30,14,11) at most 210.
const COLUMNS: [OfColumns; 14] = [
    (7, 4, 3, Some(8)),
    (8, 6, 4, Some(3)),
    (9, 6, 4, Some(4)),
    (10, 6, 4, Some(6)),
    (11, 6, 4, Some(7)),
    (12, 6, 4, Some(10)),
    (28, 14, 13, Some(197)),
    (30, 14, 11, Some(211)),
    (30, 30, 15, Some(3)),
    (30, 30, 30, Some(2)),
    (8, 4, 4, None),
    (10, 6, 2, None),
    (4, 4, 0, None),
    (1, 4, 1, None),
];

fn is_of_columns((n, d, w, want): OfColumns) -> bool {
    Entry { n, d, w: Some(w) }.in_table() && column_count(n, d, w) == want
}

#[test]
fn pairs_in_columns(rt: HostRuntime) {
    for row in &COLUMNS {
        assert!(rt; is_of_columns(*row), "{row:?}");
    }
}

/// The greatest least number of words that is too many, over the weights at a length and an even distance; `None` where one of
/// these is no entry of the table, and where it is 211 or more, but at length 30, distance 14 and the weights 11 and 19.
fn greatest_at(n: u32, d: u32) -> Option<u32> {
    if n > MAX_N {
        return None;
    }
    let mut greatest = 0;
    for w in 0..n + 1 {
        if !(Entry { n, d, w: Some(w) }).in_table() {
            return None;
        }
        let count = column_count(n, d, w).unwrap_or(0);
        if count >= 211 && !(n == 30 && d == 14 && (w == 11 || w == 19)) {
            return None;
        }
        greatest = count.max(greatest);
    }
    Some(greatest)
}

/// The greatest least number of words that is too many, over all entries with weight: 211, at (30,14,11), and at its complement.
/// A plain program that counts up to 5,000 finds the same.
#[test]
fn greatest_count(rt: HostRuntime) {
    let mut greatest = 0;
    for n in 1..MAX_N + 1 {
        for half in 2..16 {
            let count = greatest_at(n, 2 * half);
            assert!(rt; count.is_some(), "{n} {half}");
            greatest = greatest.max(count.unwrap_or(0));
        }
    }
    assert!(rt; greatest == 211);
}

/// A(8,4) ≤ 25 from A(8,4,4) = 14, A(16,6) ≤ 458 from A(16,6,6) = 112, and the ends.
const AVERAGES: [OfWeight; 11] = [
    (8, 4, 14, 25),
    (7, 3, 7, 12),
    (12, 6, 22, 48),
    (16, 6, 112, 458),
    (1, 0, 1, 1),
    (1, 1, 1, 1),
    (30, 0, 1, 536870912),
    (30, 30, 2, MAX_BOUND),
    (30, 0, 3, MAX_BOUND),
    (30, 15, 1, 3),
    (30, 15, MAX_BOUND, MAX_BOUND),
];

fn is_of_averages((n, w, u, want): OfWeight) -> bool {
    1 <= n && n <= MAX_N && w <= n && is_bound(u) && elias_bassalygo(n, w, u) == want
}

#[test]
fn averages(rt: HostRuntime) {
    for row in &AVERAGES {
        assert!(rt; is_of_averages(*row), "{row:?}");
    }
}

/// A length, a distance, an upper bound that stands, and the bound that follows from it, where one does.
type OutsideBalls = (u32, u32, u32, Option<u32>);

/// A(15,5) ≤ 256 (met by the code of Nordstrom and Robinson), A(6,3) ≤ 8 and others by hand; none where the excess is 0
/// or below.
const OUTSIDE_BALLS: [OutsideBalls; 19] = [
    (15, 5, 42, Some(256)),
    (14, 5, 36, Some(153)),
    (14, 5, 37, None),
    (6, 3, 4, Some(8)),
    (8, 3, 8, Some(25)),
    (4, 3, 1, Some(2)),
    (10, 5, 6, Some(13)),
    (13, 5, 18, Some(69)),
    (28, 3, 121, Some(8926594)),
    (30, 3, 140, Some(33554432)),
    (30, 29, 1, Some(2)),
    (3, 3, 1, None),
    (7, 3, 7, None),
    (30, 3, 145, None),
    (29, 29, 1, None),
    (30, 29, MAX_BOUND, None),
    (8, 4, 14, None),
    (30, 30, 1, None),
    (4, 5, 1, None),
];

fn is_outside_balls((n, d, u, want): OutsideBalls) -> bool {
    Entry { n, d, w: None }.in_table() && is_bound(u) && johnson(n, d, u) == want
}

#[test]
fn outside_the_balls(rt: HostRuntime) {
    for row in &OUTSIDE_BALLS {
        assert!(rt; is_outside_balls(*row), "{row:?}");
    }
}
