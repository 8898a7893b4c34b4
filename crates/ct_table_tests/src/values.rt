//! Bounds of tables that are known. (All bounds of whole tables are compared where sessions show them, by the program of rows.)

ghost use Rattle.ct_words.specs.Entry.{IsEntry};

use crate::known::{NUMBERS, entry_at, table_of_golay};
use ct_table::Table;
use ct_words::{Entry, MAX_N, Side};
use std::process::Abort;
use std::test::Fail;

/// A bound of the entry that n, d and w name.
type Row = (u32, u32, Option<u32>, u32);

// A(5,3) is at least A(6,4) = 2^2 · A(3,4) = 4 by L6, L8 and L1; A(8,4) = 2^3 · A(4,4) = 16 by L8 and L2. A(24,8) is at least
// A(12,4) · A(12,8) by L8, where A(12,4) = 2^5 · A(6,4) = 128 and A(12,8) = A(6,4) · A(6,8) = 4. By L6 A(23,7) is no less, and
// A(7,3) is at least A(8,4); so by L8 A(14,3) = 2^6 · 16 and A(28,3) = 2^13 · 2^10, and A(30,3) = 2^14 · 2^11 from A(15,3). Two words of weight 4 have no one in common
// at A(8,8,4), so that A(8,6,4) is at least 2 by M8; at A(28,28,14) two and at A(20,8,4) five have none, by M2. Four words of length 6
// and weight 3 have ones at places that add up to 0 modulo 6: 0 1 5, 0 2 4, 1 2 3 and 3 4 5; so A(6,4,3) is at least 4 by M9.
const LOWER_BOUNDS: [Row; 16] = [
    (1, 3, None, 1),
    (5, 3, None, 4),
    (6, 4, None, 4),
    (7, 3, None, 16),
    (8, 4, None, 16),
    (12, 4, None, 128),
    (23, 7, None, 512),
    (24, 8, None, 512),
    (29, 30, None, 1),
    (28, 3, None, 8388608),
    (30, 3, None, 33554432),
    (30, 30, None, 2),
    (6, 4, Some(3), 4),
    (8, 6, Some(4), 2),
    (28, 28, Some(14), 2),
    (20, 8, Some(4), 5),
];

// By Plotkin's bound A(5,3) is at most 4. By Johnson's A(28,3) is at most 2^28 · 14 / (14 · 29 + C(28,2) - 3 · 121), with 121 for
// A(28,4,3), and A(30,3) at most 2^30 · 15 / (15 · 31 + C(30,2) - 3 · 140) = 2^25, with 140 for A(30,4,3); and A(15,5) at most 2^15 · 5 / (5 · 121 + C(15,3) - 10 · 42) = 256, with 42 for A(15,6,5): Nordstrom's and Robinson's
// code, less a place, has as many words. The others by V4: 4 = 6/3 · 2 blocks of 3 of 6 points; the Steiner systems S(3,4,8) with
// 14 = 8/4 · 7, S(2,5,21) with 21 = 21/5 · 5, S(3,6,22) with 77 = 22/6 · 21, S(4,7,23) with 253 = 23/7 · 77 and S(5,8,24) with
// 759 = 24/8 · 253 blocks; and 22 = 12/6 · 11 blocks of 6 of 12 points, from the matrix of Hadamard of order 12.
const UPPER_BOUNDS: [Row; 14] = [
    (5, 3, None, 4),
    (15, 5, None, 256),
    (16, 6, None, 256),
    (28, 3, None, 8926594),
    (30, 3, None, 33554432),
    (6, 4, Some(3), 4),
    (8, 4, Some(4), 14),
    (12, 6, Some(6), 22),
    (20, 8, Some(4), 5),
    (21, 8, Some(5), 21),
    (22, 8, Some(6), 77),
    (23, 8, Some(7), 253),
    (24, 8, Some(8), 759),
    (28, 28, Some(14), 2),
];

/// Golay's code is at A(24,8), and by L6 at A(23,7).
pub const GOLAY_BOUNDS: [Row; 2] = [(24, 8, None, 4096), (23, 7, None, 4096)];

// By M5 from the 759 words of weight 8 of Golay's code: 253 = 8 · 759 / 24, 77 = 7 · 253 / 23 and 21 = 6 · 77 / 22.
const OCTAD_BOUNDS: [Row; 4] = [
    (24, 8, Some(8), 759),
    (23, 8, Some(7), 253),
    (22, 8, Some(6), 77),
    (21, 8, Some(5), 21),
];

/// The bound of a side of an entry.
fn bound(table: &Table, side: Side, entry: Entry) -> u32
    requires { IsEntry entry }
{
    match side {
        Side::Lower => table.lower(entry),
        Side::Upper => table.upper(entry),
    }
}

/// The sides of the entries have these bounds.
pub fn assert_bounds(rt: &impl Abort, table: &Table, side: Side, rows: &[Row]) {
    for (n, d, w, value) in rows {
        let entry = Entry {
            n: *n,
            d: *d,
            w: *w,
        };
        assert!(rt; entry.in_table());
        assert!(rt; bound(table, side, entry) == *value, "{entry:?}");
    }
}

/// Both bounds of the entry are the number.
fn is_exactly(table: &Table, n: u32, d: u32, w: u32, number: u32) -> bool {
    let entry = Entry { n, d, w: Some(w) };
    entry.in_table() && table.lower(entry) == number && table.upper(entry) == number
}

/// The bounds over no supports are those that are known.
fn assert_first_bounds(rt: &impl Abort, table: &Table) {
    assert_bounds(rt, table, Side::Lower, &LOWER_BOUNDS);
    assert_bounds(rt, table, Side::Upper, &UPPER_BOUNDS);
}

/// A(n,2w,w) = ⌊n/w⌋: words that have no one in common.
fn assert_disjoint_words(rt: &impl Abort, table: &Table) {
    for n in 1..=MAX_N {
        for w in 2..=n.min(MAX_N / 2) {
            assert!(rt; is_exactly(table, n, 2 * w, w, n / w), "{n} {w}");
        }
    }
}

/// A(n,d,w) = 1 where d is above 2w or 2(n - w).
fn assert_one_word(rt: &impl Abort, table: &Table) {
    for number in 0..NUMBERS {
        let Entry { n, d, w } = entry_at(number);
        let w = w.unwrap_or(n);
        if d % 2 == 0 && w <= n && d > 2 * w.min(n - w) {
            assert!(rt; is_exactly(table, n, d, w, 1), "{n} {d} {w}");
        }
    }
}

/// A(n,4,3) is ⌊n/3 · ⌊(n-1)/2⌋⌋, less 1 where n is 5 modulo 6: so many triples of n points have no two points in common
/// (Kirkman 1847; Schönheim 1966). The lower bound wants evidence.
fn assert_triples(rt: &impl Abort, table: &Table) {
    for n in 3..=MAX_N {
        let entry = Entry {
            n,
            d: 4,
            w: Some(3),
        };
        let most = n * ((n - 1) / 2) / 3 - u32::from(n % 6 == 5);
        assert!(rt; entry.in_table());
        assert!(rt; table.upper(entry) == most, "{n}");
    }
}

#[test]
fn values_without_supports(rt: HostRuntime) -> Result<(), Fail> {
    let table = Table::new(rt.alloc())?;
    assert_first_bounds(&rt, &table);
    assert_disjoint_words(&rt, &table);
    assert_one_word(&rt, &table);
    assert_triples(&rt, &table);
    Ok(())
}

#[test]
fn values_of_a_table_made_anew(rt: HostRuntime) -> Result<(), Fail> {
    let table = Table::rebuild(rt.alloc(), Vec::new(rt.alloc()))?;
    assert_first_bounds(&rt, &table);
    Ok(())
}

#[test]
fn values_with_octads(rt: HostRuntime) -> Result<(), Fail> {
    let table = table_of_golay(&rt, rt.alloc())?;
    assert_bounds(&rt, &table, Side::Lower, &GOLAY_BOUNDS);
    assert_bounds(&rt, &table, Side::Lower, &OCTAD_BOUNDS);
    assert_bounds(&rt, &table, Side::Upper, &OCTAD_BOUNDS);
    Ok(())
}
