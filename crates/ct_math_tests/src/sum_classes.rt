//! Sum classes, counted and listed.

ghost use Rattle.std.specs.Prelude.{◌≤◌};

use crate::build_parts::shows;
use ct_sum_classes::{sum_class_count, sum_class_list};
use ct_words::{Code, MAX_N, Word};
use std::alloc::Global;
use std::process::Abort;
use std::test::Fail;

/// A length, a weight, a residue, and how many words the sum class has.
type Counted = (u32, u32, u32, u64);

/// The class of A(6,4,3) and a neighbour, and one of A(8,4,4). The classes of 15 of 30 places, by the residue of their sum, up to 15: a
/// greatest one and the others. Worked out by adding one place after the other.
const COUNTS: [Counted; 19] = [
    (6, 3, 0, 4),
    (6, 3, 1, 3),
    (8, 4, 2, 10),
    (30, 15, 0, 5170604),
    (30, 15, 1, 5170575),
    (30, 15, 2, 5170575),
    (30, 15, 3, 5170600),
    (30, 15, 4, 5170575),
    (30, 15, 5, 5170578),
    (30, 15, 6, 5170600),
    (30, 15, 7, 5170575),
    (30, 15, 8, 5170575),
    (30, 15, 9, 5170600),
    (30, 15, 10, 5170578),
    (30, 15, 11, 5170575),
    (30, 15, 12, 5170600),
    (30, 15, 13, 5170575),
    (30, 15, 14, 5170575),
    (30, 15, 15, 5170604),
];

/// How many words the sum class has, where there is one of these numbers.
fn count_of(n: u32, w: u32, r: u32) -> Option<u64> {
    if n <= MAX_N && w <= n && r < n {
        Some(sum_class_count(n, w, r))
    } else {
        None
    }
}

#[test]
fn known_counts(rt: HostRuntime) {
    for (n, w, r, want) in &COUNTS {
        assert!(rt; count_of(*n, *w, *r) == Some(*want), "at {n} {w} {r}");
    }
}

/// The words of the sum class, which has some.
fn list_of(rt: &impl Abort, alloc: Global, n: u32, w: u32, r: u32) -> Result<Code, Fail> {
    assert!(rt; n <= MAX_N && w <= n && r < n && sum_class_count(n, w, r) > 0);
    Ok(sum_class_list(alloc, n, w, r)?)
}

/// The class of A(6,4,3), written out.
const OF_SIX: [Word; 4] = [0b000111, 0b011100, 0b101010, 0b110001];

#[test]
fn listed(rt: HostRuntime) -> Result<(), Fail> {
    let code = list_of(&rt, rt.alloc(), 6, 3, 0)?;
    assert!(rt; shows(&code, (6, 4, Some(3)), &OF_SIX));
    Ok(())
}

/// Every sum class of lengths up to 12, against a plain count of all words.
#[test]
fn counted(rt: HostRuntime) {
    for n in 1..13 {
        for w in 0..n + 1 {
            for r in 0..n {
                assert!(rt;
                    sum_class_count(n, w, r) == counted_plainly(n, w, r),
                    "at {n} {w} {r}"
                );
            }
        }
    }
}

/// How many words of length n and weight w have ones whose places add up to r modulo n.
fn counted_plainly(n: u32, w: u32, r: u32) -> u64
    requires { (1 ≤ n) × (n ≤ 12) }
{
    let mut count: u64 = 0;
    for word in 0..1u32 << n {
        if word.count_ones() == w && sum_of_ones(word, n) % n == r {
            count = count.saturating_add(1);
        }
    }
    count
}

/// The sum of the places of the word's ones.
fn sum_of_ones(word: Word, n: u32) -> u32
    requires { n ≤ 12 }
{
    let mut sum: u32 = 0;
    for place in 0..n {
        if (word >> (n - 1 - place)) % 2 == 1 {
            sum = sum.saturating_add(place);
        }
    }
    sum
}
