//! Johnson numbers against a table, values by hand, their plain sums and a direct count of pairs of places.

use crate::numbers::{add_signed, number_of};
use ct_scheme::Johnson;
use ct_words::{MAX_N, Scheme, Word, binomial, distance, factorial, weight};

/// The Johnson number J_k(i) at length n and weight w.
fn johnson(n: u32, w: u32, k: u32, i: u32) -> Option<i64> {
    if n == 0 || n > MAX_N || w > n {
        return None;
    }
    number_of(&Johnson { n, w }, k, i)
}

/// A length, a weight, k, i, and J_k(i).
type Known = (u32, u32, u32, u32, i64);

/// The table of Johnson numbers at n = 8 and w = 4, and first numbers of rows, which are C(w,k) C(n - w,k) k!.
const KNOWN: [Known; 18] = [
    (8, 4, 0, 3, 1),
    (8, 4, 1, 0, 16),
    (8, 4, 1, 1, 8),
    (8, 4, 1, 2, 0),
    (8, 4, 1, 3, -8),
    (8, 4, 1, 4, -16),
    (8, 4, 2, 0, 72),
    (8, 4, 2, 1, 9),
    (8, 4, 2, 2, -12),
    (8, 4, 2, 3, 9),
    (8, 4, 2, 4, 72),
    (8, 3, 3, 0, 60),
    (8, 3, 3, 3, -6),
    (3, 1, 1, 1, -1),
    (30, 15, 12, 0, 99165306240000),
    (30, 15, 15, 0, 1307674368000),
    (30, 15, 15, 15, -1307674368000),
    (30, 15, 14, 15, 19615115520000),
];

#[test]
fn known_numbers(rt: HostRuntime) {
    for (n, w, k, i, want) in &KNOWN {
        assert!(rt;
            johnson(*n, *w, *k, *i) == Some(*want),
            "J_{k}({i}) at {n}, {w}"
        );
    }
    assert!(rt; johnson(8, 3, 4, 0).is_none());
    assert!(rt; johnson(8, 3, 0, 4).is_none());
    assert!(rt; Johnson { n: 8, w: 3 }.degree() == 3);
    assert!(rt; Johnson { n: 8, w: 6 }.degree() == 2);
    assert!(rt; Johnson { n: 8, w: 0 }.degree() == 0);
}

/// C(a,k) C(b,k) k!, for a and b up to 30 and k up to 20.
fn matchings(a: u32, b: u32, k: u32) -> Option<u64> {
    if a > 30 || b > 30 || k > 20 {
        return None;
    }
    let choices = binomial(a, k).wrapping_mul(binomial(b, k));
    Some(choices.wrapping_mul(factorial(k)))
}

/// J_k(i) at length n and weight w, for k and i up to the least of w and n - w, as the sum over j of
/// (-1)^j C(i,j)^2 j! C(w - i,k - j) C(n - w - i,k - j) (k - j)!.
fn plain_sum(n: u32, w: u32, k: u32, i: u32) -> Option<i64> {
    if n > MAX_N || w > n || i > w.min(n - w) || k > w.min(n - w) {
        return None;
    }
    let mut sum = 0i64;
    for j in 0..k + 1 {
        let first = matchings(i, i, j)?;
        let second = matchings(w - i, n - w - i, k - j)?;
        sum = add_signed(sum, j, first.wrapping_mul(second))?;
    }
    Some(sum)
}

/// Whether there is a plain sum, and the number is just that.
fn is_plain_sum(n: u32, w: u32, k: u32, i: u32) -> bool {
    let want = plain_sum(n, w, k, i);
    want.is_some() && johnson(n, w, k, i) == want
}

/// At every length and weight each number is its plain sum.
#[test]
fn plain_sums(rt: HostRuntime) {
    for n in 1..MAX_N + 1 {
        for w in 0..n + 1 {
            let degree = w.min(n - w);
            for k in 0..degree + 1 {
                for i in 0..degree + 1 {
                    assert!(rt; is_plain_sum(n, w, k, i), "J_{k}({i}) at {n}, {w}");
                }
            }
        }
    }
}

/// The digit of a word at a place that is counted from its end.
fn digit(x: Word, place: u32) -> i64 {
    if place < 32 && x >> place & 1 == 1 {
        1
    } else {
        0
    }
}

/// What an ordered pair of places counts for two words: the product of their differences.
fn pair_count(x: Word, y: Word, a: u32, b: u32) -> i64 {
    let first = digit(x, a).wrapping_sub(digit(x, b));
    let second = digit(y, a).wrapping_sub(digit(y, b));
    first.wrapping_mul(second)
}

/// The counts of all ordered pairs of different places below n that are none of `used`.
fn pairs_without(x: Word, y: Word, n: u32, used: &[u32]) -> i64 {
    let mut sum = 0i64;
    for a in 0..n {
        for b in 0..n {
            if a != b && !used.contains(&a) && !used.contains(&b) {
                sum = sum.wrapping_add(pair_count(x, y, a, b));
            }
        }
    }
    sum
}

/// The products of the counts over all lists of two ordered pairs of places below n, four different places.
fn two_pairs(x: Word, y: Word, n: u32) -> i64 {
    let mut sum = 0i64;
    for a in 0..n {
        for b in 0..n {
            if a != b {
                let rest = pairs_without(x, y, n, &[a, b]);
                sum = sum.wrapping_add(pair_count(x, y, a, b).wrapping_mul(rest));
            }
        }
    }
    sum
}

/// Whether one pair gives twice J_1, and two pairs give eight times J_2, where there are these numbers.
fn are_counted(n: u32, w: u32, x: Word, y: Word) -> bool {
    let i = distance(x, y) / 2;
    let one = match johnson(n, w, 1, i) {
        Some(first) => pairs_without(x, y, n, &[]) == first.wrapping_mul(2),
        None => true,
    };
    let two = match johnson(n, w, 2, i) {
        Some(second) => two_pairs(x, y, n) == second.wrapping_mul(8),
        None => true,
    };
    one && two
}

/// For all words of one weight up to length 6, counted pair by pair.
#[test]
fn direct_counts(rt: HostRuntime) {
    for n in 1..7u32 {
        for x in 0..1u32 << n {
            for y in 0..1u32 << n {
                let w = weight(x);
                assert!(rt; weight(y) != w || are_counted(n, w, x, y), "{x} {y} at {n}");
            }
        }
    }
}
