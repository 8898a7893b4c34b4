//! Krawtchouk numbers against tables, their plain sums, the generating function and orthogonality.

use crate::numbers::{add_signed, number_of};
use ct_krawtchouk::Hamming;
use ct_words::{MAX_N, Scheme, binomial};

/// The Krawtchouk number K_k(i) at length n.
fn krawtchouk(n: u32, k: u32, i: u32) -> Option<i64> {
    if n == 0 || n > MAX_N {
        return None;
    }
    number_of(&Hamming { n }, k, i)
}

/// A length, k, i, and K_k(i).
type Known = (u32, u32, u32, i64);

/// The table of Krawtchouk numbers at n = 16 for even i, those at n = 13, and ends of rows at n = 30.
const KNOWN: [Known; 40] = [
    (16, 1, 0, 16),
    (16, 1, 6, 4),
    (16, 1, 8, 0),
    (16, 1, 10, -4),
    (16, 1, 12, -8),
    (16, 1, 14, -12),
    (16, 1, 16, -16),
    (16, 2, 0, 120),
    (16, 2, 6, 0),
    (16, 2, 8, -8),
    (16, 2, 10, 0),
    (16, 2, 12, 24),
    (16, 2, 14, 64),
    (16, 2, 16, 120),
    (16, 3, 0, 560),
    (16, 3, 6, -20),
    (16, 3, 8, 0),
    (16, 3, 10, 20),
    (16, 3, 12, -24),
    (16, 3, 14, -196),
    (16, 3, 16, -560),
    (16, 4, 0, 1820),
    (16, 4, 6, -20),
    (16, 4, 8, 28),
    (16, 4, 10, -20),
    (16, 4, 12, -36),
    (16, 4, 14, 364),
    (16, 4, 16, 1820),
    (13, 1, 6, 1),
    (13, 1, 12, -11),
    (13, 2, 0, 78),
    (13, 2, 6, -6),
    (13, 2, 8, -2),
    (13, 2, 10, 18),
    (13, 2, 12, 54),
    (1, 1, 1, -1),
    (30, 15, 0, 155117520),
    (30, 15, 30, -155117520),
    (30, 14, 30, 145422675),
    (30, 30, 1, -1),
];

#[test]
fn known_numbers(rt: HostRuntime) {
    for (n, k, i, want) in &KNOWN {
        assert!(rt; krawtchouk(*n, *k, *i) == Some(*want), "K_{k}({i}) at {n}");
    }
    assert!(rt; krawtchouk(13, 14, 0).is_none());
    assert!(rt; Hamming { n: 13 }.degree() == 13);
}

/// K_k(i) at length n, for k and i up to n, as the sum over j of (-1)^j C(i,j) C(n - i,k - j).
fn plain_sum(n: u32, k: u32, i: u32) -> Option<i64> {
    if n > MAX_N || k > n || i > n {
        return None;
    }
    let mut sum = 0i64;
    for j in 0..k + 1 {
        let words = binomial(i, j).wrapping_mul(binomial(n - i, k - j));
        sum = add_signed(sum, j, words)?;
    }
    Some(sum)
}

/// Whether there is a plain sum, and the number is just that.
fn is_plain_sum(n: u32, k: u32, i: u32) -> bool {
    let want = plain_sum(n, k, i);
    want.is_some() && krawtchouk(n, k, i) == want
}

/// At every length each number is its plain sum.
#[test]
fn plain_sums(rt: HostRuntime) {
    for n in 1..MAX_N + 1 {
        for k in 0..n + 1 {
            for i in 0..n + 1 {
                assert!(rt; is_plain_sum(n, k, i), "K_{k}({i}) at {n}");
            }
        }
    }
}

/// The coefficients of (1 - z)^i (1 + z)^(8 - i), multiplied out.
fn generating_row(i: u32) -> [i64; 9] {
    let mut row = [0i64; 9];
    row[0] = 1;
    for factor in 0..8u32 {
        let mut next = row;
        for k in 0..8usize {
            let term = if factor < i {
                0i64.wrapping_sub(row[k])
            } else {
                row[k]
            };
            next[k + 1] = next[k + 1].wrapping_add(term);
        }
        row = next;
    }
    row
}

/// K_k(i) is the coefficient of z^k in (1 - z)^i (1 + z)^(n - i), at n = 8.
#[test]
fn generating_function(rt: HostRuntime) {
    for i in 0..9u32 {
        let row = generating_row(i);
        for (k, want) in row.iter().enumerate() {
            assert!(rt;
                krawtchouk(8, k as u32, i) == Some(*want),
                "K_{k}({i}) at 8"
            );
        }
    }
}

/// The sum over i of C(n,i) K_k(i) K_l(i), where C(n,i) is K_i(0).
fn inner_product(n: u32, k: u32, l: u32) -> Option<i64> {
    if n > MAX_N {
        return None;
    }
    let mut sum = 0i64;
    for i in 0..n + 1 {
        let words = krawtchouk(n, i, 0)?;
        let term = krawtchouk(n, k, i)?.wrapping_mul(krawtchouk(n, l, i)?);
        sum = sum.wrapping_add(words.wrapping_mul(term));
    }
    Some(sum)
}

/// Whether the sum for two rows is 2^n C(n,k), where they are one, and else 0.
fn are_orthogonal(n: u32, k: u32, l: u32) -> bool {
    let Some(words) = krawtchouk(n, k, 0) else {
        return false;
    };
    let want = if k == l {
        words.wrapping_mul(1i64.wrapping_shl(n))
    } else {
        0
    };
    inner_product(n, k, l) == Some(want)
}

/// Rows of Krawtchouk numbers are orthogonal: the sum over i of C(n,i) K_k(i) K_l(i) is 2^n C(n,k) at l = k, else 0.
#[test]
fn orthogonality(rt: HostRuntime) {
    for n in 1..9u32 {
        for k in 0..n + 1 {
            for l in 0..n + 1 {
                assert!(rt; are_orthogonal(n, k, l), "rows {k} and {l} at {n}");
            }
        }
    }
}
