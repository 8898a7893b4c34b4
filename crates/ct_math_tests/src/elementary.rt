//! The bounds and counts at values from tables and by hand.

use ct_elementary::{far, plotkin, sphere_packing};
use ct_words::{Entry, ball, binomial, factorial};

/// Two numbers, and what is counted for them.
type Counted = (u32, u32, u64);

/// Values of Pascal's triangle.
const BINOMIALS: [Counted; 9] = [
    (0, 0, 1),
    (30, 0, 1),
    (30, 30, 1),
    (30, 31, 0),
    (5, 4294967295, 0),
    (4, 2, 6),
    (24, 8, 735471),
    (28, 14, 40116600),
    (30, 15, 155117520),
];

fn is_binomial((n, k, want): Counted) -> bool {
    n <= 30 && binomial(n, k) == want
}

const FACTORIALS: [(u32, u64); 4] = [(0, 1), (1, 1), (5, 120), (20, 2432902008176640000)];

fn is_factorial((k, want): (u32, u64)) -> bool {
    k <= 20 && factorial(k) == want
}

/// Balls: that of the binary Golay code has 2^11 words.
const BALLS: [Counted; 6] = [
    (0, 0, 1),
    (7, 1, 8),
    (23, 3, 2048),
    (24, 3, 2325),
    (30, 30, 1073741824),
    (30, 4294967295, 1073741824),
];

fn is_ball((n, e, want): Counted) -> bool {
    n <= 30 && ball(n, e) == want
}

#[test]
fn counts(rt: HostRuntime) {
    for row in &BINOMIALS {
        assert!(rt; is_binomial(*row), "{row:?}");
    }
    for row in &FACTORIALS {
        assert!(rt; is_factorial(*row), "{row:?}");
    }
    for row in &BALLS {
        assert!(rt; is_ball(*row), "{row:?}");
    }
}

/// A length, a distance, and the bound there, if there is one.
type Bound = (u32, u32, Option<u32>);

/// One word where the distance is above the length; at (30,30) there are two, all zeros and all ones.
const FAR: [Bound; 5] = [
    (1, 30, Some(1)),
    (2, 3, Some(1)),
    (29, 30, Some(1)),
    (30, 30, None),
    (3, 3, None),
];

fn is_far((n, d, want): Bound) -> bool {
    Entry { n, d, w: None }.in_table() && far(n, d) == want
}

/// Plotkin's bounds, from the table of A(n,d) of Brouwer, and by hand.
const PLOTKIN: [Bound; 16] = [
    (8, 6, Some(2)),
    (10, 6, Some(6)),
    (11, 6, Some(12)),
    (12, 6, Some(24)),
    (16, 8, Some(32)),
    (30, 30, Some(2)),
    (9, 5, Some(6)),
    (11, 5, Some(24)),
    (15, 7, Some(32)),
    (3, 3, Some(2)),
    (4, 3, Some(2)),
    (6, 5, Some(2)),
    (5, 6, None),
    (13, 6, None),
    (4, 5, None),
    (12, 5, None),
];

fn is_plotkin((n, d, want): Bound) -> bool {
    Entry { n, d, w: None }.in_table() && plotkin(n, d) == want
}

/// Hamming's bounds, from the same table and by hand.
const SPHERE_PACKING: [(u32, u32, u32); 9] = [
    (7, 3, 16),
    (15, 3, 2048),
    (23, 7, 4096),
    (24, 8, 7216),
    (28, 3, 9256395),
    (30, 3, 34636833),
    (30, 30, 2),
    (1, 3, 1),
    (5, 30, 1),
];

fn is_sphere_packing((n, d, want): (u32, u32, u32)) -> bool {
    Entry { n, d, w: None }.in_table() && sphere_packing(n, d) == want
}

#[test]
fn bounds(rt: HostRuntime) {
    for row in &FAR {
        assert!(rt; is_far(*row), "{row:?}");
    }
    for row in &PLOTKIN {
        assert!(rt; is_plotkin(*row), "{row:?}");
    }
    for row in &SPHERE_PACKING {
        assert!(rt; is_sphere_packing(*row), "{row:?}");
    }
}
