//! The bound on doubly constant weight codes, in rounds.

ghost use Rattle.std.specs.Prelude.{◌≡◌, ℕ, suc, ◌+◌, ◌%◌, ◌<◌, ◌≤◌, All};
ghost use Rattle.ct_words.specs.declared.limits.TheConstants.{MAX_N, MAX_BOUND};
ghost use Rattle.ct_words.specs.Doubly.{IsTrueDoublyUpper};
ghost use Rattle.ct_doubly.specs.Doubly.{doubly as bound, shortened_bound as shorter};
ghost use Rattle.ct_doubly.specs.Inside.Tables.{IsBoundAt, IsTable};

use crate::counted::counted_bound;
use crate::parts::{Parts, left_at};

/// How many rounds there are.
const ROUNDS: u32 = 3;

/// How many places a table has: up to three ones and zeros are taken out of each half.
const PLACES: usize = 256;

/// A bound for the words that are left at each place.
type Table = [u32; PLACES];

/// A bound on T(w1,n1,w2,n2,d), the greatest size of a doubly constant weight code: no list of different words of length n1 + n2,
/// from 1 to `MAX_N`, each with w1 ones among its first n1 digits and w2 among its last n2, each two at distance at least d, is
/// longer. The distance d is even, from 4 to `MAX_N`; w1 is at most n1, and w2 at most n2. It takes no memory.
///
/// The bound that asks for no other comes of the number of all words, and of the pairs of words that have a one in common at a
/// place. In each of three rounds it is bettered by what stands for the words with a one, or with a zero, at a place of the first
/// half, or of the last: n1·t/w1, n1·t/(n1 - w1), n2·t/w2 and n2·t/(n2 - w2), rounded down (Johnson 1972; Brouwer, Shearer, Sloane
/// and Smith 1990; Agrell, Vardy and Zeger 2000).
pub fn doubly(n1: u32, w1: u32, n2: u32, w2: u32, d: u32) -> u32
    requires length { (1 ≤ n1 + n2) × (n1 + n2 ≤ MAX_N) }
    requires first { w1 ≤ n1 }
    requires last { w2 ≤ n2 }
    requires distance { (4 ≤ d) × (d ≤ MAX_N) }
    requires even { d % 2 ≡ 0 }
    ensures value { result ≡ bound n1 w1 n2 w2 d }
    ensures range { (1 ≤ result) × (result ≤ MAX_BOUND) }
    ensures sound { IsTrueDoublyUpper n1 w1 n2 w2 d result }
{
    let parts = Parts { n1, w1, n2, w2 };
    let mut table = counted_bounds(parts, d);
    for _round in 0..ROUNDS {
        table = shortened_bounds(&table, parts);
    }
    table[0]
}

/// The bounds that ask for no other.
fn counted_bounds(parts: Parts, d: u32) -> Table
    requires length { parts.n1 + parts.n2 ≤ MAX_N }
    requires first { parts.w1 ≤ parts.n1 }
    requires last { parts.w2 ≤ parts.n2 }
    requires distance { (2 ≤ d) × (d ≤ MAX_N) }
    ensures value { IsTable 0 parts d result }
    ensures low { All (λ v. v ≤ MAX_BOUND) result }
{
    let mut table = [0; PLACES];
    for place in 0..PLACES {
        table[place] = counted_at(parts, d, place);
    }
    table
}

/// The one at a place; 0 where three rounds do not reach it.
fn counted_at(parts: Parts, d: u32, place: usize) -> u32
    requires length { parts.n1 + parts.n2 ≤ MAX_N }
    requires first { parts.w1 ≤ parts.n1 }
    requires last { parts.w2 ≤ parts.n2 }
    requires distance { (2 ≤ d) × (d ≤ MAX_N) }
    requires place { place < 256 }
    ensures value { IsBoundAt 0 parts d place result }
    ensures low { result ≤ MAX_BOUND }
{
    match left_at(parts, place, ROUNDS) {
        Some(left) => counted_bound(left.n1, left.w1, left.n2, left.w2, d),
        None => 0,
    }
}

/// The bounds after one round more.
fn shortened_bounds(table: &Table, parts: Parts) -> Table
    requires length { parts.n1 + parts.n2 ≤ MAX_N }
    requires first { parts.w1 ≤ parts.n1 }
    requires last { parts.w2 ≤ parts.n2 }
    requires low { All (λ v. v ≤ MAX_BOUND) table.now }
    ensures value { (s d : ℕ) → IsTable s parts d table.now → IsTable (suc s) parts d result }
    ensures low { All (λ v. v ≤ MAX_BOUND) result }
{
    let mut next = [0; PLACES];
    for place in 0..PLACES {
        next[place] = shortened_at(table, parts, place);
    }
    next
}

/// The one at a place; what stands there already where no further round reaches a place more.
fn shortened_at(table: &Table, parts: Parts, place: usize) -> u32
    requires length { parts.n1 + parts.n2 ≤ MAX_N }
    requires first { parts.w1 ≤ parts.n1 }
    requires last { parts.w2 ≤ parts.n2 }
    requires low { All (λ v. v ≤ MAX_BOUND) table.now }
    requires place { place < 256 }
    ensures value { (s d : ℕ) → IsTable s parts d table.now → IsBoundAt (suc s) parts d place result }
    ensures low { result ≤ MAX_BOUND }
{
    let bound = table[place];
    let Some(left) = left_at(parts, place, ROUNDS - 1) else {
        return bound;
    };
    let bound = shortened_bound(left.n2, left.n2 - left.w2, table[place + 1], bound);
    let bound = shortened_bound(left.n2, left.w2, table[place + 4], bound);
    let bound = shortened_bound(left.n1, left.n1 - left.w1, table[place + 16], bound);
    shortened_bound(left.n1, left.w1, table[place + 64], bound)
}

/// The lesser of `bound` and ⌊n·v/k⌋, where v bounds the words with one of k digits at a given place; `bound` where k is 0.
fn shortened_bound(n: u32, k: u32, v: u32, bound: u32) -> u32
    requires length { n ≤ MAX_N }
    requires premise { v ≤ MAX_BOUND }
    ensures value { result ≡ shorter n k v bound }
    ensures low { result ≤ bound }
{
    if k < 1 {
        return bound;
    }
    let quotient = u64::from(n) * u64::from(v) / u64::from(k);
    quotient.min(u64::from(bound)) as u32
}
