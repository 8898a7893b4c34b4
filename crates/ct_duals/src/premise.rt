//! The entries whose upper bounds a dual rests on.
ghost use Rattle.std.specs.Prelude.{◌≡◌, ◌≤◌, ◌*◌, ◌↔◌, true, pos, All, IsTrue, Contains, map, length, slice_get, option_map};
ghost use Rattle.ct_words.specs.declared.limits.TheConstants.{MAX_N};
ghost use Rattle.ct_words.specs.Entry.{IsEntry, constant_weight};
ghost use Rattle.ct_words.specs.Constructions.Even.{even_from};
ghost use Rattle.ct_duals.specs.Dual.{as_distance};
ghost use Rattle.ct_duals.specs.Bound.{positive};

use ct_words::Entry;

/// The distance of two words that have the index: with a weight twice the index.
pub(crate) fn distance_at(weight: Option<u32>, i: u32) -> u64
    ensures value { result ≡ as_distance weight i }
    ensures small { result ≤ 2 * i }
{
    match weight {
        None => u64::from(i),
        Some(_) => 2 * u64::from(i),
    }
}

/// A(n,2⌈d/2⌉,t) for the distance t of the index: the words at distance t from a word of a code of the entry, that word added, are such
/// a code.
pub(crate) fn premise_at(entry: Entry, i: u32) -> Entry
    requires distance { entry.d ≤ MAX_N }
    requires index { i ≤ MAX_N }
    ensures { result ≡ constant_weight entry.n (even_from entry.d) (as_distance entry.w i) }
{
    Entry {
        n: entry.n,
        d: entry.d + entry.d % 2,
        w: Some(distance_at(entry.w, i) as u32),
    }
}

/// The index at a place among those where more than 0 is allowed.
pub(crate) fn positive_index(y: &[(u32, i64)], place: usize) -> Option<u32>
    ensures { result ≡ option_map (λ p. p.0) (slice_get (positive y.now) place) }
{
    let mut left = place;
    for (i, number) in y {
        if *number > 0 {
            if left == 0 {
                return Some(*i);
            }
            left -= 1;
        }
    }
    None
}

/// Whether other is A(n,2⌈d/2⌉,t) for the distance t of an index where more than 0 is allowed.
pub(crate) fn is_premise(entry: Entry, y: &[(u32, i64)], other: Entry) -> bool
    requires distance { entry.d ≤ MAX_N }
    requires indices { All (λ p. p.0 ≤ MAX_N) y.now }
    ensures { IsTrue result ↔
        Contains (map (λ p. constant_weight entry.n (even_from entry.d) (as_distance entry.w p.0)) (positive y.now)) other }
{
    for (i, number) in y {
        if *number > 0 && premise_at(entry, *i) == other {
            return true;
        }
    }
    false
}
