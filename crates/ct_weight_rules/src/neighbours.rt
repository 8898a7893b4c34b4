//! Entries with weight beside an entry of the table, where a weight that it does not have counts as 0, and those without
//! weight beside it.

ghost use Rattle.std.specs.Prelude.{◌≡◌};
ghost use Rattle.ct_words.specs.Entry.{IsEntry, unrestricted, constant_weight};
ghost use Rattle.ct_rule_parts.specs.Parts.{weight_of};
ghost use Rattle.ct_weight_rules.specs.Neighbours.{complementary, zero_less, zero_more, one_less, one_more, two_nearer, two_farther, of_weight, even_of_weight, around, unweighted, unweighted_and_nearer};

use ct_words::Entry;

/// The weight of the entry, 0 where it has none.
fn weight_of(entry: Entry) -> u32
    ensures { result ≡ weight_of entry }
{
    entry.w.unwrap_or(0)
}

/// The entry A(n,d,w).
fn weighted(n: u32, d: u32, w: u32) -> Entry
    ensures { result ≡ constant_weight n d w }
{
    Entry { n, d, w: Some(w) }
}

/// The entry A(n,d).
fn plain(n: u32, d: u32) -> Entry
    ensures { result ≡ unrestricted n d }
{
    Entry { n, d, w: None }
}

/// A(n,d,n−w).
pub fn complementary(entry: Entry) -> Entry
    ensures { result ≡ complementary entry }
{
    weighted(entry.n, entry.d, entry.n.saturating_sub(weight_of(entry)))
}

/// A(n−1,d,w).
pub fn zero_less(entry: Entry) -> Entry
    requires { IsEntry entry }
    ensures { result ≡ zero_less entry }
{
    weighted(entry.n - 1, entry.d, weight_of(entry))
}

/// A(n+1,d,w).
pub fn zero_more(entry: Entry) -> Entry
    requires { IsEntry entry }
    ensures { result ≡ zero_more entry }
{
    weighted(entry.n + 1, entry.d, weight_of(entry))
}

/// A(n−1,d,w−1), where w−1 counts as 0 if w is 0.
pub fn one_less(entry: Entry) -> Entry
    requires { IsEntry entry }
    ensures { result ≡ one_less entry }
{
    weighted(entry.n - 1, entry.d, weight_of(entry).saturating_sub(1))
}

/// A(n+1,d,w+1).
pub fn one_more(entry: Entry) -> Entry
    requires { IsEntry entry }
    ensures { result ≡ one_more entry }
{
    weighted(entry.n + 1, entry.d, weight_of(entry) + 1)
}

/// A(n,d−2,w).
pub fn two_nearer(entry: Entry) -> Entry
    requires { IsEntry entry }
    ensures { result ≡ two_nearer entry }
{
    weighted(entry.n, entry.d - 2, weight_of(entry))
}

/// A(n,d+2,w).
pub fn two_farther(entry: Entry) -> Entry
    requires { IsEntry entry }
    ensures { result ≡ two_farther entry }
{
    weighted(entry.n, entry.d + 2, weight_of(entry))
}

/// A(n,d,w) for a weight w.
pub fn of_weight(entry: Entry, w: u32) -> Entry
    ensures { result ≡ of_weight entry w }
{
    weighted(entry.n, entry.d, w)
}

/// A(n,2⌈d/2⌉,w) for a weight w.
pub fn even_of_weight(entry: Entry, w: u32) -> Entry
    requires { IsEntry entry }
    ensures { result ≡ even_of_weight entry w }
{
    weighted(entry.n, 2 * entry.d.div_ceil(2), w)
}

/// A(n,d+1,d), of the words at an odd distance d from a word.
pub fn around(entry: Entry) -> Entry
    requires { IsEntry entry }
    ensures { result ≡ around entry }
{
    weighted(entry.n, entry.d + 1, entry.d)
}

/// A(n,d).
pub fn unweighted(entry: Entry) -> Entry
    ensures { result ≡ unweighted entry }
{
    plain(entry.n, entry.d)
}

/// A(n,d−1).
pub fn unweighted_and_nearer(entry: Entry) -> Entry
    requires { IsEntry entry }
    ensures { result ≡ unweighted_and_nearer entry }
{
    plain(entry.n, entry.d - 1)
}
