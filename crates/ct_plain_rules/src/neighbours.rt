//! Entries without weight beside an entry of the table.

ghost use Rattle.std.specs.Prelude.{◌≡◌, None};
ghost use Rattle.ct_words.specs.Entry.{IsEntry};
ghost use Rattle.ct_plain_rules.specs.Neighbours.{shorter, longer, nearer, farther, shorter_and_nearer, longer_and_farther, half_as_long, twice_as_long};

use ct_words::Entry;

/// The entry A(n,d).
fn plain(n: u32, d: u32) -> Entry
    ensures { result ≡ record { n = n; d = d; w = None } }
{
    Entry { n, d, w: None }
}

/// A(n−1,d).
pub fn shorter(entry: Entry) -> Entry
    requires { IsEntry entry }
    ensures { result ≡ shorter entry }
{
    plain(entry.n - 1, entry.d)
}

/// A(n+1,d).
pub fn longer(entry: Entry) -> Entry
    requires { IsEntry entry }
    ensures { result ≡ longer entry }
{
    plain(entry.n + 1, entry.d)
}

/// A(n,d−1).
pub fn nearer(entry: Entry) -> Entry
    requires { IsEntry entry }
    ensures { result ≡ nearer entry }
{
    plain(entry.n, entry.d - 1)
}

/// A(n,d+1).
pub fn farther(entry: Entry) -> Entry
    requires { IsEntry entry }
    ensures { result ≡ farther entry }
{
    plain(entry.n, entry.d + 1)
}

/// A(n−1,d−1).
pub fn shorter_and_nearer(entry: Entry) -> Entry
    requires { IsEntry entry }
    ensures { result ≡ shorter_and_nearer entry }
{
    plain(entry.n - 1, entry.d - 1)
}

/// A(n+1,d+1).
pub fn longer_and_farther(entry: Entry) -> Entry
    requires { IsEntry entry }
    ensures { result ≡ longer_and_farther entry }
{
    plain(entry.n + 1, entry.d + 1)
}

/// A(⌊n/2⌋,d) for a distance d.
pub fn half_as_long(entry: Entry, d: u32) -> Entry
    ensures { result ≡ half_as_long entry d }
{
    plain(entry.n / 2, d)
}

/// A(2n,d) for a distance d.
pub fn twice_as_long(entry: Entry, d: u32) -> Entry
    requires { IsEntry entry }
    ensures { result ≡ twice_as_long entry d }
{
    plain(2 * entry.n, d)
}
