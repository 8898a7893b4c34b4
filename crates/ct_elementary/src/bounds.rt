//! The three bounds, for an entry A(n,d) of the table: n from 1 and d from 3, both to `MAX_N`.

ghost use Rattle.std.specs.Prelude.{◌≡◌, ◌+◌, ◌≤◌, IfSome};
ghost use Rattle.ct_words.specs.Code.{IsTrueUpper};
ghost use Rattle.ct_words.specs.Entry.{IsEntry, unrestricted};
ghost use Rattle.ct_elementary.specs.Bounds.{far_value, plotkin_even as even_value, plotkin_value, sphere_packing_value};

use ct_words::{MAX_BOUND, MAX_N, ball};

/// The bound 1 where d is above n, and `None` elsewhere: two words differ at no more than n places (MacWilliams and
/// Sloane, chapter 1). The entry (n,d) is one of the table: n from 1 and d from 3, both to `MAX_N`.
pub fn far(n: u32, d: u32) -> Option<u32>
    requires { IsEntry (unrestricted n d) }
    ensures value { result ≡ far_value n d }
    ensures sound { IfSome result (IsTrueUpper (unrestricted n d)) }
{
    if n < d { Some(1) } else { None }
}

/// Plotkin's bound for an entry (n,d) of the table, n from 1 and d from 3, both to `MAX_N` (Plotkin 1960; MacWilliams
/// and Sloane, chapter 2, section 2).
///
/// For an even d it is 2⌊d/(2d - n)⌋ where d ≤ n < 2d, and 4d where n = 2d; for an odd d it is that of (n + 1, d + 1).
/// `None` elsewhere.
pub fn plotkin(n: u32, d: u32) -> Option<u32>
    requires { IsEntry (unrestricted n d) }
    ensures value { result ≡ plotkin_value n d }
    ensures range { IfSome result (λ v. (1 ≤ v) × (v ≤ MAX_BOUND)) }
    ensures sound { IfSome result (IsTrueUpper (unrestricted n d)) }
{
    if d % 2 == 0 {
        plotkin_even(n, d)
    } else {
        plotkin_even(n + 1, d + 1)
    }
}

/// Plotkin's bound for an even d.
fn plotkin_even(n: u32, d: u32) -> Option<u32>
    requires { (1 ≤ d) × (d ≤ MAX_N + 1) }
    ensures { result ≡ even_value n d }
{
    if d <= n && n < 2 * d {
        Some(2 * (d / (2 * d - n)))
    } else if n == 2 * d {
        Some(4 * d)
    } else {
        None
    }
}

/// Hamming's bound for an entry (n,d) of the table, n from 1 and d from 3, both to `MAX_N`: ⌊2^n / V⌋, where V is the
/// number of words in a ball of radius ⌊(d - 1) / 2⌋. Such balls about the words of a code have no word in common
/// (Hamming 1950; MacWilliams and Sloane, chapter 1, section 5).
pub fn sphere_packing(n: u32, d: u32) -> u32
    requires { IsEntry (unrestricted n d) }
    ensures value { result ≡ sphere_packing_value n d }
    ensures range { (1 ≤ result) × (result ≤ MAX_BOUND) }
    ensures sound { IsTrueUpper (unrestricted n d) result }
{
    let words = 1u64 << n;
    (words / ball(n, (d - 1) / 2)) as u32
}
