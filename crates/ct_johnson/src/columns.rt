//! Bounds on A(n,d,w) from the pairs of words that both have a one at a place.

ghost use Rattle.std.specs.Prelude.{◌≡◌, ℕ, false, ◌-◌, ◌/◌, ◌<◌, ◌≤◌, IfSome, MatchOption};
ghost use Rattle.ct_words.specs.Code.{IsTrueUpper};
ghost use Rattle.ct_words.specs.Entry.{IsEntry, constant_weight};
ghost use Rattle.ct_johnson.specs.Bounds.{are_too_many as too_many, column_count_value, IsLeastTooMany, NoneTooMany};
ghost use Rattle.ct_words.specs.declared.limits.TheConstants.{MAX_N};

/// The greatest number of words that is counted, 1,000. It suffices, with little room: the greatest least number of words that is too
/// many is 937 for the doubly constant bound, at (13,5,12,5,12), and 211 for Johnson's, at (30,14,11) and its complement.
pub const MAX_COUNTED: u32 = 1000;

/// The least number of words, from 2 to `MAX_COUNTED`, that is too many for the entry (n,d,w) of the table; so A(n,d,w)
/// is below it. `None` where w is below d/2, or no such number is too many.
///
/// With wM = nq + r, 0 ≤ r < n, at least nq(q - 1) + 2qr ordered pairs of M words of weight w both hold a one at one
/// place, each place counted, and two words of distance d have at most w - d/2 ones in common: M words are too many
/// where nq(q - 1) + 2qr is above (w - d/2)·M(M - 1) (Johnson 1962; MacWilliams and Sloane, chapter 17, section 2).
///
/// Where w² ≤ (w - d/2)·n, only M up to n/(2d) are tried. Else each M above (d/2)·n/(w² - (w - d/2)·n) is too many, and
/// the first that is ends the search.
pub fn column_count(n: u32, d: u32, w: u32) -> Option<u32>
    requires { IsEntry (constant_weight n d w) }
    ensures value { result ≡ column_count_value n d w }
    ensures least { MatchOption result (NoneTooMany n (d / 2) w) (IsLeastTooMany n (d / 2) w) }
    ensures sound { IfSome result (λ m. IsTrueUpper (constant_weight n d w) (m - 1)) }
{
    let half = d / 2;
    if w < half {
        return None;
    }
    for words in 2..last_to_try(n, half, w) + 1 {
        if are_too_many(n, half, w, words) {
            return Some(words);
        }
    }
    None
}

/// A number above which no other, up to `MAX_COUNTED`, is too many words of length n, weight w and distance 2·half.
///
/// With t = wM = nq + r, n times nq(q - 1) + 2qr is t² - nt + r(n - r), and r(n - r) ≤ n²/4: where w² ≤ (w - half)·n
/// and 4·half·M ≥ n, it is at most n times (w - half)·M(M - 1).
fn last_to_try(n: u32, half: u32, w: u32) -> u32
    requires length { (1 ≤ n) × (n ≤ MAX_N) }
    requires weight { (1 ≤ half) × (half ≤ w) × (w ≤ n) }
    ensures counted { result ≤ MAX_COUNTED }
    ensures rest { (m : ℕ) → result < m → m ≤ MAX_COUNTED → too_many n half w m ≡ false }
{
    if w * w <= (w - half) * n {
        n / (4 * half)
    } else {
        MAX_COUNTED
    }
}

/// Whether so many words of length n, weight w and distance 2·half are too many.
fn are_too_many(n: u32, half: u32, w: u32, words: u32) -> bool
    requires length { (1 ≤ n) × (n ≤ MAX_N) }
    requires weight { (half ≤ w) × (w ≤ n) }
    requires counted { (1 ≤ words) × (words ≤ MAX_COUNTED) }
    ensures { result ≡ too_many n half w words }
{
    let ones = w * words;
    let (each, over) = (ones / n, ones % n);
    let pairs = n * (each * each.saturating_sub(1)) + 2 * (each * over);
    (w - half) * (words * (words - 1)) < pairs
}
