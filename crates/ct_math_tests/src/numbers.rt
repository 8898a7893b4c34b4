//! The numbers of a scheme.

use ct_words::{Scheme, scheme_laws};

/// The number of the scheme at k and i, where both are up to its degree.
pub fn number_of<S: Scheme>(scheme: &S, k: u32, i: u32) -> Option<i64> {
    scheme_laws(scheme);
    if k > scheme.degree() || i > scheme.degree() {
        return None;
    }
    i64::try_from(scheme.number(k, i)).ok()
}

/// The sum with (-1)^j · `count` added to it.
pub fn add_signed(sum: i64, j: u32, count: u64) -> Option<i64> {
    let term = i64::try_from(count).ok()?;
    if j % 2 == 0 {
        Some(sum.wrapping_add(term))
    } else {
        Some(sum.wrapping_sub(term))
    }
}
