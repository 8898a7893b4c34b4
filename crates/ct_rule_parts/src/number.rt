//! Numbers that rules make of bounds.

ghost use Rattle.std.specs.Prelude.{◌≡◌, ◌<◌, ◌≤◌, ◌^◌, Some, IfSome};
ghost use Rattle.ct_rule_parts.specs.Parts.{first, second, within_limit};

use ct_words::{MAX_BOUND, Side};

/// The first of the values, 0 where there is none.
pub fn first(values: &[u32]) -> u64
    ensures value { result ≡ first values.now }
    ensures small { result < 2 ^ 32 }
{
    match values.first() {
        Some(value) => u64::from(*value),
        None => 0,
    }
}

/// The second of the values, 0 where there is none.
pub fn second(values: &[u32]) -> u64
    ensures value { result ≡ second values.now }
    ensures small { result < 2 ^ 32 }
{
    match values.get(1) {
        Some(value) => u64::from(*value),
        None => 0,
    }
}

/// The number as a bound of the side: a lower one above `MAX_BOUND` is none, an upper one is taken as `MAX_BOUND`.
pub fn within_limit(side: Side, number: u64) -> Option<u32>
    ensures value { result ≡ within_limit side (Some number) }
    ensures limit { IfSome result (λ v. v ≤ MAX_BOUND) }
{
    if number <= u64::from(MAX_BOUND) {
        return Some(number as u32);
    }
    match side {
        Side::Lower => None,
        Side::Upper => Some(MAX_BOUND),
    }
}
