//! Products of multipliers with the numbers of a scheme, and their sums.

ghost use Rattle.std.specs.Prelude.{◌≡◌, ◌≤◌, ◌+◌, ◌+ℤ◌, ◌*ℤ◌, ◌^◌, ◌<◌, unsigned_abs};
ghost use Rattle.ct_words.specs.Scheme.{IsSmall};

/// The sum with the product of a multiplier and a number of a scheme added to it. It takes no memory, and both fit: a sum of up to 64
/// such products is below 2^116.
pub fn add_product(sum: i128, multiplier: i64, number: i128) -> i128
    requires sum { unsigned_abs sum < 2 ^ 116 }
    requires number { IsSmall number }
    ensures value { result ≡ sum +ℤ (multiplier *ℤ number) }
    ensures small { unsigned_abs result ≤ unsigned_abs sum + 2 ^ 110 }
{
    sum + product(multiplier, number)
}

/// The product of a multiplier and a number of a scheme.
fn product(multiplier: i64, number: i128) -> i128
    requires { IsSmall number }
    ensures value { result ≡ multiplier *ℤ number }
    ensures small { unsigned_abs result ≤ 2 ^ 110 }
{
    i128::from(multiplier) * number
}
