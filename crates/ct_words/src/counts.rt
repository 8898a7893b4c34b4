//! How many words there are: binomial coefficients, factorials and the size of a ball.

ghost use Rattle.std.specs.Prelude.{◌≡◌, ◌≤◌};
ghost use Rattle.ct_words.specs.declared.limits.TheConstants.{MAX_N};
ghost use Rattle.ct_words.specs.Counting.Binomials.{choose, factorial as factorial_of, volume};

use crate::triangle::{BALLS, BINOMIALS};

/// The binomial coefficient of n over k for n up to `MAX_N`, which is 0 where k is above n: how many words of length n have
/// weight k (MacWilliams and Sloane, chapter 1, section 5).
pub fn binomial(n: u32, k: u32) -> u64
    requires { n ≤ MAX_N }
    ensures { result ≡ choose n k }
{
    if n < k {
        return 0;
    }
    u64::from(BINOMIALS[n as usize][k as usize])
}

/// The factorial of k, the product of 1 to k, for k up to 20.
pub fn factorial(k: u32) -> u64
    requires { k ≤ 20 }
    ensures { result ≡ factorial_of k }
{
    let mut product: u64 = 1;
    for j in 0..k {
        product *= u64::from(j + 1);
    }
    product
}

/// How many words of length n, up to `MAX_N`, lie within distance e of one of them; e may be above n. It is the sum of the
/// binomial coefficients of n over 0 to e (MacWilliams and Sloane, chapter 1, section 5).
pub fn ball(n: u32, e: u32) -> u64
    requires { n ≤ MAX_N }
    ensures { result ≡ volume n e }
{
    u64::from(BALLS[n as usize][e.min(n) as usize])
}
