//! The Krawtchouk numbers, each from the two before it.

ghost use Rattle.std.specs.Prelude.{◌≡◌, suc, ◌<◌, ◌≤◌, ◌*◌, ◌^◌, ℤ, pos, ◌*ℤ◌, unsigned_abs};
ghost use Rattle.ct_words.specs.declared.limits.TheConstants.{MAX_N};
ghost use Rattle.ct_words.specs.Numbers.{krawtchouk};
ghost use Rattle.ct_krawtchouk.specs.Krawtchouk.{krawtchouk_before};

/// The Krawtchouk number K_k(i) at length n, for k and i up to n.
pub(crate) fn krawtchouk_number(n: u32, k: u32, i: u32) -> i128
    requires length { n ≤ MAX_N }
    requires row { k ≤ n }
    requires index { i ≤ n }
    ensures { result ≡ krawtchouk n k i }
{
    let mut before: i64 = 0;
    let mut number: i64 = 1;
    for j in 0..k {
        let next = next_number(n, j, i, number, before);
        before = number;
        number = next;
    }
    i128::from(number)
}

/// The number K_(k+1)(i) from `number`, which is K_k(i), and `before`, which is K_(k-1)(i), or 0 at k = 0. It is the
/// quotient of (n - 2i) K_k(i) - (n - k + 1) K_(k-1)(i) by k + 1, which is exact (MacWilliams and Sloane, chapter 5,
/// section 7).
fn next_number(n: u32, k: u32, i: u32, number: i64, before: i64) -> i64
    requires length { n ≤ MAX_N }
    requires row { k < n }
    requires index { i ≤ n }
    requires number { number ≡ krawtchouk n k i }
    requires before { before ≡ krawtchouk_before n k i }
    ensures { result ≡ krawtchouk n (suc k) i }
{
    let slope = i64::from(n - i) - i64::from(i);
    let whole = product(slope, number) - product(i64::from(n + 1 - k), before);
    exact_quotient(whole, k + 1)
}

/// The product of a factor of the recurrence and a Krawtchouk number.
fn product(factor: i64, number: i64) -> i64
    requires factor { unsigned_abs factor ≤ suc MAX_N }
    requires number { unsigned_abs number ≤ 2 ^ MAX_N }
    ensures value { result ≡ factor *ℤ number }
    ensures small { unsigned_abs result ≤ suc MAX_N * 2 ^ MAX_N }
{
    factor * number
}

/// The number that, times `divisor`, is `whole`, where there is one.
fn exact_quotient(whole: i64, divisor: u32) -> i64
    requires { 1 ≤ divisor }
    ensures { (number : ℤ) → pos divisor *ℤ number ≡ whole → result ≡ number }
{
    whole / i64::from(divisor)
}
