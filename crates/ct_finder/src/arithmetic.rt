//! Products and greatest common divisors of entries.
ghost use Rattle.std.specs.Prelude.{◌≡◌, ◌<◌, ◌≤◌, ◌^◌, ◌*◌, ◌-◌, ◌%◌, pos, ◌*ℤ◌, ◌-ℤ◌, ◌≤ℤ◌, unsigned_abs, int_div};
ghost use Rattle.ct_finder.specs.Divisor.{gcd as gcd_of_both};
ghost use Rattle.ct_finder.specs.Pivot.{is_wide};

/// The product of two entries.
pub(crate) fn product(x: i64, y: i64) -> i128
    ensures value { result ≡ x *ℤ y }
    ensures size { unsigned_abs result ≡ unsigned_abs x * unsigned_abs y }
    ensures small { unsigned_abs result ≤ 2 ^ 126 }
    ensures less { pos 1 ≤ℤ x → unsigned_abs result ≤ 2 ^ 126 - 2 ^ 63 }
{
    i128::from(x) * i128::from(y)
}

/// p · x - r · y, where p is positive. It fits: the first product is at most (2^63 - 1) · 2^63 and the second 2^126, in
/// absolute value.
fn difference(p: i64, x: i64, r: i64, y: i64) -> i128
    requires positive { pos 1 ≤ℤ p }
    ensures value { result ≡ (p *ℤ x) -ℤ (r *ℤ y) }
    ensures small { unsigned_abs result < 2 ^ 127 }
{
    product(p, x) - product(r, y)
}

/// p · x - r · y, where p is positive; without a product where x and y are 0, as they are in the basic columns of all other
/// rows, which are half of the columns.
pub(crate) fn cross(p: i64, x: i64, r: i64, y: i64) -> i128
    requires positive { pos 1 ≤ℤ p }
    ensures value { result ≡ (p *ℤ x) -ℤ (r *ℤ y) }
    ensures small { unsigned_abs result < 2 ^ 127 }
{
    if x == 0 && y == 0 {
        return 0;
    }
    difference(p, x, r, y)
}

/// The greatest common divisor, by Euclid's algorithm; without a division where a is 0, as most entries are.
pub fn gcd(a: u128, b: u128) -> u128
    ensures value { result ≡ gcd_of_both a b }
    ensures small { a < 2 ^ 127 → b < 2 ^ 127 → result < 2 ^ 127 }
{
    if a == 0 {
        return b;
    }
    let mut divisor = a;
    let mut rest = b;
    while rest != 0 {
        let next = remainder(divisor, rest);
        divisor = rest;
        rest = next;
    }
    divisor
}

/// The remainder of a division. Numbers below 2^64 are divided as such, which is several times as fast.
fn remainder(a: u128, b: u128) -> u128
    requires { 1 ≤ b }
    ensures { result ≡ a % b }
{
    if a > u64::MAX as u128 || b > u64::MAX as u128 {
        return a % b;
    }
    u128::from(a as u64 % b as u64)
}

/// The quotient of an entry by a positive divisor. Numbers that are not wide are divided as such.
pub(crate) fn quotient(z: i128, divisor: i128) -> i128
    requires { pos 1 ≤ℤ divisor }
    ensures { result ≡ int_div z divisor }
{
    if z == 0 || divisor == 1 {
        return z;
    }
    if is_wide(z) || is_wide(divisor) {
        return z / divisor;
    }
    i128::from(z as i64 / divisor as i64)
}

/// Whether an entry would be above 2^63 - 1 in absolute value.
pub(crate) fn is_wide(z: i128) -> bool
    ensures { result ≡ is_wide z }
{
    z.unsigned_abs() > i64::MAX as u128
}
