//! The decimal digits of numbers.

ghost use Rattle.std.specs.Prelude.{◌≡◌, ◌≤◌, drop};
ghost use Rattle.std.specs.Fmt.{decimal};

use std::marker::Model;

/// So many digits have the greatest numbers.
const MOST_DIGITS: usize = 20;

/// Writes the decimal digits of the number at the end of these bytes: where they begin.
fn write_digits(digits: &mut [u8; MOST_DIGITS], number: u64) -> usize
    ensures within { result ≤ MOST_DIGITS }
    ensures digits { drop result digits.new ≡ decimal number }
{
    let mut at = MOST_DIGITS - 1;
    let mut rest = number;
    while rest >= 10 {
        digits[at] = b'0' + (rest % 10) as u8;
        rest /= 10;
        at -= 1;
    }
    digits[at] = b'0' + rest as u8;
    at
}

/// The decimal digits of a number, which take no memory. Contracts see their bytes.
#[derive(Drop)]
pub struct Digits {
    bytes: [u8; MOST_DIGITS],
    // Where the first digit stands.
    start: usize,
}

impl Model for Digits {
    ghost use Rattle.std.specs.Prelude.{ℕ, List, ◌≤◌, drop};

    ghost Value = { List ℕ };

    ghost view = { λ d. drop d.start d.bytes };

    ghost invariant = { λ d. d.start ≤ 20 };
}

impl Digits {
    /// The digits of the number.
    pub fn of(number: u64) -> Digits
        ensures { result ≡ decimal number }
    {
        let mut bytes = [0; MOST_DIGITS];
        let start = write_digits(&mut bytes, number);
        Digits { bytes, start }
    }

    /// The digits, as bytes.
    pub fn as_bytes(&self) -> &[u8]
        ensures { result.now ≡ self.now }
    {
        &self.bytes[self.start..]
    }
}
