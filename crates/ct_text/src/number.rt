//! Numbers as commands write them.

ghost use Rattle.std.specs.Prelude.{◌≡◌, ◌-◌};
ghost use Rattle.std.specs.List.{list_all};
ghost use Rattle.std.specs.Char.{is_ascii_digit};
ghost use Rattle.ct_text.specs.Number.{number_of, is_numeral};

/// Whether each byte is a decimal digit.
fn are_digits(text: &[u8]) -> bool
    ensures { result ≡ list_all is_ascii_digit text.now }
{
    text.iter().all(|b| b.is_ascii_digit())
}

/// Whether the text is decimal digits without a leading zero.
fn is_number_text(text: &[u8]) -> bool
    ensures { result ≡ is_numeral text.now }
{
    are_digits(text) && (text.len() == 1 || (text.len() > 1 && text[0] != b'0'))
}

/// The value of the digit, 0 for a byte that is none.
fn digit_value(digit: u8) -> u64
    ensures { result ≡ digit - 48 }
{
    u64::from(digit.saturating_sub(b'0'))
}

/// The number that the text writes: decimal digits without sign or leading zero, with a value below 2^64. `None` for
/// every other text.
#[tactic(auto, unfolding(crate::specs::Number::number_of))]
pub fn parse_number(text: &[u8]) -> Option<u64>
    ensures { result ≡ number_of text.now }
{
    if !is_number_text(text) {
        return None;
    }
    let mut value: u64 = 0;
    for b in text {
        let Some(tens) = value.checked_mul(10) else {
            return None;
        };
        let Some(next) = tens.checked_add(digit_value(*b)) else {
            return None;
        };
        value = next;
    }
    Some(value)
}
