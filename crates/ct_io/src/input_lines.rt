//! The lines of an input that is held as a whole.

ghost use Rattle.std.specs.Prelude.{◌<◌, length};
ghost use Rattle.ct_io.specs.Lines.{IsNextLine};

use ct_text::LINE_FEED;

/// The first line of an input that is not empty, without its line feed, and what follows it.
pub fn next_line(input: &[u8]) -> (&[u8], &[u8])
    requires { 0 < length input.now }
    ensures line { IsNextLine input.now result.0.now result.1.now }
    ensures less { length result.1.now < length input.now }
{
    match input.iter().position(|byte| *byte == LINE_FEED) {
        Some(end) => (&input[..end], &input[end + 1..]),
        None => (input, &input[input.len()..]),
    }
}
