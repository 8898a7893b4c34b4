//! What ends a line, and how many lines a document has.

ghost use Rattle.std.specs.Prelude.{◌≡◌};
ghost use Rattle.ct_text.specs.DocumentLines.{line_count};

/// The byte that ends a line.
pub const LINE_FEED: u8 = b'\n';

/// How many lines a document has: one more than its line feeds.
pub fn line_count(document: &[u8]) -> u64
    ensures { result ≡ line_count document.now }
{
    document.iter().filter(|byte| **byte == LINE_FEED).count() as u64 + 1
}
