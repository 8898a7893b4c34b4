//! What evidence comes to, whatever its kind.

ghost use Rattle.std.specs.Prelude.{◌≡◌};
ghost use Rattle.ct_kind.specs.KindParts.{support_from};

use ct_rule_parts::Support;
use ct_words::Entry;

/// What evidence comes to, whatever its kind.
#[derive(Drop)]
pub struct Kind {
    /// The word of its kind in a ledger's line.
    pub text: &'static [u8],
    /// The entry that it is about.
    pub entry: Entry,
    /// Whether the words of its code are stored besides.
    pub is_stored: bool,
    /// Whether its kind has a code.
    pub has_code: bool,
}

/// The size of a code at an entry, where there is one, else nothing.
pub fn support_from(entry: Entry, size: Option<u32>) -> Support
    ensures { result ≡ support_from entry size }
{
    match size {
        Some(size) => Support::Size { entry, size },
        None => Support::Nothing,
    }
}
