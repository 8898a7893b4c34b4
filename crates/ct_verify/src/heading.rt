//! The first line of a block of evidence.

ghost use Rattle.std.specs.Prelude.{◌≡◌, map};
ghost use Rattle.ct_verify.specs.Heading.{lines_extent, heading_with, heading_of};

use ct_names::Id;
use ct_text::{Extent, parse_number};

/// The first line of a block of evidence.
#[derive(Clone, Copy)]
pub struct Heading {
    /// The id under which the document is submitted.
    pub id: Id,
    /// How far the document goes.
    pub extent: Extent,
}

/// So many lines, where there is at least one.
fn lines(count: Option<u64>) -> Option<Extent>
    ensures { result ≡ lines_extent count }
{
    match count {
        Some(count) if count > 0 => Some(Extent::Lines(count)),
        _ => None,
    }
}

/// The heading of a document under the id that the word is, which goes so far.
fn with_id(word: &[u8], extent: Option<Extent>) -> Option<Heading>
    ensures { result ≡ heading_with word.now extent }
{
    let extent = extent?;
    let id = Id::parse(word)?;
    Some(Heading { id, extent })
}

/// The heading that the words after `evidence` are: an id, and `lines` and a number of at least 1 where it is not a line `end`
/// that ends the document.
pub(crate) fn parse_heading(words: &[&[u8]]) -> Option<Heading>
    ensures { result ≡ heading_of (map (λ word. word.now) words.now) }
{
    match words {
        [id] => with_id(id, Some(Extent::ToEnd)),
        [id, word, count] if *word == b"lines".as_slice() => with_id(
            id,
            lines(parse_number(count)),
        ),
        _ => None,
    }
}
