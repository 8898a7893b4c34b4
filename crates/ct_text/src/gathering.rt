//! The text of a document whose lines follow a heading.

ghost use Rattle.std.specs.Prelude.{◌≡◌, [], IfOk};
ghost use Rattle.ct_text.specs.Gathering.{is_end, gathered};

use crate::text::Text;
use std::alloc::{AllocError, Global};

/// How far a document goes.
#[derive(Clone, Copy)]
pub enum Extent {
    /// To a line `end`, which is not part of it.
    ToEnd,
    /// For the given number of lines, at least 1.
    Lines(u64),
}

/// A document whose lines come in: how far it still goes, and its lines so far, each with its line feed.
#[derive(Drop)]
pub struct Gathering {
    /// How far it still goes.
    pub extent: Extent,
    /// The lines so far.
    pub text: Text,
}

/// A document after one more line.
#[derive(Drop)]
pub enum Gathered {
    /// It goes on.
    More(Gathering),
    /// It is whole: its lines, joined by one line feed between two.
    Whole(Text),
}

/// Whether the line ends a document that goes to a line `end`: `end`, or `end` and one carriage return.
fn is_end_line(line: &[u8]) -> bool
    ensures { result ≡ is_end line.now }
{
    line == b"end".as_slice() || line == b"end\r".as_slice()
}

impl Gathering {
    /// A document before its first line. It takes no memory.
    pub fn new(alloc: Global, extent: Extent) -> Gathering
        ensures { result ≡ record { extent = extent; text = [] } }
    {
        Gathering {
            extent,
            text: Text::new(alloc),
        }
    }

    /// Takes the next line. `Err` is want of memory.
    pub fn take_line(mut self, line: &[u8]) -> Result<Gathered, AllocError>
        ensures { IfOk result (λ after. after ≡ gathered self line.now) }
    {
        match self.extent {
            Extent::ToEnd => {
                if is_end_line(line) {
                    self.text.pop();
                    return Ok(Gathered::Whole(self.text));
                }
                self.text.push_line(line)?;
                Ok(Gathered::More(self))
            }
            Extent::Lines(count) => {
                self.text.push_line(line)?;
                if count > 1 {
                    self.extent = Extent::Lines(count - 1);
                    return Ok(Gathered::More(self));
                }
                self.text.pop();
                Ok(Gathered::Whole(self.text))
            }
        }
    }
}
