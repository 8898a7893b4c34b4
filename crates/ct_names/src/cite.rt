//! Where evidence comes from, as documents say it.
ghost use Rattle.std.specs.Prelude.{◌≡◌, ◌&&◌, nat_le, IfOk, IsTrue};
ghost use Rattle.std.specs.List.{list_all};
ghost use Rattle.ct_names.specs.Cite.{is_cite_byte, is_cite, cite_of};

use std::alloc::{AllocError, Global};
use std::marker::Model;

/// The greatest number of bytes of a cite.
pub const MAX_CITE: usize = 200;

/// A text that says where evidence comes from: 1 to `MAX_CITE` bytes, each of them a space or another printable character
/// of ASCII, 32 to 126. Contracts see it as the list of its bytes.
pub struct Cite {
    bytes: Vec<u8>,
}

impl Drop for Cite {
    fn drop(self) {
        let Cite { bytes: _ } = self;
    }
}

impl Model for Cite {
    ghost use Rattle.std.specs.Prelude.{List, ℕ, IsTrue};
    ghost use Rattle.ct_names.specs.Cite.{is_cite};

    ghost Value = { List ℕ };

    ghost view = { λ c. c.bytes.items };

    ghost invariant = { λ c. IsTrue (is_cite c.bytes.items) };
}

fn may_stand(byte: u8) -> bool
    ensures { result ≡ is_cite_byte byte }
{
    byte >= b' ' && byte <= b'~'
}

fn all_may_stand(text: &[u8]) -> bool
    ensures { result ≡ list_all is_cite_byte text.now }
{
    text.iter().all(|byte| may_stand(*byte))
}

/// Whether the bytes are a cite. It takes no memory.
pub fn is_cite(text: &[u8]) -> bool
    ensures { result ≡ is_cite text.now }
{
    if text.is_empty() || text.len() > MAX_CITE {
        return false;
    }
    all_may_stand(text)
}

impl Cite {
    /// The cite that the bytes are, where they are one. `Err` is want of memory.
    pub fn parse(alloc: Global, text: &[u8]) -> Result<Option<Cite>, AllocError>
        ensures { IfOk result (λ cite. cite ≡ cite_of text.now) }
    {
        if !is_cite(text) {
            return Ok(None);
        }
        let bytes = Vec::from_slice(alloc, text)?;
        Ok(Some(Cite { bytes }))
    }

    /// The bytes of the cite. It takes no memory.
    pub fn text(&self) -> &[u8]
        ensures text { result.now ≡ self.now }
        ensures cite { IsTrue (is_cite self.now) }
    {
        &self.bytes
    }
}
