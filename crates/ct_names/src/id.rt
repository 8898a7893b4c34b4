//! The names of pieces of evidence.
ghost use Rattle.std.specs.Prelude.{◌≡◌, ◌↔◌, IsTrue, IsSome, IfSome};
ghost use Rattle.std.specs.List.{list_all};
ghost use Rattle.std.specs.Str.{bytes_eq};
ghost use Rattle.ct_names.specs.Id.{is_id, is_id_byte};

use std::marker::Model;

/// The greatest number of bytes of an id.
pub const MAX_ID: usize = 32;

/// The name of a piece: 1 to 32 bytes, a lower-case letter first, then lower-case letters, digits,
/// `-` or `_`. Contracts see it as the list of its bytes.
#[derive(Clone, Copy)]
pub struct Id {
    // The text, and zeros after it.
    bytes: [u8; MAX_ID],
    len: usize,
}

impl Model for Id {
    ghost use Rattle.std.specs.Prelude.{List, ℕ};

    ghost Value = { List ℕ };

    ghost use Rattle.ct_names.specs.Inside.IdBytes.{text_of, kept_of, kept_again, IsKept};

    ghost view = { text_of };

    ghost invariant = { IsKept };

    ghost inverse = { kept_of };

    ghost inverse_ok = { kept_again };
}

fn may_stand(byte: u8) -> bool
    ensures { result ≡ is_id_byte byte }
{
    byte.is_ascii_lowercase() || byte.is_ascii_digit() || byte == b'-' || byte == b'_'
}

fn all_may_stand(text: &[u8]) -> bool
    ensures { result ≡ list_all is_id_byte text.now }
{
    text.iter().all(|byte| may_stand(*byte))
}

fn is_name(text: &[u8]) -> bool
    ensures { result ≡ is_id text.now }
{
    let [first, rest @ ..] = text else {
        return false;
    };
    if text.len() > MAX_ID || !first.is_ascii_lowercase() {
        return false;
    }
    all_may_stand(rest)
}

impl Id {
    /// The id that the bytes are, where they are one.
    pub fn parse(text: &[u8]) -> Option<Id>
        ensures exactly { IsSome result ↔ IsTrue (is_id text.now) }
        ensures text { IfSome result (λ id. id ≡ text.now) }
    {
        if !is_name(text) {
            return None;
        }
        let mut bytes = [0; MAX_ID];
        bytes[..text.len()].copy_from_slice(text);
        Some(Id {
            bytes,
            len: text.len(),
        })
    }

    /// The bytes of the id.
    pub fn text(&self) -> &[u8]
        ensures text { result.now ≡ self.now }
        ensures id { IsTrue (is_id self.now) }
    {
        &self.bytes[..self.len]
    }
}

impl PartialEq for Id {
    ghost use Rattle.std.specs.Cmp.{partial_equiv_from_equiv};
    ghost use Rattle.std.specs.Cmp.Lexicographic.{nat_list_eq_equiv};

    ghost eq = { bytes_eq };

    ghost laws = { partial_equiv_from_equiv nat_list_eq_equiv };

    fn eq(&self, other: &Id) -> bool
        ensures value { result ≡ bytes_eq self.now other.now }
        ensures exactly { IsTrue result ↔ (self.now ≡ other.now) }
    {
        self.text() == other.text()
    }
}

impl Eq for Id {
    ghost use Rattle.std.specs.Cmp.Lexicographic.{nat_list_eq_equiv};

    ghost laws = { nat_list_eq_equiv };
}
