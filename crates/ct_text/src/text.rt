//! Text as its lines come in.

ghost use Rattle.std.specs.Prelude.{◌≡◌, ◌-◌, [], ◌∷◌, ◌++◌, OnOk, OnErr, IfOk, length, take};

use crate::document_lines::LINE_FEED;
use std::alloc::{AllocError, Global};
use std::marker::Model;

/// The bytes of a text, or of its lines so far. Contracts see it as the list of its bytes.
pub struct Text {
    bytes: Vec<u8>,
}

impl Drop for Text {
    fn drop(self) {
        let Text { bytes: _ } = self;
    }
}

impl Model for Text {
    ghost use Rattle.std.specs.Prelude.{List, ℕ};

    ghost Value = { List ℕ };

    ghost view = { λ t. t.bytes.items };
}

impl Text {
    /// A text without bytes. It takes no memory.
    pub fn new(alloc: Global) -> Text
        ensures { result ≡ [] }
    {
        Text {
            bytes: Vec::new(alloc),
        }
    }

    /// The text of these bytes.
    pub fn from_vec(bytes: Vec<u8>) -> Text
        ensures { result ≡ bytes.items }
    {
        Text { bytes }
    }

    /// A copy of the bytes. `Err` is want of memory.
    pub fn copied(alloc: Global, bytes: &[u8]) -> Result<Text, AllocError>
        ensures { IfOk result (λ text. text ≡ bytes.now) }
    {
        Ok(Text {
            bytes: Vec::from_slice(alloc, bytes)?,
        })
    }

    /// Puts a line and a line feed at the end. After an `Err`, which is want of memory, the text is as before.
    pub fn push_line(&mut self, line: &[u8]) -> Result<(), AllocError>
        ensures ok { OnOk result (self.new ≡ self.old ++ line.now ++ LINE_FEED ∷ []) }
        ensures err { OnErr result (self.new ≡ self.old) }
    {
        self.bytes.reserve(line.len() + 1)?;
        self.bytes.extend_from_slice(line).unwrap();
        self.bytes.push(LINE_FEED).unwrap();
        Ok(())
    }

    /// Takes the last byte off, if there is one.
    pub fn pop(&mut self)
        ensures { self.new ≡ take (length self.old - 1) self.old }
    {
        let _ = self.bytes.pop();
    }

    /// The bytes.
    pub fn bytes(&self) -> &[u8]
        ensures { result.now ≡ self.now }
    {
        &self.bytes
    }
}
