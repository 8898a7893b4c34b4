//! What a kind may ask about the pieces that stand.

ghost use Rattle.std.specs.Prelude.{◌≡◌, List, Some, None};
ghost use Rattle.std.specs.Option.{option_copied};
ghost use Rattle.ct_kind.specs.Named.{NamedCode, is_known, partition_named};
ghost use Rattle.ct_kind.specs.Sound.{AreSound};

use ct_classes::StatedPartition;
use ct_names::Id;
use ct_words::Code;
use std::marker::Model;

/// The code of a piece, where its kind has one: kept beside it, or made anew. Contracts see the code.
#[derive(Drop)]
pub struct Found<'a> {
    kept: Option<&'a Code>,
    made: Option<Code>,
}

impl<'a> Model for Found<'a> {
    ghost use Rattle.std.specs.Prelude.{Option};
    ghost use Rattle.std.specs.Option.{option_copied, option_or};
    ghost use Rattle.ct_words.specs.Code.{CodeValue};

    ghost Value = { Option CodeValue };

    ghost view = { λ f. option_or (option_copied f.kept) f.made };
}

impl<'a> Found<'a> {
    /// No code.
    pub fn none() -> Found<'a>
        ensures { result ≡ None }
    {
        Found {
            kept: None,
            made: None,
        }
    }

    /// A code that is kept.
    pub fn kept(code: &'a Code) -> Found<'a>
        ensures { result ≡ Some code.now }
    {
        Found {
            kept: Some(code),
            made: None,
        }
    }

    /// A code that was made anew, where there is one.
    pub fn made(code: Option<Code>) -> Found<'a>
        ensures { result ≡ code }
    {
        Found {
            kept: None,
            made: code,
        }
    }

    /// The code, where there is one.
    pub fn code(&self) -> Option<&Code>
        ensures { option_copied result ≡ self.now }
    {
        self.kept.or(self.made.as_ref())
    }
}

/// The pieces that stand, as a kind asks which partitions they are: by their ids, the first piece of an id.
pub trait Partitions {
    // The pieces, each with its id, its code and the partition that it is.
    ghost known: { Self → List NamedCode };

    /// Whether a piece has the id.
    fn is_known(&self, id: Id) -> bool
        ensures { result ≡ is_known id (known self.now) };

    /// The partition of the id, where it is one.
    fn partition<'a>(&'a self, id: Id) -> Option<StatedPartition<'a>>
        ensures { result ≡ partition_named id (known self.now) };

    /// That the codes are codes, and the partitions partitions. Nothing is done.
    fn are_sound(&self)
        ensures { AreSound (known self.now) };
}
