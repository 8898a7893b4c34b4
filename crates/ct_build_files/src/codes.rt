//! What a build asks about the codes of the pieces that stand.

ghost use Rattle.std.specs.Prelude.{◌≡◌, List, option_map};
ghost use Rattle.std.specs.Option.{ForSome};
ghost use Rattle.ct_build.specs.Build.{shape_of, IsShape};
ghost use Rattle.ct_kind.specs.Named.{NamedCode, is_known, code_named};

use ct_build::Shape;
use ct_names::Id;

/// The pieces that stand, as a build asks what is known of their codes without a word of them: by their ids, the first piece of an id.
pub trait Codes {
    // The pieces, each with its id, its code and the partition that it is.
    ghost known: { Self → List NamedCode };

    /// Whether a piece has the id.
    fn is_known(&self, id: Id) -> bool
        ensures { result ≡ is_known id (known self.now) };

    /// The parameters of the code of the id, where there is one. No code is made.
    fn shape(&self, id: Id) -> Option<Shape>
        ensures shape { result ≡ option_map shape_of (code_named id (known self.now)) }
        ensures limits { ForSome result IsShape };
}
