//! The codes that a rule's code is made of.

ghost use Rattle.std.specs.Prelude.{◌≡◌, [], ◌∷◌, length};

use ct_words::Code;

/// The only code.
pub(crate) fn only(codes: Vec<Code>) -> Code
    requires { length codes.items ≡ 1 }
    ensures { codes.items ≡ result ∷ [] }
{
    let mut codes = codes;
    let Some(code) = codes.pop() else {
        unreachable!()
    };
    code
}

/// The two codes.
pub(crate) fn both(codes: Vec<Code>) -> (Code, Code)
    requires { length codes.items ≡ 2 }
    ensures { codes.items ≡ result.0 ∷ result.1 ∷ [] }
{
    let mut codes = codes;
    let (Some(second), Some(first)) = (codes.pop(), codes.pop()) else {
        unreachable!()
    };
    (first, second)
}
