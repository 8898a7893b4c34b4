//! A code that is read as one of another entry.

ghost use Rattle.std.specs.Prelude.{◌≡◌, ◌≤◌, ◌⊎◌, None};

use ct_words::Code;

/// The code as one of a distance that is no greater, from 1 on, with its own weight or without one: the same words. It
/// takes no memory.
pub fn read_as(code: Code, d: u32, w: Option<u32>) -> Code
    requires some { 1 ≤ d }
    requires nearer { d ≤ code.d }
    requires weight { (w ≡ None) ⊎ (w ≡ code.w) }
    ensures n { result.n ≡ code.n }
    ensures d { result.d ≡ d }
    ensures w { result.w ≡ w }
    ensures words { result.words ≡ code.words }
{
    let n = code.n();
    Code::from_sorted(n, d, w, code.into_words())
}
