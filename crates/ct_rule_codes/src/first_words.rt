//! The first words of a code that is handed over.

ghost use Rattle.std.specs.Prelude.{◌≡◌, ◌≤◌, length, take};

use ct_words::Code;

/// The first words of the code, so many: a code of the same length, distance and weight. It takes no memory.
pub(crate) fn first_words(code: Code, size: usize) -> Code
    requires some { 1 ≤ size }
    requires enough { size ≤ length code.words }
    ensures n { result.n ≡ code.n }
    ensures d { result.d ≡ code.d }
    ensures w { result.w ≡ code.w }
    ensures words { result.words ≡ take size code.words }
    ensures size { length result.words ≡ size }
{
    let (n, d, w) = (code.n(), code.d(), code.w());
    let mut words = code.into_words();
    words.truncate(size);
    Code::from_sorted(n, d, w, words)
}
