//! u followed by u + v for all words u of even weight.

ghost use Rattle.std.specs.Prelude.{◌≡◌, ◌-◌, ◌*◌, ◌^◌, ◌≤◌, length, min, IfOk, None};
ghost use Rattle.ct_words.specs.declared.limits.TheConstants.{MAX_N};

use ct_build::{even_words, uuv};
use ct_words::Code;
use std::alloc::{AllocError, Global};

/// The words u followed by u + v, for all words u of even weight of length n, and each word v of the part, a code of this
/// length, with 2n at most `MAX_N`: a code of length 2n, without a weight, whose distance is that of the part, 4 at most.
/// `Err` is want of memory.
pub fn sums_with_even_words(alloc: Global, part: &Code) -> Result<Code, AllocError>
    requires { 2 * part.now.n ≤ MAX_N }
    ensures n { IfOk result (λ c. c.n ≡ 2 * part.now.n) }
    ensures d { IfOk result (λ c. c.d ≡ min 4 part.now.d) }
    ensures w { IfOk result (λ c. c.w ≡ None) }
    ensures size { IfOk result (λ c. length c.words ≡ 2 ^ (part.now.n - 1) * length part.now.words) }
{
    let even = even_words(alloc, part.n())?;
    uuv(alloc, &even, part)
}
