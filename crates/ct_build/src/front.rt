//! The first words of a code.

ghost use Rattle.std.specs.Prelude.{◌≡◌, ◌↔◌, ◌⊎◌, ◌<◌, ◌≤◌, take, length, Err, IfOk, IfErr};
ghost use Rattle.ct_words.specs.Code.{IsSoundCode};
ghost use Rattle.ct_build.specs.declared.fault.BuildFault.TheVariants.{Few, Memory};

use crate::fault::BuildFault;
use ct_words::Code;
use std::alloc::Global;

/// The first words of the part, so many, at least 1: a code of the same length, distance and weight.
///
/// It is `Few` with the number of the part's words and `size` where the part has fewer words, and else fails for want of
/// memory alone.
pub fn trim(alloc: Global, part: &Code, size: u32) -> Result<Code, BuildFault>
    requires { 1 ≤ size }
    ensures words { IfOk result (λ c. c.words ≡ take size part.now.words) }
    ensures size { IfOk result (λ c. length c.words ≡ size) }
    ensures n { IfOk result (λ c. c.n ≡ part.now.n) }
    ensures d { IfOk result (λ c. c.d ≡ part.now.d) }
    ensures w { IfOk result (λ c. c.w ≡ part.now.w) }
    ensures sound { IfOk result IsSoundCode }
    ensures few { (result ≡ Err (Few (length part.now.words) size)) ↔ (length part.now.words < size) }
    ensures faults { IfErr result (λ fault. (fault ≡ Few (length part.now.words) size) ⊎ (fault ≡ Memory)) }
{
    let words = part.words();
    if words.len() < size as usize {
        return Err(BuildFault::Few(words.len() as u64, u64::from(size)));
    }
    let first = Vec::from_slice(alloc, &words[..size as usize])?;
    Ok(Code::from_sorted(part.n(), part.d(), part.w(), first))
}
