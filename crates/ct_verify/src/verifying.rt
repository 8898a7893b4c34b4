//! The verdict on a derivation document.

ghost use Rattle.std.specs.Prelude.{◌≡◌, IfOk};
ghost use Rattle.ct_verify.specs.Inside.Verdict.{verdict_of};
ghost use Rattle.ct_verify.specs.Document.{IsVerdict};
ghost use Rattle.ct_verify.specs.declared.verdict.Verdict.TheVariants.{Yes};

use crate::reading::Reading;
use crate::verdict::Verdict;
use ct_io::next_line;
use std::alloc::{AllocError, Global};

/// The verdict on a derivation document: its text lines are read from the first, and the first that fails decides. `Err` is want of
/// memory.
fn first_verdict(alloc: Global, document: &[u8]) -> Result<Verdict, AllocError>
    ensures { IfOk result (λ verdict. verdict ≡ verdict_of document.now) }
{
    let mut reading = Reading::new(alloc);
    let mut number = 1;
    let mut rest = document;
    while !rest.is_empty() {
        let (text, after) = next_line(rest);
        if let Some(failure) = reading.read(alloc, number, text)? {
            return Ok(Verdict::No(failure.line, failure.why));
        }
        number += 1;
        rest = after;
    }
    Ok(reading.ended(number))
}

/// The verdict on a derivation document: its text lines are read from the first, and the first that fails decides. Its evidence is
/// submitted in order to an empty ledger, and no table is made. `Yes` makes each line of the document a true claim. `Err` is want
/// of memory.
pub fn verify(alloc: Global, document: &[u8]) -> Result<Verdict, AllocError>
    ensures verdict { IfOk result (λ verdict. verdict ≡ verdict_of document.now) }
    ensures stated { IfOk result (λ verdict. IsVerdict document.now verdict) }
{
    first_verdict(alloc, document)
}
