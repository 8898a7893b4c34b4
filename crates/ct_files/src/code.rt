//! The codes that evidence states, but for those that are kept beside pieces.

ghost use Rattle.std.specs.Prelude.{◌≡◌, None, IfOk};
ghost use Rattle.ct_files.specs.Evidence.{IsSound};
ghost use Rattle.ct_files.specs.ByKind.{own_reason, listed_code};

use ct_kind::{Evidence, Partitions};
use ct_partition_files::product_kind;
use ct_word_files::{cosets_kind, words_kind};
use ct_words::Code;
use std::alloc::{AllocError, Global};

/// The code that the evidence states over the pieces before it, against which there is no reason; none where the code is kept
/// beside its piece, as that of a build, and where its kind has none. `Err` is want of memory.
pub fn listed_code<P: Partitions>(
    alloc: Global,
    before: &P,
    evidence: &Evidence,
) -> Result<Option<Code>, AllocError>
    requires sound { IsSound evidence.now }
    requires faultless { own_reason (P.known before.now) evidence.now ≡ None }
    ensures { IfOk result (λ code. code ≡ listed_code (P.known before.now) evidence.now) }
{
    match evidence {
        Evidence::Words { entry, words } => {
            let code = words_kind::code(alloc, *entry, words.as_slice())?;
            Ok(Some(code))
        }
        Evidence::Cosets {
            entry,
            basis,
            representatives,
        } => {
            let code = cosets_kind::code(
                alloc,
                *entry,
                basis.as_slice(),
                representatives.as_slice(),
            )?;
            Ok(Some(code))
        }
        Evidence::Product { entry, pairs } => {
            let code = product_kind::code(alloc, before, *entry, pairs.as_slice())?;
            Ok(Some(code))
        }
        Evidence::Partition { .. }
        | Evidence::Build { .. }
        | Evidence::Dual(_)
        | Evidence::JohnsonDual(_)
        | Evidence::Odd { .. }
        | Evidence::JohnsonLocal(_) => Ok(None),
    }
}
