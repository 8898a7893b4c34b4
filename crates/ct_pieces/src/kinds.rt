//! The check of evidence over the pieces. A build is checked over codes that are kept beside them.

ghost use Rattle.std.specs.Prelude.{◌≡◌, []};
ghost use Rattle.ct_build.specs.Build.{FitsStated};
ghost use Rattle.ct_files.specs.Checked.{IsCheck};
ghost use Rattle.ct_files.specs.Evidence.{IsSound};
ghost use Rattle.ct_kind.specs.declared.evidence.Evidence.TheVariants.{Build};
ghost use Rattle.ct_piece.specs.Codes.{codes_of};
ghost use Rattle.ct_piece.specs.Standing.{AreMade};
ghost use Rattle.ct_piece.specs.Inside.Kept.{kept_codes, AreKept};

use crate::builds::make_code;
use crate::standing::Standing;
use ct_build_files::build_kind::{self, StatedBuild};
use ct_files::{Checked, Evidence, build_of, check_listed};
use ct_piece::{Piece, SubmitFault};
use ct_words::Code;
use std::alloc::Global;

/// What the build comes to over the pieces; or why it makes no piece. The codes of pieces that it needs are made and kept.
fn check_build(
    alloc: Global,
    pieces: &[Piece],
    kept: &mut Vec<Option<Code>>,
    build: &StatedBuild<'_>,
) -> Result<Checked, SubmitFault>
    requires standing { AreMade [] pieces.now }
    requires kept { AreKept kept.old.items (kept_codes pieces.now) }
    requires fits { FitsStated build.now.step.now build.now.entry }
    ensures codes { AreKept kept.new.items (kept_codes pieces.now) }
    ensures check { IsCheck (codes_of pieces.now) (Build build.now.entry build.now.step.now build.now.part build.now.other) result }
{
    let told = build_kind::early_size(&Standing::new(pieces), build)?;
    if let Some(size) = told {
        return Checked::of_code(build.entry, Ok(size));
    }
    let code = make_code(alloc, pieces, kept, pieces.len(), build)?;
    Ok(Checked::of_build(build.entry, code))
}

/// What the evidence comes to over the pieces; or why it makes no piece. The codes of pieces that it needs are made and kept, each at the
/// place of its piece.
pub(crate) fn check(
    alloc: Global,
    pieces: &[Piece],
    kept: &mut Vec<Option<Code>>,
    evidence: &Evidence,
) -> Result<Checked, SubmitFault>
    requires standing { AreMade [] pieces.now }
    requires kept { AreKept kept.old.items (kept_codes pieces.now) }
    requires sound { IsSound evidence.now }
    ensures codes { AreKept kept.new.items (kept_codes pieces.now) }
    ensures check { IsCheck (codes_of pieces.now) evidence.now result }
{
    match build_of(evidence) {
        Some(build) => check_build(alloc, pieces, kept, &build),
        None => check_listed(alloc, &Standing::new(pieces), evidence),
    }
}
