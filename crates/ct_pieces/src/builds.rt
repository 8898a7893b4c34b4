//! The codes of builds, each of which is made when it is first needed.

ghost use Rattle.std.specs.Prelude.{◌≡◌, ◌≢◌, ◌<◌, ◌≤◌, Some, None, IfOk, IfErr, IfSome, IfNone, OnOk, [], false, true, length, option_map, take};
ghost use Rattle.std.specs.Option.{is_some};
ghost use Rattle.ct_build.specs.Build.{FitsStated};
ghost use Rattle.ct_build_files.specs.BuildKind.{built_over, step_reason};
ghost use Rattle.ct_kind.specs.Ascending.{code_at};
ghost use Rattle.ct_kind.specs.declared.evidence.Evidence.TheVariants.{Build};
ghost use Rattle.ct_kind.specs.Named.{code_named};
ghost use Rattle.ct_files.specs.ByKind.{code_over};
ghost use Rattle.ct_piece.specs.Codes.{codes_of};
ghost use Rattle.ct_files.specs.ByKind.{own_reason};
ghost use Rattle.ct_piece.specs.Standing.{AreMade};
ghost use Rattle.ct_files.specs.ByKind.{is_kept};
ghost use Rattle.ct_piece.specs.Inside.Kept.{kept_codes, AreKept, code_there, code_found, other_place};

use crate::kept::{find_code, pieces_before, place_of};
use ct_build_files::build_kind::{self, StatedBuild};
use ct_files::build_of;
use ct_kind::{Found, SubmitFault};
use ct_names::Id;
use ct_piece::Piece;
use ct_words::Code;
use std::alloc::{AllocError, Global};

/// The place of the piece of the other id, where one is named and a piece has it.
fn other_place(pieces: &[Piece], other: Option<Id>) -> Option<usize>
    ensures { result ≡ other_place other pieces.now }
{
    match other {
        Some(id) => place_of(pieces, id),
        None => None,
    }
}

/// The code of the piece at the place, where one was found and it has a code. It is kept, where it is to be.
fn code_found<'a>(
    alloc: Global,
    pieces: &[Piece],
    kept: &'a [Option<Code>],
    place: Option<usize>,
) -> Result<Found<'a>, AllocError>
    requires made { AreMade [] pieces.now }
    requires place { IfSome place (λ place. place < length pieces.now) }
    requires long { length kept.now ≡ length pieces.now }
    requires kept { IfSome place (λ place. code_there kept.now place ≡ code_there (kept_codes pieces.now) place) }
    ensures { IfOk result (λ found. found ≡ code_found pieces.now place) }
{
    match place {
        Some(place) => find_code(alloc, pieces, kept, place),
        None => Ok(Found::none()),
    }
}

/// The code that the build makes of those that were found for its parts, the first of which has one, or why it makes none.
fn code_of_found(
    alloc: Global,
    build: &StatedBuild<'_>,
    part: &Found<'_>,
    other: &Found<'_>,
) -> Result<Code, SubmitFault>
    requires fits { FitsStated build.now.step.now build.now.entry }
    requires coded { is_some part.now ≡ true }
    ensures code { IfOk result (λ code. option_map (code_at build.now.entry) (built_over build.now.entry build.now.step.now part.now other.now) ≡ Some code) }
    ensures accepted { OnOk result (step_reason build.now.entry build.now.step.now build.now.part build.now.other part.now other.now ≡ None) }
    ensures fault { IfErr result (λ fault. fault ≢ SubmitFault.Memory →
        step_reason build.now.entry build.now.step.now build.now.part build.now.other part.now other.now ≡ Some fault) }
{
    let Some(code) = part.code() else {
        unreachable!()
    };
    build_kind::code(alloc, build, code, other.code())
}

/// The code that the build makes of those of the pieces at the places of its parts, or why it makes none. They are kept, where they are
/// to be.
fn code_of_parts(
    alloc: Global,
    pieces: &[Piece],
    kept: &[Option<Code>],
    part: Option<usize>,
    other: Option<usize>,
    build: &StatedBuild<'_>,
) -> Result<Code, SubmitFault>
    requires made { AreMade [] pieces.now }
    requires part { IfSome part (λ place. place < length pieces.now) }
    requires other { IfSome other (λ place. place < length pieces.now) }
    requires long { length kept.now ≡ length pieces.now }
    requires part_kept { IfSome part (λ place. code_there kept.now place ≡ code_there (kept_codes pieces.now) place) }
    requires other_kept { IfSome other (λ place. code_there kept.now place ≡ code_there (kept_codes pieces.now) place) }
    requires fits { FitsStated build.now.step.now build.now.entry }
    requires coded { is_some (code_found pieces.now part) ≡ true }
    ensures code { IfOk result (λ code. option_map (code_at build.now.entry)
        (built_over build.now.entry build.now.step.now (code_found pieces.now part) (code_found pieces.now other)) ≡ Some code) }
    ensures accepted { OnOk result (step_reason build.now.entry build.now.step.now build.now.part build.now.other
        (code_found pieces.now part) (code_found pieces.now other) ≡ None) }
    ensures fault { IfErr result (λ fault. fault ≢ SubmitFault.Memory → step_reason build.now.entry build.now.step.now build.now.part build.now.other
        (code_found pieces.now part) (code_found pieces.now other) ≡ Some fault) }
{
    let part_code = code_found(alloc, pieces, kept, part)?;
    let other_code = code_found(alloc, pieces, kept, other)?;
    code_of_found(alloc, build, &part_code, &other_code)
}

/// Sees to it that the code of the piece at the place is kept, where its kind's is: makes it of those of its parts, for which it sees
/// first. What is kept already stays. `Err` is want of memory.
#[cycle(keeping)]
pub(crate) fn keep_code(
    alloc: Global,
    pieces: &[Piece],
    kept: &mut Vec<Option<Code>>,
    place: usize,
) -> Result<(), AllocError>
    requires made { AreMade [] pieces.now }
    requires kept { AreKept kept.old.items (kept_codes pieces.now) }
    requires place { place < length pieces.now }
    ensures kept { AreKept kept.new.items (kept_codes pieces.now) }
    ensures stay { AreKept kept.old.items kept.new.items }
    ensures there { OnOk result (code_there kept.new.items place ≡ code_there (kept_codes pieces.now) place) }
{
    if kept[place].is_some() {
        return Ok(());
    }
    let Some(build) = build_of(pieces[place].evidence()) else {
        return Ok(());
    };
    let Ok(code) = make_code(alloc, pieces, kept, place, &build) else {
        return Err(AllocError);
    };
    kept[place] = Some(code);
    Ok(())
}

/// `keep_code` at the place, where one was found.
#[cycle(keeping)]
fn keep_found(
    alloc: Global,
    pieces: &[Piece],
    kept: &mut Vec<Option<Code>>,
    place: Option<usize>,
) -> Result<(), AllocError>
    requires made { AreMade [] pieces.now }
    requires kept { AreKept kept.old.items (kept_codes pieces.now) }
    requires place { IfSome place (λ place. place < length pieces.now) }
    ensures kept { AreKept kept.new.items (kept_codes pieces.now) }
    ensures stay { AreKept kept.old.items kept.new.items }
    ensures there { OnOk result (IfSome place (λ place. code_there kept.new.items place ≡ code_there (kept_codes pieces.now) place)) }
{
    match place {
        Some(place) => keep_code(alloc, pieces, kept, place),
        None => Ok(()),
    }
}

/// The code that the build makes over the pieces before the place, or why it makes none. The codes that it needs of them are made and
/// kept, where those of their kinds are; what is kept already stays.
#[cycle(keeping)]
pub(crate) fn make_code(
    alloc: Global,
    pieces: &[Piece],
    kept: &mut Vec<Option<Code>>,
    place: usize,
    build: &StatedBuild<'_>,
) -> Result<Code, SubmitFault>
    requires made { AreMade [] pieces.now }
    requires kept { AreKept kept.old.items (kept_codes pieces.now) }
    requires place { place ≤ length pieces.now }
    requires fits { FitsStated build.now.step.now build.now.entry }
    requires coded { is_some (code_named build.now.part (codes_of (take place pieces.now))) ≡ true }
    ensures kept { AreKept kept.new.items (kept_codes pieces.now) }
    ensures stay { AreKept kept.old.items kept.new.items }
    ensures code { IfOk result (λ code.
        code_over (codes_of (take place pieces.now)) (Build build.now.entry build.now.step.now build.now.part build.now.other) ≡ Some code) }
    ensures accepted { OnOk result (
        own_reason (codes_of (take place pieces.now)) (Build build.now.entry build.now.step.now build.now.part build.now.other) ≡ None) }
    ensures fault { IfErr result (λ fault. fault ≢ SubmitFault.Memory →
        own_reason (codes_of (take place pieces.now)) (Build build.now.entry build.now.step.now build.now.part build.now.other) ≡ Some fault) }
{
    let before = pieces_before(pieces, place);
    let part = place_of(before, build.part);
    let other = other_place(before, build.other);
    keep_found(alloc, pieces, kept, part)?;
    keep_found(alloc, pieces, kept, other)?;
    code_of_parts(alloc, pieces, kept, part, other, build)
}
