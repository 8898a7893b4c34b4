//! Evidence of kind build: the words that a step makes of the codes of pieces that stand, its parts.

ghost use Rattle.std.specs.Prelude.{◌≡◌, ◌≢◌, ◌∷◌, Some, None, IfOk, IfErr, IfSome, OnOk, OnSome, length, option_map, true, codes};
ghost use Rattle.std.specs.List.{list_any};
ghost use Rattle.std.specs.Option.{option_copied, option_to_list, is_some, ForSome};
ghost use Rattle.std.specs.Str.{bytes_eq};
ghost use Rattle.ct_build.specs.Build.{FitsStated, shape_of, IsShape, built, build_fault};
ghost use Rattle.ct_kind.specs.Ascending.{code_at};
ghost use Rattle.ct_kind.specs.KindParts.{kind_reason};
ghost use Rattle.ct_kind.specs.Named.{first_missing, code_named, other_named};
ghost use Rattle.ct_build_files.specs.BuildKind.{build_refusal, step_reason, built_over, build_kind};

use crate::codes::Codes;
use ct_build::{BuildFault, Shape, Step, apply, told_size};
use ct_kind::{Kind, SubmitFault};
use ct_names::Id;
use ct_words::{Code, Entry};
use std::alloc::Global;

/// What the evidence comes to.
pub fn kind(entry: Entry) -> Kind
    ensures text { result.text.now ≡ codes "build" }
    ensures entry { result.entry ≡ entry }
    ensures is_stored { result.is_stored ≡ true }
    ensures has_code { result.has_code ≡ true }
{
    Kind {
        text: b"build",
        entry,
        is_stored: true,
        has_code: true,
    }
}

/// Whether one of the parts has the id.
pub fn names(part: Id, other: Option<Id>, id: Id) -> bool
    ensures { result ≡ list_any (λ part. bytes_eq part id) (part ∷ option_to_list other) }
{
    part == id || is_other(other, id)
}

/// Whether another part is named, and has the id.
fn is_other(other: Option<Id>, id: Id) -> bool
    ensures { result ≡ list_any (λ part. bytes_eq part id) (option_to_list other) }
{
    match other {
        Some(other) => other == id,
        None => false,
    }
}

/// A build as its document states it: the entry that it is about, its step, and the ids of its parts.
#[derive(Clone, Copy)]
pub struct StatedBuild<'a> {
    /// The entry that it is about.
    pub entry: Entry,
    /// Its step.
    pub step: &'a Step,
    /// The id of its part.
    pub part: Id,
    /// The id of the other part, where the step needs one.
    pub other: Option<Id>,
}

/// The other part, where one is named and no piece has its id.
fn missing_other<P: Codes>(pieces: &P, other: Option<Id>) -> Option<Id>
    ensures { result ≡ first_missing (P.known pieces.now) (option_to_list other) }
{
    match other {
        Some(id) => { if pieces.is_known(id) { None } else { Some(id) } }
        None => None,
    }
}

/// The first part that no piece has.
fn missing_part<P: Codes>(pieces: &P, build: &StatedBuild<'_>) -> Option<Id>
    ensures { result ≡ first_missing (P.known pieces.now) (build.now.part ∷ option_to_list build.now.other) }
{
    if pieces.is_known(build.part) {
        missing_other(pieces, build.other)
    } else {
        Some(build.part)
    }
}

/// The parameters of the code of the other part, where one is named.
fn shape_beside<P: Codes>(pieces: &P, other: Option<Id>) -> Option<Shape>
    ensures shape { result ≡ option_map shape_of (other_named other (P.known pieces.now)) }
    ensures limits { ForSome result IsShape }
{
    match other {
        Some(other) => pieces.shape(other),
        None => None,
    }
}

/// Why the step is refused over parts of these ids.
fn refusal(part: Id, other: Option<Id>, fault: BuildFault) -> SubmitFault
    ensures memory { result ≢ SubmitFault.Memory → fault ≢ BuildFault.Memory }
    ensures refusal { fault ≢ BuildFault.Memory → result ≡ build_refusal part other fault }
{
    match fault {
        BuildFault::WrongPart(0) => SubmitFault::WrongPart(part),
        BuildFault::WrongPart(_) => SubmitFault::WrongPart(other.unwrap_or(part)),
        BuildFault::Memory => SubmitFault::Memory,
        BuildFault::Short(_, _) | BuildFault::Size(_) | BuildFault::Few(_, _) | BuildFault::Empty =>
            { SubmitFault::Build(fault) }
    }
}

/// How many words the build makes of the codes of its parts, none where that depends on their words; or the first reason against its
/// step that their parameters tell.
fn early_words<P: Codes>(pieces: &P, build: &StatedBuild<'_>) -> Result<Option<u32>, SubmitFault>
    requires fits { FitsStated build.now.step.now build.now.entry }
    ensures size { IfOk result (λ told. IfSome told (λ size. option_map length (built_over build.now.entry build.now.step.now
        (code_named build.now.part (P.known pieces.now)) (other_named build.now.other (P.known pieces.now))) ≡ Some size)) }
    ensures accepted { IfOk result (λ told. OnSome told (step_reason build.now.entry build.now.step.now build.now.part build.now.other
        (code_named build.now.part (P.known pieces.now)) (other_named build.now.other (P.known pieces.now)) ≡ None)) }
    ensures coded { OnOk result (is_some (code_named build.now.part (P.known pieces.now)) ≡ true) }
    ensures fault { IfErr result (λ fault. step_reason build.now.entry build.now.step.now build.now.part build.now.other
        (code_named build.now.part (P.known pieces.now)) (other_named build.now.other (P.known pieces.now)) ≡ Some fault) }
{
    let Some(shape) = pieces.shape(build.part) else {
        return Err(SubmitFault::WrongPart(build.part));
    };
    let beside = shape_beside(pieces, build.other);
    match told_size(build.step, build.entry, shape, beside) {
        Ok(size) => Ok(size),
        Err(fault) => Err(refusal(build.part, build.other, fault)),
    }
}

/// The size of the piece that the build makes, none where that depends on words of its parts; or why it makes no piece: the first part
/// that no piece has, or the first reason against its step that the parameters of the parts tell. No code is made. Where no size is told,
/// the parts stand, and the first has a code.
pub fn early_size<P: Codes>(pieces: &P, build: &StatedBuild<'_>) -> Result<Option<u32>, SubmitFault>
    requires fits { FitsStated build.now.step.now build.now.entry }
    ensures size { IfOk result (λ told. IfSome told (λ size.
        (build_kind build.now.entry build.now.step.now build.now.part build.now.other).size (P.known pieces.now) ≡ Some size)) }
    ensures accepted { IfOk result (λ told. OnSome told
        (kind_reason (build_kind build.now.entry build.now.step.now build.now.part build.now.other) (P.known pieces.now) ≡ None)) }
    ensures parts { OnOk result (first_missing (P.known pieces.now) (build.now.part ∷ option_to_list build.now.other) ≡ None) }
    ensures coded { OnOk result (is_some (code_named build.now.part (P.known pieces.now)) ≡ true) }
    ensures fault { IfErr result (λ fault.
        kind_reason (build_kind build.now.entry build.now.step.now build.now.part build.now.other) (P.known pieces.now) ≡ Some fault) }
{
    if let Some(id) = missing_part(pieces, build) {
        return Err(SubmitFault::NoSuch(id));
    }
    early_words(pieces, build)
}

/// The code of the entry that the step makes of the codes of the parts, or why it makes none.
fn stepped(
    alloc: Global,
    step: &Step,
    entry: Entry,
    part: &Code,
    other: Option<&Code>,
) -> Result<Code, BuildFault>
    requires fits { FitsStated step.now entry }
    ensures code { IfOk result (λ code. code ≡ code_at entry (built step.now entry part.now (option_copied other.entry))) }
    ensures accepted { OnOk result (build_fault step.now entry part.now (option_copied other.entry) ≡ None) }
    ensures fault { IfErr result (λ fault. fault ≢ BuildFault.Memory
        → build_fault step.now entry part.now (option_copied other.entry) ≡ Some fault) }
{
    apply(alloc, step, entry, part, other)
}

/// The code that the build makes of the codes of its parts, or why it makes none.
pub fn code(
    alloc: Global,
    build: &StatedBuild<'_>,
    part: &Code,
    other: Option<&Code>,
) -> Result<Code, SubmitFault>
    requires fits { FitsStated build.now.step.now build.now.entry }
    ensures code { IfOk result (λ code. code ≡ code_at build.now.entry (built build.now.step.now build.now.entry part.now (option_copied other.entry))) }
    ensures accepted { OnOk result (step_reason build.now.entry build.now.step.now build.now.part build.now.other
        (Some part.now) (option_copied other.entry) ≡ None) }
    ensures fault { IfErr result (λ fault. fault ≢ SubmitFault.Memory → step_reason build.now.entry build.now.step.now build.now.part build.now.other
        (Some part.now) (option_copied other.entry) ≡ Some fault) }
{
    match stepped(alloc, build.step, build.entry, part, other) {
        Ok(code) => Ok(code),
        Err(fault) => Err(refusal(build.part, build.other, fault)),
    }
}

/// The number of the words of the code.
pub fn size_of(code: &Code) -> u32
    ensures { result ≡ length code.now.words }
{
    code.words().len() as u32
}
