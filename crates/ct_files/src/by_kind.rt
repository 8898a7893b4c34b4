//! Evidence by its kind: each question has one match, which tells in whose room it is answered.

ghost use Rattle.std.specs.Prelude.{◌≡◌, ◌<◌, ◌^◌, false, IfSome, IfNone};
ghost use Rattle.ct_kind.specs.KindParts.{stored_for};
ghost use Rattle.ct_kind.specs.declared.evidence.Evidence.TheVariants.{Build};
ghost use Rattle.ct_files.specs.Evidence.{IsSound};
ghost use Rattle.ct_files.specs.ByKind.{kind_of, stated_entry, names, has_code, is_kept};

use ct_build_files::build_kind::{self, StatedBuild};
use ct_dual_files::dual_kind;
use ct_kind::{Evidence, Kind, StatedPartition};
use ct_names::Id;
use ct_partition_files::{partition_kind, product_kind};
use ct_word_files::{cosets_kind, words_kind};

/// What the evidence comes to by its kind.
pub fn kind_of(evidence: &Evidence) -> Kind
    ensures text { result.text.now ≡ (kind_of evidence.now).text }
    ensures entry { result.entry ≡ stated_entry evidence.now }
    ensures is_stored { result.is_stored ≡ (kind_of evidence.now).is_stored }
    ensures has_code { result.has_code ≡ has_code evidence.now }
{
    match evidence {
        Evidence::Words { entry, words } => words_kind::kind(*entry),
        Evidence::Cosets { entry, .. } => cosets_kind::kind(*entry),
        Evidence::Partition { entry, .. } => partition_kind::kind(*entry),
        Evidence::Build { entry, .. } => build_kind::kind(*entry),
        Evidence::Product { entry, .. } => product_kind::kind(*entry),
        Evidence::Dual(dual) => dual_kind::kind(b"dual", dual),
        Evidence::JohnsonDual(dual) => dual_kind::kind(b"jdual", dual),
        Evidence::Odd { dual, .. } => dual_kind::kind(b"odd", dual),
        Evidence::JohnsonLocal(dual) => dual_kind::kind(b"jlocal", dual),
    }
}

/// How many words the document of the evidence lists.
fn listed(evidence: &Evidence) -> u64
    requires sound { IsSound evidence.now }
    ensures listed { result ≡ (kind_of evidence.now).listed }
    ensures few { result < 2 ^ 62 }
{
    match evidence {
        Evidence::Words { words, .. } => words.as_slice().len() as u64,
        Evidence::Cosets {
            basis,
            representatives,
            ..
        } => cosets_kind::listed(basis.as_slice(), representatives.as_slice()),
        Evidence::Partition { classes, .. } => partition_kind::listed(classes.as_slice()),
        Evidence::Build { .. }
        | Evidence::Product { .. }
        | Evidence::Dual(_)
        | Evidence::JohnsonDual(_)
        | Evidence::Odd { .. }
        | Evidence::JohnsonLocal(_) => 0,
    }
}

/// How many words a piece of the evidence stores, which has this size: those that its document lists, and those of its code where they are
/// stored. The evidence has the forms and ranges of its kind, as `read_evidence` gives it.
pub fn stored_for(evidence: &Evidence, size: Option<u32>) -> u64
    requires { IsSound evidence.now }
    ensures words { result ≡ stored_for (kind_of evidence.now) size }
    ensures bound { result < 2 ^ 63 }
{
    let listed = listed(evidence);
    if kind_of(evidence).is_stored {
        listed + u64::from(size.unwrap_or(0))
    } else {
        listed
    }
}

/// Whether the evidence names the piece of this id as a part of its own.
pub fn names(evidence: &Evidence, id: Id) -> bool
    ensures { result ≡ names evidence.now id }
{
    match evidence {
        Evidence::Build { part, other, .. } => build_kind::names(*part, *other, id),
        Evidence::Product { pairs, .. } => product_kind::names(pairs.as_slice(), id),
        _ => false,
    }
}

/// The partition that the evidence states, where it states one.
pub fn partition_of<'a>(evidence: &'a Evidence) -> Option<StatedPartition<'a>>
    ensures { result ≡ (kind_of evidence.now).partition }
{
    match evidence {
        Evidence::Partition {
            entry,
            between,
            classes,
        } => Some(StatedPartition::new(*entry, *between, classes.as_slice())),
        _ => None,
    }
}

/// The build that the evidence is, where it is one.
pub fn build_of<'a>(evidence: &'a Evidence) -> Option<StatedBuild<'a>>
    ensures some { IfSome result (λ build. evidence.now ≡ Build build.entry build.step.now build.part build.other) }
    ensures none { IfNone result (is_kept evidence.now ≡ false) }
{
    match evidence {
        Evidence::Build {
            entry,
            step,
            part,
            other,
        } => Some(StatedBuild {
            entry: *entry,
            step,
            part: *part,
            other: *other,
        }),
        _ => None,
    }
}
