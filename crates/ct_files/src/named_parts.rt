//! The parts that evidence names, whatever its kind.

ghost use Rattle.std.specs.Prelude.{◌≡◌, ◌↔◌, ◌||◌, [], false};
ghost use Rattle.std.specs.List.{list_any};
ghost use Rattle.std.specs.Option.{option_to_list};
ghost use Rattle.ct_files.specs.ByKind.{ids_of_parts};
ghost use Rattle.ct_files.specs.PartNames.{has_name};

use ct_kind::Evidence;
use ct_names::Id;
use std::collections::HashSet;

/// Whether the evidence names a part.
pub fn has_parts(evidence: &Evidence) -> bool
    ensures { (result ≡ false) ↔ (ids_of_parts evidence.now ≡ []) }
{
    match evidence {
        Evidence::Build { .. } => true,
        Evidence::Product { pairs, .. } => !pairs.as_slice().is_empty(),
        _ => false,
    }
}

/// Whether the set has the id.
fn has<'a>(names: &HashSet<&'a [u8]>, id: &'a Id) -> bool
    ensures { result ≡ has_name names.now id.now }
{
    names.contains(&id.text())
}

/// Whether the set has the id, where there is one.
fn has_other<'a>(names: &HashSet<&'a [u8]>, other: &'a Option<Id>) -> bool
    ensures { result ≡ list_any (has_name names.now) (option_to_list other.now) }
{
    match other {
        Some(id) => has(names, id),
        None => false,
    }
}

/// Whether the set has one of the pairs' ids.
fn has_of_pairs<'a>(names: &HashSet<&'a [u8]>, pairs: &'a [(Id, Id)]) -> bool
    ensures { result ≡ list_any (λ pair. has_name names.now pair.0 || has_name names.now pair.1) pairs.now }
{
    pairs
        .iter()
        .any(|pair| has(names, &pair.0) || has(names, &pair.1))
}

/// Whether the set has one of the parts that the evidence names: `names` holds ids as texts.
pub fn has_part<'a>(names: &HashSet<&'a [u8]>, evidence: &'a Evidence) -> bool
    ensures { result ≡ list_any (has_name names.now) (ids_of_parts evidence.now) }
{
    match evidence {
        Evidence::Build { part, other, .. } => has(names, part) || has_other(names, other),
        Evidence::Product { pairs, .. } => has_of_pairs(names, pairs.as_slice()),
        _ => false,
    }
}
