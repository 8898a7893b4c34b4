//! Rules over the supports that are left once those at some places are taken out.

ghost use Rattle.std.specs.Prelude.{◌≡◌, ◌≤◌};
ghost use Rattle.ct_rules.specs.Removal.{marked, count_below, names_one, lowered_place, lowered};
ghost use Rattle.ct_rules.specs.Rule.{named_place};

use crate::rows::{place_of, with_place};
use crate::rule::Rule;

/// Whether the place is marked as one that is taken out.
pub fn is_gone(gone: &[bool], place: usize) -> bool
    ensures { result ≡ marked gone.now place }
{
    gone.get(place).copied().unwrap_or(false)
}

/// How many places below this one are taken out.
fn count_below(gone: &[bool], place: usize) -> usize
    ensures count { result ≡ count_below (marked gone.now) place }
    ensures few { result ≤ place }
{
    let mut count = 0;
    for other in 0..place.min(gone.len()) {
        if gone[other] {
            count += 1;
        }
    }
    count
}

/// The place of a support once those of the marked places are taken out, where it stays.
fn lowered_place(gone: &[bool], place: u32) -> u32
    ensures { result ≡ lowered_place (marked gone.now) place }
{
    place - count_below(gone, place as usize) as u32
}

/// Whether the rule names a support that is taken out.
pub fn names_one(gone: &[bool], rule: Rule) -> bool
    ensures { result ≡ names_one (marked gone.now) (named_place rule) }
{
    match place_of(rule) {
        Some(place) => is_gone(gone, place as usize),
        None => false,
    }
}

/// The rule over the supports that are left once those of the marked places are taken out.
pub fn lowered(gone: &[bool], rule: Rule) -> Rule
    ensures { result ≡ lowered (marked gone.now) rule }
{
    match place_of(rule) {
        Some(place) => with_place(rule, lowered_place(gone, place)),
        None => rule,
    }
}
