//! What evidence gives to the table.

ghost use Rattle.std.specs.Prelude.{◌≡◌, slice_get, option_map, Some};
ghost use Rattle.ct_rule_parts.specs.Support.{OddValue, size_at, dual_at, odd_at, local_at, dual_behind};

use crate::local_dual::LocalDual;
use ct_duals::AcceptedDual;
use ct_words::Entry;

/// What a piece of evidence gives to the table.
#[derive(Drop)]
pub enum Support {
    /// Nothing by itself.
    Nothing,
    /// A code.
    Size {
        /// The entry of which it is a code.
        entry: Entry,
        /// How many words it has, from 1 to `MAX_BOUND`.
        size: u32,
    },
    /// An upper bound of the entry of a dual that was accepted, from those that the dual rests on.
    Bound(AcceptedDual),
    /// That no code of the entry of an accepted dual has `m` words or more, where the dual's f adds up to more over any `m` words,
    /// `m` odd, than over such a code, by the upper bounds that the dual rests on.
    Odd {
        /// The dual.
        dual: AcceptedDual,
        /// The number of words that may be excluded; nothing is given where it is even, below 3 or above 1,048,575.
        m: u32,
    },
    /// An upper bound of the entry of a dual that was accepted, which has a weight, from those of the entries A(n,d,2i) and bounds of doubly
    /// constant codes.
    Local(LocalDual),
}

/// An accepted dual, and the number of words that parity may exclude by it.
#[derive(Clone, Copy)]
pub struct OddDual<'a> {
    /// The dual.
    pub dual: &'a AcceptedDual,
    /// The number of words.
    pub m: u32,
}

/// The size that the support at the place gives at the entry, where there is one and it gives one.
pub fn size_at(supports: &[Support], place: usize, entry: Entry) -> Option<u32>
    ensures { result ≡ size_at (slice_get supports.now place) entry }
{
    match supports.get(place)? {
        Support::Size { entry: other, size } if *other == entry => Some(*size),
        _ => None,
    }
}

/// The dual whose bound the support gives at the entry, where it gives one.
fn dual_of(support: &Support, entry: Entry) -> Option<&AcceptedDual>
    ensures { option_map (λ dual. dual.now) result ≡ dual_at (Some support.now) entry }
{
    match support {
        Support::Nothing | Support::Size { .. } | Support::Odd { .. } | Support::Local(_) => None,
        Support::Bound(dual) => {
            if dual.entry() == entry {
                Some(dual)
            } else {
                None
            }
        }
    }
}

/// The dual whose bound the support at the place gives at the entry, where there is one and it gives one.
pub fn dual_at(supports: &[Support], place: usize, entry: Entry) -> Option<&AcceptedDual>
    ensures { option_map (λ dual. dual.now) result ≡ dual_at (slice_get supports.now place) entry }
{
    dual_of(supports.get(place)?, entry)
}

/// The dual by which the support may exclude a number of words at the entry, with that number, where it has such.
fn odd_of(support: &Support, entry: Entry) -> Option<OddDual<'_>>
    ensures { option_map (λ odd. record { accepted = odd.dual.now; m = odd.m }) result ≡ odd_at (Some support.now) entry }
{
    match support {
        Support::Nothing | Support::Size { .. } | Support::Bound(_) | Support::Local(_) => None,
        Support::Odd { dual, m } => {
            if dual.entry() == entry {
                Some(OddDual { dual, m: *m })
            } else {
                None
            }
        }
    }
}

/// The dual by which the support at the place may exclude a number of words at the entry, with that number, where there is one and
/// it has such.
pub fn odd_at(supports: &[Support], place: usize, entry: Entry) -> Option<OddDual<'_>>
    ensures { option_map (λ odd. record { accepted = odd.dual.now; m = odd.m }) result ≡ odd_at (slice_get supports.now place) entry }
{
    odd_of(supports.get(place)?, entry)
}

/// The dual whose local bound the support gives at the entry, where it gives one.
fn local_of(support: &Support, entry: Entry) -> Option<&LocalDual>
    ensures { option_map (λ dual. dual.now) result ≡ local_at (Some support.now) entry }
{
    match support {
        Support::Nothing | Support::Size { .. } | Support::Bound(_) | Support::Odd { .. } => None,
        Support::Local(dual) => {
            if dual.dual().entry() == entry {
                Some(dual)
            } else {
                None
            }
        }
    }
}

/// The dual whose local bound the support at the place gives at the entry, where there is one and it gives one.
pub fn local_at(supports: &[Support], place: usize, entry: Entry) -> Option<&LocalDual>
    ensures { option_map (λ dual. dual.now) result ≡ local_at (slice_get supports.now place) entry }
{
    local_of(supports.get(place)?, entry)
}

/// The dual that the support has at the entry, whatever it gives by it.
fn behind(support: &Support, entry: Entry) -> Option<&AcceptedDual>
    ensures { option_map (λ dual. dual.now) result ≡ dual_behind (Some support.now) entry }
{
    match support {
        Support::Nothing | Support::Size { .. } => None,
        Support::Bound(dual) | Support::Odd { dual, .. } => {
            if dual.entry() == entry {
                Some(dual)
            } else {
                None
            }
        }
        Support::Local(dual) => {
            if dual.dual().entry() == entry {
                Some(dual.dual())
            } else {
                None
            }
        }
    }
}

/// The dual that the support at the place has at the entry, whatever it gives by it, where there is one.
pub fn dual_behind(supports: &[Support], place: usize, entry: Entry) -> Option<&AcceptedDual>
    ensures { option_map (λ dual. dual.now) result ≡ dual_behind (slice_get supports.now place) entry }
{
    behind(supports.get(place)?, entry)
}
