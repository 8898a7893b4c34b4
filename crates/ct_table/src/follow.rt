//! What a new support changes: nothing where it betters nothing, else what rests on its entry is closed again.

ghost use Rattle.std.specs.Prelude.{◌≡◌, ◌+◌, ◌<◌, ◌≤◌, ◌^◌, ◌++◌, ◌∷◌, [], ℕ, List, Some, false, OnOk, OnErr, length, slice_get};
ghost use Rattle.ct_words.specs.Entry.{IsEntry};
ghost use Rattle.ct_rule_parts.specs.declared.support.Support.{Support};
ghost use Rattle.ct_rule_parts.specs.Support.{AllStand};
ghost use Rattle.ct_rules.specs.Closed.{IsClosed};
ghost use Rattle.ct_table.specs.Closing.{CanClose, IsClosing, HasMoreLines};
ghost use Rattle.ct_kept.specs.Kept.{IsKept};
ghost use Rattle.ct_slots.specs.Number.{bound_of};
ghost use Rattle.ct_slots.specs.Places.{AreSupportPlaces};
ghost use Rattle.ct_slots.specs.Worklist.{IsIdle};
ghost use Rattle.ct_offers.specs.Offers.{IsWithin};
ghost use Rattle.ct_offers.specs.Inside.Pulled.{given_rule};
ghost use Rattle.ct_table.specs.Inside.Starting.{CanFollow};

use crate::closing::{Closing, close};
use crate::start::mark_given;
use ct_kept::Kept;
use ct_offers::{given_rule, offer};
use ct_rules::Support;
use ct_slots::{Bounds, SupportPlaces, entry_of_support, is_better, side_of_support};
use ct_words::{Entry, Side};
use std::alloc::{AllocError, Global};

/// Whether the support at a place gives a better bound on a side of an entry of the table than stands there.
fn is_bettered(supports: &[Support], bounds: &Bounds, side: Side, entry: Entry, place: u32) -> bool
    requires { IsEntry entry }
    ensures { result ≡ false → IsWithin supports.now (bound_of bounds.now) (side, entry) (bound_of bounds.now (side, entry)) (given_rule (slice_get supports.now place) (side, entry) place) }
{
    match offer(
        supports,
        bounds,
        given_rule(supports, side, entry, place),
        entry,
    ) {
        Some(value) => is_better(side, value, bounds.bound(side, entry)),
        None => false,
    }
}

/// Whether the support at a place betters the bound on a side of an entry of the table.
fn betters(supports: &[Support], kept: &Kept, side: Side, entry: Entry, place: u32) -> bool
    requires { IsEntry entry }
    ensures { result ≡ false → IsWithin supports.now (bound_of kept.now.bounds) (side, entry) (bound_of kept.now.bounds (side, entry)) (given_rule (slice_get supports.now place) (side, entry) place) }
{
    is_bettered(supports, kept.bounds(), side, entry, place)
}

/// Closes over the supports, of which the one at the place is new. After an `Err`, which is want of memory, lines may have been
/// put at the end.
fn close_again(
    alloc: Global,
    supports: &[Support],
    places: &SupportPlaces,
    closing: &mut Closing,
    place: u32,
) -> Result<(), AllocError>
    requires new { CanFollow supports.now place closing.now }
    requires places { AreSupportPlaces supports.now places.now }
    ensures closed { OnOk result (IsClosing supports.now closing.old closing.new) }
    ensures lines { HasMoreLines closing.old.kept closing.new.kept }
{
    mark_given(&mut closing.work, &supports[place as usize])?;
    close(alloc, supports, places, closing)
}

/// Closes over the supports, of which the one at the place, the last, is new, where it betters anything. After an `Err`, which is
/// want of memory, what is kept is as before.
pub(crate) fn follow(
    alloc: Global,
    supports: &[Support],
    places: &SupportPlaces,
    closing: &mut Closing,
    place: u32,
) -> Result<(), AllocError>
    requires new { CanFollow supports.now place closing.now }
    requires places { AreSupportPlaces supports.now places.now }
    ensures closed { OnOk result (IsClosing supports.now closing.old closing.new) }
    ensures unchanged { OnErr result (closing.new.kept ≡ closing.old.kept) }
    ensures idle { OnErr result (IsIdle closing.new.work) }
{
    let support = &supports[place as usize];
    let Some(entry) = entry_of_support(support) else {
        return Ok(());
    };
    let side = side_of_support(support);
    closing.evaluations = closing.evaluations.saturating_add(1);
    if !betters(supports, &closing.kept, side, entry, place) {
        return Ok(());
    }
    let saved = closing.kept.save(alloc)?;
    let done = close_again(alloc, supports, places, closing, place);
    if done.is_err() {
        closing.work.clear();
        closing.kept.restore(saved);
    }
    done
}
