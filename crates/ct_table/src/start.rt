//! How a table begins: over no supports, where it is the base of every table, and over its first supports.

ghost use Rattle.std.specs.Prelude.{◌≡◌, ◌<◌, ◌^◌, [], List, All, IfOk, OnOk, length, map};
ghost use Rattle.ct_rule_parts.specs.Slot.{Slot};
ghost use Rattle.ct_rule_parts.specs.Support.{AllStand};
ghost use Rattle.ct_rules.specs.Closed.{IsClosed};
ghost use Rattle.ct_table.specs.Closing.{IsClosing};
ghost use Rattle.ct_kept.specs.Kept.{IsKept};
ghost use Rattle.ct_slots.specs.Number.{bound_of};
ghost use Rattle.ct_slots.specs.Places.{entry_of_support, AreSupportPlaces};
ghost use Rattle.ct_slots.specs.Worklist.{IsMarked};
ghost use Rattle.ct_table.specs.Inside.Starting.{IsBegun, IsMarkedIfGiven};

use crate::closing::{Closing, close};
use ct_rules::Support;
use ct_slots::{SupportPlaces, Worklist, entry_of_support, side_of_support};
use std::alloc::{AllocError, Global};

/// What is kept of no supports, which have no places, closed under the rules. `Err` is want of memory.
pub(crate) fn begin(alloc: Global, places: &SupportPlaces) -> Result<Closing, AllocError>
    requires { places.now ≡ [] }
    ensures { IfOk result (λ closing. IsBegun closing) }
{
    let mut closing = Closing::start(alloc)?;
    close(alloc, &[], places, &mut closing)?;
    Ok(closing)
}

/// Marks the slot to which the support gives something. After an `Err`, which is want of memory, nothing changes.
pub(crate) fn mark_given(work: &mut Worklist, support: &Support) -> Result<(), AllocError>
    ensures given { OnOk result (IsMarkedIfGiven work.new support.now) }
    ensures kept { (t : Slot) → IsMarked work.old t → IsMarked work.new t }
{
    let Some(entry) = entry_of_support(support) else {
        return Ok(());
    };
    work.mark(side_of_support(support), entry)?;
    Ok(())
}

/// Puts each support into the places, which are none so far, and marks the slot to which it gives something. `Err` is want of
/// memory.
fn place_supports(
    places: &mut SupportPlaces,
    work: &mut Worklist,
    supports: &[Support],
) -> Result<(), AllocError>
    requires few { length supports.now < 2 ^ 32 }
    requires none { places.old ≡ [] }
    ensures places { OnOk result (places.new ≡ map entry_of_support supports.now) }
    ensures marked { OnOk result (All (IsMarkedIfGiven work.new) supports.now) }
{
    for support in supports {
        places.add(support)?;
        mark_given(work, support)?;
    }
    Ok(())
}

/// Closes what was closed over no supports over these. `Err` is want of memory.
pub(crate) fn close_over(
    alloc: Global,
    supports: &[Support],
    places: &mut SupportPlaces,
    closing: &mut Closing,
) -> Result<(), AllocError>
    requires stand { AllStand supports.now }
    requires few { length supports.now < 2 ^ 32 }
    requires none { places.old ≡ [] }
    requires kept { IsKept [] closing.old.kept }
    requires closed { IsClosed [] (bound_of closing.old.kept.bounds) }
    ensures places { OnOk result (AreSupportPlaces supports.now places.new) }
    ensures closed { OnOk result (IsClosing supports.now closing.old closing.new) }
{
    place_supports(places, &mut closing.work, supports)?;
    close(alloc, supports, places, closing)
}
