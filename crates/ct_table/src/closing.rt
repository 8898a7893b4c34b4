//! Closing a table under the rules.

ghost use Rattle.std.specs.Prelude.{◌≡◌, ◌≤◌, List, true, OnOk, OnErr, IfOk, map};
ghost use Rattle.ct_words.specs.Entry.{IsEntry};
ghost use Rattle.ct_rule_parts.specs.Entries.{listed};
ghost use Rattle.ct_rule_parts.specs.Parts.{are_entries, slots_on};
ghost use Rattle.ct_rule_parts.specs.declared.support.Support.{Support};
ghost use Rattle.ct_rule_parts.specs.Support.{AllStand};
ghost use Rattle.ct_rules.specs.declared.rule.Rule.{Rule};
ghost use Rattle.ct_rules.specs.Closed.{AreTrue};
ghost use Rattle.ct_rules.specs.Rule.{rule_side, applies, parts_over};
ghost use Rattle.ct_slots.specs.Number.{bound_of};
ghost use Rattle.ct_slots.specs.Places.{AreSupportPlaces};
ghost use Rattle.ct_slots.specs.Worklist.{IsIdle};
ghost use Rattle.ct_kept.specs.Kept.{IsKept, Grew, with_line_put, reason_of};
ghost use Rattle.ct_offers.specs.Offers.{IsGiven, IsWithin};
ghost use Rattle.ct_offers.specs.Inside.Marking.{KeepsMarks, AreTested};
ghost use Rattle.ct_table.specs.Closing.{IsPending, CanClose, IsClosing, HasMoreLines};
ghost use Rattle.ct_table.specs.Inside.Turn.{IsPendingBut, line_by, potential};

use ct_kept::Kept;
use ct_offers::{Best, best_offer, mark_dependents};
use ct_rules::{Entries, Line, Rule, Support, rests_on, rule_side};
use ct_slots::{SupportPlaces, Worklist, mark_unsettled};
use ct_words::{Claim, Entry, Side};
use smallvec::SmallVec;
use std::alloc::{AllocError, Global};
use std::marker::Model;

/// What changes while a table is closed: what it keeps, the slots that are still to be looked at, and how often a rule's value
/// was asked for.
#[derive(Drop)]
pub struct Closing {
    /// What the table keeps.
    pub kept: Kept,
    /// The slots that are still to be looked at.
    pub work: Worklist,
    /// How often a rule's value was asked for.
    pub evaluations: u64,
}

impl Model for Closing {
    ghost use Rattle.ct_table.specs.Closing.{ClosingValue};

    ghost Value = { ClosingValue };

    ghost view = { λ c. record { kept = c.kept; work = c.work; evaluations = c.evaluations } };
}

impl Closing {
    /// What rests on nothing, where every slot is still to be looked at, but those of entries whose bounds are one. `Err` is want of
    /// memory.
    pub fn start(alloc: Global) -> Result<Closing, AllocError>
        ensures kept { IfOk result (λ closing. (supports : List Support) → IsKept supports closing.kept) }
        ensures base { IfOk result (λ closing. closing.kept.base ≡ 0) }
        ensures pending { IfOk result (λ closing. (supports : List Support) → AllStand supports → IsPending supports closing.kept.bounds closing.work) }
    {
        let kept = Kept::start(alloc)?;
        let mut work = Worklist::none(alloc)?;
        mark_unsettled(&mut work, kept.bounds())?;
        Ok(Closing {
            kept,
            work,
            evaluations: 0,
        })
    }
}

/// The places of the lines that give the bounds of the entries of the table, from a side, in order.
fn reasons(
    alloc: Global,
    kept: &Kept,
    side: Side,
    entries: Entries,
) -> Result<SmallVec<usize, 2>, AllocError>
    requires { are_entries (listed entries) ≡ true }
    ensures { IfOk result (λ from. from.items ≡ map (reason_of kept.now) (slots_on side (listed entries.entry))) }
{
    if let Entries::One(first) = entries {
        return Ok(SmallVec::from_buf_and_len(alloc, [kept.reason(side, first), 0], 1));
    }
    let mut from = SmallVec::new(alloc);
    for place in 0..entries.len() {
        let Some(entry) = entries.get(place) else {
            return Ok(from);
        };
        from.push(kept.reason(side, entry))?;
    }
    Ok(from)
}

/// The entries whose bounds the rule rests on at an entry where it is defined, in order.
#[inline(always)]
fn premises_of(supports: &[Support], rule: Rule, entry: Entry) -> Entries<'_>
    requires { applies supports.now rule entry ≡ true }
    ensures premises { listed result ≡ (parts_over supports.now rule).rests_on entry }
    ensures in_table { are_entries (listed result) ≡ true }
{
    let Some(premises) = rests_on(supports, rule, entry) else {
        unreachable!()
    };
    premises
}

/// Puts the line by which the rule gives the bound. After an `Err`, which is want of memory, all is as before.
fn improve(
    alloc: Global,
    supports: &[Support],
    kept: &mut Kept,
    rule: Rule,
    entry: Entry,
    value: u32,
) -> Result<(), AllocError>
    requires entry { IsEntry entry }
    requires defined { applies supports.now rule entry ≡ true }
    ensures improved { OnOk result (kept.new ≡ with_line_put kept.old (line_by supports.now kept.old rule entry value)) }
    ensures unchanged { OnErr result (kept.new ≡ kept.old) }
{
    let side = rule_side(rule);
    let premises = premises_of(supports, rule, entry);
    let from = reasons(alloc, kept, side, premises)?;
    kept.put(Line {
        claim: Claim { side, entry, value },
        rule,
        from,
    })
}

/// The best bound that any rule gives on a side of an entry of the table over what is kept.
fn pull(
    supports: &[Support],
    places: &SupportPlaces,
    kept: &Kept,
    side: Side,
    entry: Entry,
    evaluations: &mut u64,
) -> Best
    requires entry { IsEntry entry }
    requires stand { AllStand supports.now }
    requires kept { IsKept supports.now kept.now }
    requires places { AreSupportPlaces supports.now places.now }
    ensures given { IsGiven supports.now (bound_of kept.now.bounds) (side, entry) result.value result.rule }
    ensures within { (r : Rule) → rule_side r ≡ side → IsWithin supports.now (bound_of kept.now.bounds) (side, entry) result.value r }
{
    best_offer(supports, places, kept.bounds(), side, entry, evaluations)
}

/// Marks the slots that rest on this one, where a rule gives something better there over what is kept. After an `Err`, which is
/// want of memory, some may be marked.
fn mark_from(
    supports: &[Support],
    places: &SupportPlaces,
    kept: &Kept,
    work: &mut Worklist,
    side: Side,
    entry: Entry,
    evaluations: &mut u64,
) -> Result<(), AllocError>
    requires entry { IsEntry entry }
    requires places { AreSupportPlaces supports.now places.now }
    requires stand { AllStand supports.now }
    requires true_bounds { AreTrue (bound_of kept.now.bounds) }
    ensures tested { OnOk result (AreTested supports.now kept.now.bounds work.new (side, entry)) }
    ensures kept { KeepsMarks work.old work.new }
{
    mark_dependents(
        supports,
        places,
        kept.bounds(),
        work,
        side,
        entry,
        evaluations,
    )
}

/// Looks at a slot: where a rule gives a better bound there, the best is put with its line, and the slots that rest on this one
/// and have something better are marked. After an `Err`, which is want of memory, lines may have been put at the end.
fn turn(
    alloc: Global,
    supports: &[Support],
    places: &SupportPlaces,
    kept: &mut Kept,
    work: &mut Worklist,
    side: Side,
    entry: Entry,
    evaluations: &mut u64,
) -> Result<(), AllocError>
    requires entry { IsEntry entry }
    requires stand { AllStand supports.now }
    requires places { AreSupportPlaces supports.now places.now }
    requires kept { IsKept supports.now kept.now }
    requires pending { IsPendingBut (side, entry) supports.now kept.now.bounds work.now }
    ensures kept { OnOk result (IsKept supports.now kept.new) }
    ensures grew { OnOk result (Grew kept.old kept.new) }
    ensures pending { OnOk result (IsPending supports.now kept.new.bounds work.new) }
    ensures potential { OnOk result (potential kept.new.bounds work.new ≤ potential kept.old.bounds work.old) }
    ensures lines { HasMoreLines kept.old kept.new }
{
    // It always is. Asked once, most of it need not be asked of each entry that a rule makes of this one.
    if !entry.in_table() {
        return Ok(());
    }
    let best = pull(supports, places, kept, side, entry, evaluations);
    let Some(rule) = best.rule else {
        return Ok(());
    };
    improve(alloc, supports, kept, rule, entry, best.value)?;
    mark_from(supports, places, kept, work, side, entry, evaluations)?;
    work.waits_for_few();
    Ok(())
}

/// Takes slots until none is marked.
fn run(
    alloc: Global,
    supports: &[Support],
    places: &SupportPlaces,
    kept: &mut Kept,
    work: &mut Worklist,
    evaluations: &mut u64,
) -> Result<(), AllocError>
    requires stand { AllStand supports.now }
    requires places { AreSupportPlaces supports.now places.now }
    requires kept { IsKept supports.now kept.now }
    requires pending { IsPending supports.now kept.now.bounds work.now }
    ensures kept { OnOk result (IsKept supports.now kept.new) }
    ensures grew { OnOk result (Grew kept.old kept.new) }
    ensures idle { OnOk result (IsIdle work.new) }
    ensures pending { OnOk result (IsPending supports.now kept.new.bounds work.new) }
    ensures lines { HasMoreLines kept.old kept.new }
{
    while let Some((side, entry)) = work.take() {
        turn(
            alloc,
            supports,
            places,
            kept,
            work,
            side,
            entry,
            evaluations,
        )?;
    }
    Ok(())
}

/// Takes slots until none is marked, and follows what is improved: then no rule gives anything better than what stands. After an
/// `Err`, which is want of memory, lines may have been put at the end.
pub fn close(
    alloc: Global,
    supports: &[Support],
    places: &SupportPlaces,
    closing: &mut Closing,
) -> Result<(), AllocError>
    requires closing { CanClose supports.now closing.now }
    requires places { AreSupportPlaces supports.now places.now }
    ensures closed { OnOk result (IsClosing supports.now closing.old closing.new) }
    ensures lines { HasMoreLines closing.old.kept closing.new.kept }
{
    run(
        alloc,
        supports,
        places,
        &mut closing.kept,
        &mut closing.work,
        &mut closing.evaluations,
    )?;
    Ok(())
}
