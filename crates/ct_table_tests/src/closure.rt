//! Numbers of slots, and closed tables, by hand.

ghost use Rattle.std.specs.Prelude.{◌<◌, ◌^◌, IfOk, length};
ghost use Rattle.ct_slots.specs.Places.{AreSupportPlaces};
ghost use Rattle.ct_rule_parts.specs.Support.{AllStand};

use crate::known::{CODES, NUMBERS, entry_at, support_of};
use ct_rules::Support;
use ct_slots::{ENTRIES, SLOTS, SupportPlaces, slot_number};
use ct_table::{Closing, close};
use ct_words::{Entry, Side};
use std::alloc::{AllocError, Global};
use std::process::Abort;
use std::test::Fail;

/// An entry, and its number on the side of lower bounds.
type Numbered = (u32, u32, Option<u32>, usize);

/// The first and the last entries of the table, by hand: at each length n the 28 distances without weight come first, and then
/// n + 1 weights for each of 14 even distances. 7308 entries are shorter than 30: 29 times 28, and 14 times the 464 pairs of a
/// length from 1 to 29 and a weight.
const NUMBERED: [Numbered; 13] = [
    (1, 3, None, 0),
    (1, 4, None, 1),
    (1, 30, None, 27),
    (1, 4, Some(0), 28),
    (1, 4, Some(1), 29),
    (1, 6, Some(0), 30),
    (1, 30, Some(1), 55),
    (2, 3, None, 56),
    (2, 4, Some(0), 84),
    (30, 3, None, 7308),
    (30, 30, None, 7335),
    (30, 4, Some(0), 7336),
    (30, 30, Some(30), 7769),
];

/// Whether both sides of the entry have their numbers.
fn has_numbers((n, d, w, want): Numbered) -> bool {
    let entry = Entry { n, d, w };
    entry.in_table()
        && slot_number(Side::Lower, entry) == want
        && want.checked_add(7770) == Some(slot_number(Side::Upper, entry))
}

#[test]
fn numbers_of_slots(rt: HostRuntime) {
    for row in &NUMBERED {
        assert!(rt; has_numbers(*row), "{row:?}");
    }
}

// 30 lengths and 28 distances without weight; 14 even distances and 495 pairs of a length and a weight. No two slots have one
// number, so that each number below `SLOTS` is one of a slot.
#[test]
fn count_of_slots(rt: HostRuntime) {
    let mut count: usize = 0;
    for number in 0..NUMBERS {
        if entry_at(number).in_table() {
            count = count.saturating_add(1);
        }
    }
    assert!(rt; count == 7770);
    assert!(rt; ENTRIES == count && SLOTS == 2 * 7770);
}

/// The places of the supports.
fn places_of(alloc: Global, supports: &[Support]) -> Result<SupportPlaces, AllocError>
    requires { length supports.now < 2 ^ 32 }
    ensures { IfOk result (AreSupportPlaces supports.now) }
{
    let mut places = SupportPlaces::none(alloc)?;
    for support in supports {
        places.add(support)?;
    }
    Ok(places)
}

/// The bounds closed over the supports.
fn closed(alloc: Global, supports: &[Support]) -> Result<Closing, AllocError>
    requires few { length supports.now < 2 ^ 32 }
    requires stand { AllStand supports.now }
{
    let places = places_of(alloc, supports)?;
    let mut closing = Closing::start(alloc)?;
    close(alloc, supports, &places, &mut closing)?;
    Ok(closing)
}

/// A length, a distance, and a lower bound.
type Known = (u32, u32, u32);

/// Whether this lower bound stands at A(n,d).
fn has_lower(closing: &Closing, (n, d, want): Known) -> bool {
    let entry = Entry { n, d, w: None };
    entry.in_table() && closing.kept.bound(Side::Lower, entry) == want
}

/// These lower bounds stand.
fn assert_lower(rt: &impl Abort, closing: &Closing, rows: &[Known]) {
    for row in rows {
        assert!(rt; has_lower(closing, *row), "{row:?}");
    }
}

/// Over no supports, by hand. One word is at A(1,3), and two where d ≤ n. By u followed by u + v, with all u of even weight, A(6,4)
/// has 2^2, A(8,4) has 2^3 · 2, A(12,4) has 2^5 · 2^2 and A(16,4) has 2^7 · 2^4 words; with u of half the distance, A(16,8) has
/// 2^4 · 2 and A(24,8) has 2^7 · 2^2. Less a place, they give A(5,3), A(7,3) and A(15,3).
const OVER_NOTHING: [Known; 12] = [
    (1, 3, 1),
    (3, 3, 2),
    (30, 30, 2),
    (5, 3, 4),
    (6, 4, 4),
    (7, 3, 16),
    (8, 4, 16),
    (12, 4, 128),
    (15, 3, 2048),
    (16, 4, 2048),
    (16, 8, 32),
    (24, 8, 512),
];

#[test]
fn closes_over_no_supports(rt: HostRuntime) -> Result<(), Fail> {
    let closing = closed(rt.alloc(), &[])?;
    assert_lower(&rt, &closing, &OVER_NOTHING);
    Ok(())
}

/// The Golay code of 4096 words at A(24,8) is one at A(24,7), and less a place gives as many at A(23,7). Its words
/// that begin with the same digit give half as many at A(23,8) and A(22,7).
const OVER_GOLAY: [Known; 6] = [
    (24, 8, 4096),
    (24, 7, 4096),
    (23, 7, 4096),
    (23, 8, 2048),
    (22, 7, 2048),
    (12, 4, 128),
];

#[test]
fn closes_over_a_support(rt: HostRuntime) -> Result<(), Fail> {
    let supports = [support_of(&rt, rt.alloc(), CODES[0], 0)?];
    let closing = closed(rt.alloc(), &supports)?;
    assert_lower(&rt, &closing, &OVER_GOLAY);
    Ok(())
}
