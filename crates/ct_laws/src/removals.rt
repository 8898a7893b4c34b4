//! What it means to take out the items at some places.

ghost use Rattle.std.specs.Prelude.{◌≡◌, ◌-◌, ℕ, List, Some, true, false, if◌then◌else◌, nat_lt, remove, slice_get};
ghost use Rattle.ct_rule_parts.specs.declared.support.Support.{Support};
ghost use Rattle.ct_rules.specs.Removal.{Places, without, only, lowered_place};

/// An item that is not taken out is found at its lowered place, and each that is left was at such a place. The set of one
/// place takes out the item there, and the later ones move down by one.
pub fn removal_of_places()
    ensures stays { (gone : Places) (xs : List Support) (p : ℕ) (x : Support) → gone p ≡ false →
        slice_get xs p ≡ Some x → slice_get (without gone xs) (lowered_place gone p) ≡ Some x }
    ensures was { (gone : Places) (xs : List Support) (q : ℕ) (x : Support) → slice_get (without gone xs) q ≡ Some x →
        (p : ℕ) × (gone p ≡ false) × (slice_get xs p ≡ Some x) × (lowered_place gone p ≡ q) }
    ensures one { (place : ℕ) (xs : List Support) → without (only place) xs ≡ remove xs place }
    ensures one_place { (place p : ℕ) → lowered_place (only place) p ≡ (if nat_lt place p then p - 1 else p) }
{}
