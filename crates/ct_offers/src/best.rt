//! The best bound of a slot among those that rules offer.

ghost use Rattle.std.specs.Prelude.{◌≡◌, ℕ, List, Some, None};
ghost use Rattle.ct_words.specs.declared.entry.Entry.{Entry};
ghost use Rattle.ct_words.specs.Entry.{IsEntry};
ghost use Rattle.ct_rule_parts.specs.declared.support.Support.{Support};
ghost use Rattle.ct_rule_parts.specs.Slot.{Slot, IsNoBetter};
ghost use Rattle.ct_rules.specs.Rule.{rule_side};
ghost use Rattle.ct_slots.specs.Number.{bound_of};
ghost use Rattle.ct_offers.specs.Offers.{value_over};
ghost use Rattle.ct_offers.specs.Inside.Pulled.{IsPulled};

use ct_rules::Rule;
use ct_slots::{Bounds, is_better};
use ct_words::{Entry, Side};

/// The best bound of a slot that was found so far, and the rule that gives it, none where it is the one that stands.
#[derive(Clone, Copy)]
pub struct Best {
    /// The bound.
    pub value: u32,
    /// The rule that gives it.
    pub rule: Option<Rule>,
}

impl Best {
    /// What stands on a side of an entry of the table.
    pub(crate) fn standing(bounds: &Bounds, side: Side, entry: Entry) -> Best
        requires { IsEntry entry }
        ensures value { result.value ≡ bound_of bounds.now (side, entry) }
        ensures rule { result.rule ≡ None }
    {
        Best {
            value: bounds.bound(side, entry),
            rule: None,
        }
    }

    /// Takes the bound that a rule offers from its side, where it offers one that is better.
    pub(crate) fn consider(&mut self, side: Side, rule: Rule, offer: Option<u32>)
        ensures pulled { (supports : List Support) (bounds : Slot → ℕ) (e : Entry) → rule_side rule ≡ side →
            offer ≡ value_over supports bounds rule e → IsPulled supports bounds (side, e) self.old self.new }
        ensures within { (v : ℕ) → offer ≡ Some v → IsNoBetter side v self.new.value }
    {
        let Some(value) = offer else {
            return;
        };
        if is_better(side, value, self.value) {
            *self = Best {
                value,
                rule: Some(rule),
            };
        }
    }
}
