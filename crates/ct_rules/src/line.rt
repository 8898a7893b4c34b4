//! The lines of derivations.

use crate::rule::Rule;
use ct_words::Claim;
use smallvec::SmallVec;
use std::marker::Model;

/// A line of a derivation: a claim, the rule that gives it, and the places, from 0, of the lines whose claims are the
/// rule's premises, in their order.
pub struct Line {
    /// What is claimed.
    pub claim: Claim,
    /// The rule that gives the claim.
    pub rule: Rule,
    /// The places of the lines that the rule rests on, each below the line's own. Up to two take no memory.
    pub from: SmallVec<usize, 2>,
}

impl Drop for Line {
    fn drop(self) {
        let Line {
            claim: _,
            rule: _,
            from: _,
        } = self;
    }
}

impl Model for Line {
    ghost use Rattle.ct_rules.specs.Derivation.{LineValue};

    ghost Value = { LineValue };

    ghost view = { λ l. record { claim = l.claim; rule = l.rule; from = l.from.items } };
}
