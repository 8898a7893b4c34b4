//! Primals.

use ct_words::Entry;
use std::marker::Model;

/// A solution of Delsarte's linear program for the codes of an entry over a common scale (Delsarte 1973; MacWilliams and Sloane,
/// chapter 17, section 4): numbers a_i / q in the place of the distance distribution of a code, where index 0 has 1. Contracts see the
/// pairs as a list.
#[derive(Drop)]
pub struct Primal {
    /// The entry whose duals it lies below.
    pub entry: Entry,
    /// Whether it speaks only of even distances; only where d is even and there is no weight.
    pub even: bool,
    /// The scale; a sound primal has at least 1.
    pub q: i64,
    /// The indices i of the range of the entry, ascending, with a_i, at least 0; at the others a_i is 0.
    pub a: Vec<(u32, i64)>,
}

impl Model for Primal {
    ghost use Rattle.ct_primal.specs.Primal.{PrimalValue};

    ghost Value = { PrimalValue };

    ghost view = { λ p. record { entry = p.entry; even = p.even; q = p.q; a = p.a.items } };
}
