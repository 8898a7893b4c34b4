//! What the finder answers.

use ct_duals::Dual;
use ct_primal::Primal;

/// A dual that was found and checked, its bound, and how the run stopped.
#[derive(Drop)]
pub struct Found {
    /// The dual. It is accepted, and allows nothing.
    pub dual: Dual,
    /// Its bound.
    pub bound: u32,
    /// How the run stopped.
    pub stop: Stop,
}

/// How a run stopped.
#[derive(Drop)]
pub enum Stop {
    /// With the least bound, which this primal shows: no dual of the entry with the same mark that is accepted and allows nothing has a
    /// smaller one.
    Least(Primal),
    /// After so many pivots, as many as were asked for.
    Turns(u32),
    /// Before a pivot that would give this entry, or with a primal of which this is the first number in the order in which they are
    /// made; it is above 2^63 - 1 in absolute value.
    Wide(i128),
}
