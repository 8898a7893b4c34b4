//! The parts of pieces of evidence.

ghost use Rattle.std.specs.Prelude.{◌≡◌, ◌<◌, ℕ, List, Some, IfOk, length, slice_get};

use smallvec::SmallVec;
use std::alloc::{AllocError, Global};
use std::marker::Model;

/// What tells the parts of pieces of evidence, each piece by its place.
pub trait PieceParts {
    ghost parts_of: { Self → List (List ℕ) };

    /// How many pieces there are.
    fn count(&self) -> usize
        ensures { result ≡ length (parts_of self.now) };

    /// The parts of the piece at the place. `Err` is want of memory.
    fn parts(&self, alloc: Global, place: usize) -> Result<Parts, AllocError>
        requires { place < length (parts_of self.now) }
        ensures { IfOk result (λ parts. slice_get (parts_of self.now) place ≡ Some parts) };
}

/// The places of the parts of a piece of evidence, among the pieces before it. Contracts see them as a list.
pub struct Parts {
    places: SmallVec<usize, 2>,
}

impl Drop for Parts {
    fn drop(self) {
        let Parts { places: _ } = self;
    }
}

impl Model for Parts {
    ghost use Rattle.std.specs.Prelude.{ℕ, List};

    ghost Value = { List ℕ };

    ghost view = { λ p. p.places.items };
}

impl Parts {
    /// Parts at these places.
    pub fn new(places: SmallVec<usize, 2>) -> Parts
        ensures { result ≡ places.items }
    {
        Parts { places }
    }

    /// The places.
    pub fn places(&self) -> &[usize]
        ensures { result.now ≡ self.now }
    {
        self.places.as_slice()
    }
}
