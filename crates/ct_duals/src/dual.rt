//! Duals of Delsarte's linear program.
ghost use Rattle.std.specs.Prelude.{◌≡◌, length, IfOk};
ghost use Rattle.ct_duals.specs.Bound.{positive, dual_premises};

use ct_words::{Entry, Listed};
use std::alloc::AllocError;

/// The multipliers of a dual: c_0, c_1 and so on, as far as they are given; the others are 0.
pub type Multipliers = Listed<i64>;

/// What a dual allows at some indices, each with the number that is allowed there; at the others it is 0.
pub type Allowances = Listed<(u32, i64)>;

/// A dual of Delsarte's linear program for the codes of an entry (Delsarte 1973; MacWilliams and Sloane, chapter 17,
/// section 4): a combination of the rows of the entry's scheme that is at most what is allowed at each index that two
/// words of a code can have.
pub struct Dual {
    /// The entry whose codes it bounds.
    pub entry: Entry,
    /// Whether it speaks only of even distances; only where d is even and there is no weight.
    pub even: bool,
    /// The multipliers of the rows of the scheme.
    pub c: Multipliers,
    /// What is allowed, at indices: the distances of words, and with a weight their halves.
    pub y: Allowances,
}

impl Drop for Dual {
    fn drop(self) {
        let Dual {
            entry: _,
            even: _,
            c: _,
            y: _,
        } = self;
    }
}

impl Dual {
    /// How many upper bounds its own rests on: one for each index where more than 0 is allowed.
    pub fn premise_count(&self) -> usize
        ensures { result ≡ length (dual_premises self.now) }
    {
        positive_count(self.y.as_slice())
    }

    /// The same dual once more. `Err` is want of memory.
    pub fn try_copy(&self) -> Result<Dual, AllocError>
        ensures { IfOk result (λ dual. dual ≡ self.now) }
    {
        let c = self.c.try_copy()?;
        let y = self.y.try_copy()?;
        Ok(Dual {
            entry: self.entry,
            even: self.even,
            c,
            y,
        })
    }
}

fn positive_count(y: &[(u32, i64)]) -> usize
    ensures { result ≡ length (positive y.now) }
{
    let mut count = 0;
    for (_, number) in y {
        count += usize::from(*number > 0);
    }
    count
}
