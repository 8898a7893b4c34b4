//! Sizes of sum classes that are asked for again and again: those of a length and a weight are counted once.

ghost use Rattle.std.specs.Prelude.{◌≡◌, ◌<◌, ◌≤◌, length, IfOk, IfSome};
ghost use Rattle.ct_words.specs.declared.limits.TheConstants.{MAX_N};
ghost use Rattle.ct_sum_classes.specs.SumClass.{sum_class};

use ct_sum_classes::sum_class_sizes;
use ct_words::MAX_N;
use std::alloc::{AllocError, Global};
use std::marker::Model;

/// The sizes of the sum classes of one length and weight. Contracts see these two.
#[derive(Drop)]
struct WeightSizes {
    n: u32,
    w: u32,
    sizes: [u32; MAX_N as usize],
}

impl Model for WeightSizes {
    ghost use Rattle.std.specs.Prelude.{ℕ, ◌≡◌, ◌<◌, length, slice_index};
    ghost use Rattle.ct_sum_classes.specs.SumClass.{sum_class};

    ghost Value = { ℕ × ℕ };

    ghost view = { λ s. (s.n, s.w) };

    ghost invariant = { λ s. (r : ℕ) → r < s.n → slice_index s.sizes r ≡ length (sum_class s.n s.w r) };
}

impl WeightSizes {
    /// Those of the length and the weight, counted.
    fn counted(n: u32, w: u32) -> WeightSizes
        requires length { (1 ≤ n) × (n ≤ MAX_N) }
        requires weight { w ≤ n }
        ensures { result ≡ (n, w) }
    {
        WeightSizes {
            n,
            w,
            sizes: sum_class_sizes(n, w),
        }
    }

    /// How many words the class of the residue has.
    fn size(&self, residue: u32) -> u64
        requires length { self.now.0 ≤ MAX_N }
        requires residue { residue < self.now.0 }
        ensures { result ≡ length (sum_class self.now.0 self.now.1 residue) }
    {
        u64::from(self.sizes[residue as usize])
    }
}

/// Sizes of sum classes: those of each length and weight that were asked for. What it holds is no matter to contracts.
pub struct ClassSizes {
    counted: Vec<WeightSizes>,
}

impl Drop for ClassSizes {
    fn drop(self) {
        let ClassSizes { counted: _ } = self;
    }
}

impl ClassSizes {
    /// None so far.
    pub fn new(alloc: Global) -> ClassSizes {
        ClassSizes {
            counted: Vec::new(alloc),
        }
    }

    /// Those of the length and the weight, where they were asked for.
    fn known(&self, n: u32, w: u32) -> Option<&WeightSizes>
        ensures { IfSome result (λ sizes. sizes.now ≡ (n, w)) }
    {
        for sizes in &self.counted {
            if sizes.n == n && sizes.w == w {
                return Some(sizes);
            }
        }
        None
    }

    /// How many words have length n, from 1 to `MAX_N`, weight w up to n, and ones whose places add up to the residue modulo n, which is
    /// below n. `Err` is want of memory.
    pub fn size(&mut self, n: u32, w: u32, residue: u32) -> Result<u64, AllocError>
        requires length { (1 ≤ n) × (n ≤ MAX_N) }
        requires weight { w ≤ n }
        requires residue { residue < n }
        ensures { IfOk result (λ size. size ≡ length (sum_class n w residue)) }
    {
        if let Some(sizes) = self.known(n, w) {
            return Ok(sizes.size(residue));
        }
        let sizes = WeightSizes::counted(n, w);
        let size = sizes.size(residue);
        self.counted.push(sizes)?;
        Ok(size)
    }
}
