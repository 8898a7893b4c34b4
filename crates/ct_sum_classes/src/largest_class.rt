//! The largest sum class of each weight, from one table of sizes.

ghost use Rattle.std.specs.Prelude.{◌≡◌, ℕ, ◌<◌, ◌≤◌, length, slice_get, slice_index, Some};
ghost use Rattle.ct_words.specs.declared.limits.TheConstants.{MAX_N};
ghost use Rattle.ct_sum_classes.specs.SumClass.{greatest_below, largest_class, sum_class};
ghost use Rattle.ct_sum_classes.specs.Inside.Sizes.{IsTable, IsRow};

use crate::class_sizes::{Row, WEIGHTS, sizes_up_to};

/// The largest of the sum classes of a length and a weight, the one of the least residue where there are more.
#[derive(Clone, Copy)]
pub struct LargestClass {
    /// The sum of the places of the ones of each of its words, modulo the length.
    pub residue: u32,
    /// How many words it has.
    pub size: u32,
}

/// The largest sum class of each weight w up to the length n, which is from 1 to `MAX_N`, at the place w. It takes no
/// memory.
pub fn largest_sum_classes(n: u32) -> [LargestClass; WEIGHTS]
    requires { (1 ≤ n) × (n ≤ MAX_N) }
    ensures { (w : ℕ) → w ≤ n → slice_get result w
        ≡ Some (record { residue = largest_class n w; size = length (sum_class n w (largest_class n w)) }) }
{
    let table = sizes_up_to(n, n);
    let mut classes = [LargestClass {
        residue: 0,
        size: 0,
    }; WEIGHTS];
    for w in 0..n as usize + 1 {
        classes[w] = largest_of(&table[w], n as usize);
    }
    classes
}

/// The first of the greatest numbers of the row, of those below n, and its place.
fn largest_of(row: &Row, n: usize) -> LargestClass
    requires { (1 ≤ n) × (n ≤ MAX_N) }
    ensures residue { result.residue ≡ greatest_below (slice_index row.now) n }
    ensures size { result.size ≡ slice_index row.now (greatest_below (slice_index row.now) n) }
{
    let mut largest = 0;
    for r in 0..n {
        if row[largest] < row[r] {
            largest = r;
        }
    }
    LargestClass {
        residue: largest as u32,
        size: row[largest],
    }
}
