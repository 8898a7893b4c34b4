//! Values in a row.
ghost use Rattle.std.specs.Prelude.{◌≡◌, IfOk};

use std::alloc::AllocError;
use std::marker::Model;

/// Values in the order in which they were handed in, repeats included: words, places of a word, digits, numbers. Contracts
/// see the list of them.
pub struct Listed<T> {
    values: Vec<T>,
}

impl<T: Drop> Drop for Listed<T> {
    fn drop(self) {
        let Listed { values: _ } = self;
    }
}

impl<T> Model for Listed<T> {
    ghost use Rattle.std.specs.Prelude.{List};

    ghost Value = { List T };

    ghost view = { λ l. l.values.items };
}

impl<T> Listed<T> {
    /// The values of the vector.
    pub fn from_vec(values: Vec<T>) -> Listed<T>
        ensures { result ≡ values.items }
    {
        Listed { values }
    }

    /// The values as a slice.
    pub fn as_slice(&self) -> &[T]
        ensures { result.now ≡ self.now }
    {
        &self.values
    }
}

impl<T: Clone> Listed<T> {
    /// The same values once more, where a value's clone is the value. `Err` is want of memory.
    pub fn try_copy(&self) -> Result<Listed<T>, AllocError>
        ensures { IfOk result (λ l. ((x y : T) → T.is_clone x y → y ≡ x) → l ≡ self.now) }
    {
        let values = self.values.clone()?;
        Ok(Listed { values })
    }
}
