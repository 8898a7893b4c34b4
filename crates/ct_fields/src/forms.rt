//! Values of a form, pairs of them and lists of them.
ghost use Rattle.std.specs.Prelude.{◌≡◌, Option, IfOk, option_map};
ghost use Rattle.toml.specs.Data.{Data};
ghost use Rattle.toml.specs.View.{view, items_view};
ghost use Rattle.ct_fields.specs.Forms.{two_in, all_of};

use crate::fields::number_in;
use crate::ids::id_in;
use ct_names::Id;
use ct_words::MAX_N;
use std::alloc::{AllocError, Global};
use toml::Value;

/// What a value of a document may be.
pub trait Form: Drop {
    // What the value is, where it has the form.
    ghost form: { Data → Option Self };

    /// What the value is, where it has the form.
    fn of_value(value: &Value) -> Option<Self>
        ensures { result ≡ form (view value.now) };
}

/// An id by its text.
impl Form for Id {
    ghost use Rattle.ct_fields.specs.Ids.{id_in};

    ghost form = { id_in };

    fn of_value(value: &Value) -> Option<Id> {
        id_in(value)
    }
}

/// A whole number of 64 signed bits.
impl Form for i64 {
    ghost use Rattle.toml.specs.Data.{as_integer};

    ghost form = { as_integer };

    fn of_value(value: &Value) -> Option<i64> {
        value.as_integer()
    }
}

/// A number from 0 to `MAX_N`.
impl Form for u32 {
    ghost use Rattle.ct_words.specs.declared.limits.TheConstants.{MAX_N};
    ghost use Rattle.ct_fields.specs.Fields.{number_in};

    ghost form = { number_in 0 MAX_N };

    fn of_value(value: &Value) -> Option<u32> {
        number_in(value, 0, MAX_N)
    }
}

/// A list of two values that have these forms.
impl<A: Form, B: Form> Form for (A, B) {
    ghost use Rattle.ct_fields.specs.Forms.{pair_in};

    ghost form = { pair_in A.form B.form };

    fn of_value(value: &Value) -> Option<(A, B)> {
        let (first, second) = two_in(value)?;
        let first = A::of_value(first)?;
        let second = B::of_value(second)?;
        Some((first, second))
    }
}

/// The two values of the value, where it is a list of two.
fn two_in(value: &Value) -> Option<(&Value, &Value)>
    ensures { option_map (λ p. (view p.0.now, view p.1.now)) result ≡ two_in (view value.now) }
{
    let Value::Array(values) = value else {
        return None;
    };
    if values.len() != 2 {
        return None;
    }
    Some((&values[0], &values[1]))
}

/// What the values are, where all have the form. `Err` is want of memory.
pub fn all_of<T: Form>(alloc: Global, values: &[Value]) -> Result<Option<Vec<T>>, AllocError>
    ensures { IfOk result (λ o. option_map (λ v. v.items) o ≡ all_of T.form (items_view values.now)) }
{
    let mut all = Vec::with_capacity(alloc, values.len())?;
    for value in values {
        let Some(one) = T::of_value(value) else {
            return Ok(None);
        };
        all.push_reserved(one);
    }
    Ok(Some(all))
}
