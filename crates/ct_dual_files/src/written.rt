//! The tables of duals.
ghost use Rattle.std.specs.Prelude.{◌≡◌, [], ◌∷◌, Some, IfOk, OnOk, codes};
ghost use Rattle.toml.specs.Data.{boolean};
ghost use Rattle.toml.specs.View.{view, table_view};
ghost use Rattle.ct_fields.specs.Written.{put};
ghost use Rattle.ct_fields.specs.WrittenSchema.{written_table, with_plain, with_entry};
ghost use Rattle.ct_dual_files.specs.Fields.{integer_list, index_pair, pair_list};
ghost use Rattle.ct_dual_files.specs.Dual.{dual_fields, odd_fields, johnson_dual_fields, local_dual_fields};

use ct_duals::Dual;
use ct_fields::{FieldName, entry_table, put, put_weight, two_values};
use std::alloc::{AllocError, Global};
use toml::{Table, Value};

/// The table of a dual without weight.
pub fn dual_table(alloc: Global, dual: &Dual) -> Result<Table, AllocError>
    ensures { IfOk result (λ table. table_view table ≡ written_table (codes "dual") (dual_fields dual.now)) }
{
    let mut table = marked_table(alloc, "dual", dual)?;
    put_numbers(alloc, &mut table, dual)?;
    Ok(table)
}

/// The table of a dual without weight with a number of words.
pub fn odd_table(alloc: Global, dual: &Dual, m: u32) -> Result<Table, AllocError>
    ensures { IfOk result (λ table. table_view table ≡ written_table (codes "odd") (odd_fields dual.now m)) }
{
    let mut table = marked_table(alloc, "odd", dual)?;
    put(alloc, &mut table, FieldName::M, Value::from(m))?;
    put_numbers(alloc, &mut table, dual)?;
    Ok(table)
}

/// The table of a dual with a weight that allows nothing.
pub fn johnson_dual_table(alloc: Global, dual: &Dual) -> Result<Table, AllocError>
    ensures { IfOk result (λ table. table_view table ≡ written_table (codes "jdual") (johnson_dual_fields dual.now)) }
{
    let mut table = weighted_table(alloc, "jdual", dual)?;
    put_multipliers(alloc, &mut table, dual)?;
    Ok(table)
}

/// The table of a dual with a weight and with what it allows.
pub fn local_dual_table(alloc: Global, dual: &Dual) -> Result<Table, AllocError>
    ensures { IfOk result (λ table. table_view table ≡ written_table (codes "jlocal") (local_dual_fields dual.now)) }
{
    let mut table = weighted_table(alloc, "jlocal", dual)?;
    put_numbers(alloc, &mut table, dual)?;
    Ok(table)
}

/// The entry of a dual without weight and its mark `even`, in the table of the kind.
fn marked_table(alloc: Global, kind: &str, dual: &Dual) -> Result<Table, AllocError>
    ensures { IfOk result (λ table. table_view table ≡ written_table kind.now (with_plain dual.now.entry ((FieldName.Even, Some (boolean dual.now.even)) ∷ []))) }
{
    let mut table = entry_table(alloc, kind, dual.entry.n, dual.entry.d)?;
    let even = Value::Boolean(dual.even);
    put(alloc, &mut table, FieldName::Even, even)?;
    Ok(table)
}

/// The entry of a dual with a weight, in the table of the kind.
fn weighted_table(alloc: Global, kind: &str, dual: &Dual) -> Result<Table, AllocError>
    ensures { IfOk result (λ table. table_view table ≡ written_table kind.now (with_entry dual.now.entry [])) }
{
    let mut table = entry_table(alloc, kind, dual.entry.n, dual.entry.d)?;
    put_weight(alloc, &mut table, dual.entry.w)?;
    Ok(table)
}

/// Puts the multipliers of the dual.
fn put_multipliers(alloc: Global, table: &mut Table, dual: &Dual) -> Result<(), AllocError>
    ensures { OnOk result (table_view table.new ≡ put FieldName.C (integer_list dual.now.c) (table_view table.old)) }
{
    let c = integer_list(alloc, dual.c.as_slice())?;
    put(alloc, table, FieldName::C, c)
}

/// Puts the multipliers of the dual and what it allows.
fn put_numbers(alloc: Global, table: &mut Table, dual: &Dual) -> Result<(), AllocError>
    ensures { OnOk result (table_view table.new ≡ put FieldName.Y (pair_list dual.now.y) (put FieldName.C (integer_list dual.now.c) (table_view table.old))) }
{
    put_multipliers(alloc, table, dual)?;
    let y = pair_list(alloc, dual.y.as_slice())?;
    put(alloc, table, FieldName::Y, y)
}

/// The whole numbers as a value.
fn integer_list(alloc: Global, integers: &[i64]) -> Result<Value, AllocError>
    ensures { IfOk result (λ value. view value ≡ integer_list integers.now) }
{
    let mut values = Vec::with_capacity(alloc, integers.len())?;
    for integer in integers {
        values.push(Value::Integer(*integer))?;
    }
    Ok(Value::Array(values))
}

/// The pairs as a value.
fn pair_list(alloc: Global, pairs: &[(u32, i64)]) -> Result<Value, AllocError>
    ensures { IfOk result (λ value. view value ≡ pair_list pairs.now) }
{
    let mut values = Vec::with_capacity(alloc, pairs.len())?;
    for (i, number) in pairs {
        values.push(pair_value(alloc, *i, *number)?)?;
    }
    Ok(Value::Array(values))
}

/// An index and a number as a value.
fn pair_value(alloc: Global, i: u32, number: i64) -> Result<Value, AllocError>
    ensures { IfOk result (λ value. view value ≡ index_pair (i, number)) }
{
    two_values(alloc, Value::from(i), Value::Integer(number))
}
