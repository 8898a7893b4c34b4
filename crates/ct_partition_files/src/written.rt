//! The tables of partitions and of products.
ghost use Rattle.std.specs.Prelude.{◌≡◌, ◌^◌, ◌<◌, ◌≤◌, All, IfOk, codes};
ghost use Rattle.toml.specs.Data.{string};
ghost use Rattle.toml.specs.View.{view, table_view};
ghost use Rattle.ct_words.specs.declared.limits.TheConstants.{MAX_N};
ghost use Rattle.ct_classes.specs.Partition.{word_lists, words_of_classes};
ghost use Rattle.ct_fields.specs.Forms.{pair_data};
ghost use Rattle.ct_fields.specs.WrittenSchema.{written_table};
ghost use Rattle.ct_partition_files.specs.Lists.{class_list};
ghost use Rattle.ct_partition_files.specs.Pairs.{AreIds, id_pairs};
ghost use Rattle.ct_partition_files.specs.Partition.{partition_fields};
ghost use Rattle.ct_partition_files.specs.Product.{product_fields};

use ct_fields::{FieldName, entry_table, id_value, put, put_weight, two_values, word_values};
use ct_names::Id;
use ct_words::{Entry, Word};
use std::alloc::{AllocError, Global};
use toml::{Table, Value};

/// The table of a partition.
pub fn partition_table(
    alloc: Global,
    entry: Entry,
    between: u32,
    classes: &[Vec<Word>],
) -> Result<Table, AllocError>
    requires room { entry.n ≤ MAX_N }
    requires words { All (λ x. x < 2 ^ entry.n) (words_of_classes (word_lists classes.now)) }
    ensures { IfOk result (λ table. table_view table ≡ written_table (codes "partition") (partition_fields entry between (word_lists classes.now))) }
{
    let mut table = entry_table(alloc, "partition", entry.n, entry.d)?;
    put_weight(alloc, &mut table, entry.w)?;
    put(alloc, &mut table, FieldName::D1, Value::from(between))?;
    let classes = class_list(alloc, entry.n, classes)?;
    put(alloc, &mut table, FieldName::Classes, classes)?;
    Ok(table)
}

/// The lists of the texts of words of length `n` as a value.
fn class_list(alloc: Global, n: u32, classes: &[Vec<Word>]) -> Result<Value, AllocError>
    requires room { n ≤ MAX_N }
    requires words { All (λ words. All (λ x. x < 2 ^ n) words) (word_lists classes.now) }
    ensures { IfOk result (λ value. view value ≡ class_list n (word_lists classes.now)) }
{
    let mut values = Vec::with_capacity(alloc, classes.len())?;
    for class in classes {
        values.push_reserved(word_values(alloc, n, class)?);
    }
    Ok(Value::Array(values))
}

/// The table of a product.
pub fn product_table(alloc: Global, entry: Entry, pairs: &[(Id, Id)]) -> Result<Table, AllocError>
    ensures table { IfOk result (λ table. table_view table ≡ written_table (codes "product") (product_fields entry pairs.now)) }
    ensures ids { IfOk result (λ _. All AreIds pairs.now) }
{
    let mut table = entry_table(alloc, "product", entry.n, entry.d)?;
    put_weight(alloc, &mut table, entry.w)?;
    let pairs = id_pairs(alloc, pairs)?;
    put(alloc, &mut table, FieldName::Pairs, pairs)?;
    Ok(table)
}

/// The pairs of ids as a value.
fn id_pairs(alloc: Global, pairs: &[(Id, Id)]) -> Result<Value, AllocError>
    ensures list { IfOk result (λ value. view value ≡ id_pairs pairs.now) }
    ensures ids { IfOk result (λ _. All AreIds pairs.now) }
{
    let mut values = Vec::with_capacity(alloc, pairs.len())?;
    for (first, second) in pairs {
        values.push_reserved(pair_value(alloc, first, second)?);
    }
    Ok(Value::Array(values))
}

/// Two ids as a value.
fn pair_value(alloc: Global, first: &Id, second: &Id) -> Result<Value, AllocError>
    ensures list { IfOk result (λ value. view value ≡ pair_data string string (first.now, second.now)) }
    ensures ids { IfOk result (λ _. AreIds (first.now, second.now)) }
{
    let first = id_value(alloc, first)?;
    let second = id_value(alloc, second)?;
    two_values(alloc, first, second)
}
