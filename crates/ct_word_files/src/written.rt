//! The tables of words and of cosets.
ghost use Rattle.std.specs.Prelude.{◌≡◌, ◌^◌, ◌<◌, ◌≤◌, All, IfOk, codes};
ghost use Rattle.toml.specs.View.{table_view};
ghost use Rattle.ct_words.specs.declared.limits.TheConstants.{MAX_N};
ghost use Rattle.ct_fields.specs.WrittenSchema.{written_table};
ghost use Rattle.ct_word_files.specs.Words.{words_fields};
ghost use Rattle.ct_word_files.specs.Cosets.{cosets_fields};

use ct_fields::{FieldName, entry_table, put_weight, put_words};
use ct_words::{Entry, Word};
use std::alloc::{AllocError, Global};
use toml::Table;

/// The table of words.
pub fn words_table(alloc: Global, entry: Entry, words: &[Word]) -> Result<Table, AllocError>
    requires room { entry.n ≤ MAX_N }
    requires words { All (λ x. x < 2 ^ entry.n) words.now }
    ensures { IfOk result (λ table. table_view table ≡ written_table (codes "words") (words_fields entry words.now)) }
{
    let mut table = entry_table(alloc, "words", entry.n, entry.d)?;
    put_weight(alloc, &mut table, entry.w)?;
    put_words(alloc, &mut table, FieldName::Words, entry.n, words)?;
    Ok(table)
}

/// The table of cosets, whose entry has no weight.
pub fn cosets_table(
    alloc: Global,
    entry: Entry,
    basis: &[Word],
    representatives: &[Word],
) -> Result<Table, AllocError>
    requires room { entry.n ≤ MAX_N }
    requires basis { All (λ x. x < 2 ^ entry.n) basis.now }
    requires representatives { All (λ x. x < 2 ^ entry.n) representatives.now }
    ensures { IfOk result (λ table. table_view table ≡ written_table (codes "cosets") (cosets_fields entry basis.now representatives.now)) }
{
    let mut table = entry_table(alloc, "cosets", entry.n, entry.d)?;
    put_words(alloc, &mut table, FieldName::Basis, entry.n, basis)?;
    put_words(
        alloc,
        &mut table,
        FieldName::Representatives,
        entry.n,
        representatives,
    )?;
    Ok(table)
}
