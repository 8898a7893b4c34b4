//! The table that an evidence document is: its fields, what they hold, and how each is written.
#![tactic(auto)]

mod cites;
mod document;
mod entry;
mod fault;
mod field;
mod fields;
mod formats;
mod forms;
mod ids;
mod last;
mod writing;

pub use cites::{MAX_CITES, cites_of};
pub use document::{MAX_DOCUMENT, is_of_kind, read_table, table_bytes};
pub use entry::{distance_field, has_field, length_field, weight_field};
pub use fault::DocumentFault;
pub use field::FieldName;
pub use fields::{number_field, text_field, texts_field, texts_of, words_from};
pub use formats::{format_of, may_cite};
pub use forms::{Form, all_of};
pub use ids::{id_in, id_value};
pub use last::last_fields;
pub use writing::{
    entry_table, put, put_cites, put_weight, put_words, two_values, word_value, word_values,
};
