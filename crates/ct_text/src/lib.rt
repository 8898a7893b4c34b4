//! Text that commands, documents and replies share: the words of a line; numbers and entries, read and written; and the
//! text of a document as its lines come in.
#![tactic(auto)]

mod append;
mod digits;
mod document_lines;
mod entry_numbers;
mod gathering;
mod line;
mod number;
mod side;
mod table_numbers;
mod text;

pub use append::{
    put_entry, put_entry_words, put_number, put_numbered, put_numbered_pair, put_spaced,
};
pub use digits::Digits;
pub use document_lines::{LINE_FEED, line_count};
pub use entry_numbers::{EntryNumbers, parse_entry_numbers};
pub use gathering::{Extent, Gathered, Gathering};
pub use line::first_words;
pub use number::parse_number;
pub use side::parse_side;
pub use table_numbers::{TableNumbers, parse_table_numbers};
pub use text::Text;
