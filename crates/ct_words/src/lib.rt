//! Binary words, codes of them, and the entries of the table: the distance, the weight and the text of a word; the entries, and what is claimed
//! of them; what constructions make of codes, words with more digits, with fewer, with one word added to each, and put together; and the
//! mathematics that the bounds rest on: binomial coefficients, words as lists of digits, and counting.
#![tactic(auto)]

mod alternating;
mod claim;
mod code;
mod counts;
mod entries;
mod entry;
mod fault;
mod limits;
mod listed;
mod metric;
mod products;
mod scheme;
mod text;
mod triangle;
mod word;

pub use alternating::add_alternating;
pub use claim::{Claim, Side};
pub use code::{Code, MAX_CODE_DISTANCE};
pub use counts::{ball, binomial, factorial};
pub use entries::table_entries;
pub use entry::Entry;
pub use fault::{CodeFault, MAX_COSET_WORK, MAX_REPRESENTATIVES, MAX_WORDS};
pub use limits::{MAX_BOUND, MAX_N};
pub use listed::Listed;
pub use metric::{distance, weight};
pub use products::add_product;
pub use scheme::{Scheme, scheme_laws};
pub use text::{parse_word, print_word};
pub use word::{Word, WordFault};
