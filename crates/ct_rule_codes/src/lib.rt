//! The codes that rules say there are, where no single construction gives them.
#![tactic(auto)]

mod class_words;
mod few_words;
mod first_words;
mod left_at_place;
mod reading;
mod sums;

pub use class_words::sum_class;
pub use few_words::{disjoint_words, one_word, opposite_words};
pub use left_at_place::{half, with_one, with_zero};
pub use reading::read_as;
pub use sums::sums_with_even_words;
