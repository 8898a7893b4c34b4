//! Sum classes: the words of a length and a weight whose places of ones have one sum modulo the length. They are codes of distance 4, and
//! part all words of that weight (Graham and Sloane 1980).
#![tactic(auto)]

mod class_listing;
mod class_sizes;
mod largest_class;

pub use class_listing::sum_class_list;
pub use class_sizes::{sum_class_count, sum_class_sizes};
pub use largest_class::{LargestClass, largest_sum_classes};
