//! The rules for codes of constant weight, and those that lead from these to codes without weight, each in a file of its
//! theorem.
#![tactic(auto)]

mod all_words;
mod column_pairs;
mod complemented;
mod delsarte;
mod disjoint;
mod elias_bassalygo;
mod far_words;
mod given_code;
mod graham_sloane;
mod johnson;
mod johnson_one;
mod johnson_zero;
mod lengthened;
mod local_duals;
mod nearer;
mod neighbours;
mod odd_sizes;
mod one_word;
mod split;
mod without_weight;

pub use all_words::known_all_words;
pub use column_pairs::{below_too_many, known_column_pairs};
pub use complemented::known_complemented;
pub use delsarte::{known_dual_above, known_dual_above_of_weight};
pub use disjoint::{count_of_disjoint, has_disjoint_words, known_disjoint};
pub use elias_bassalygo::{averaged, known_elias_bassalygo};
pub use far_words::{has_no_far_words, known_far_words};
pub use given_code::known_given_code;
pub use graham_sloane::{known_graham_sloane, sum_class_size};
pub use johnson::{johnson_bound, known_johnson};
pub use johnson_one::{bound_by_ones, count_with_one, known_johnson_one};
pub use johnson_zero::{bound_by_zeros, count_with_zero, known_johnson_zero};
pub use lengthened::known_lengthened;
pub use local_duals::{known_local_above, local_duals_bound_codes};
pub use nearer::known_nearer;
pub use neighbours::{
    around, complementary, even_of_weight, of_weight, one_less, one_more, two_farther, two_nearer,
    unweighted, unweighted_and_nearer, zero_less, zero_more,
};
pub use odd_sizes::{known_odd_sizes, parity_excludes_sizes, size_below};
pub use one_word::known_one_word;
pub use split::{known_split, parts_of_split, split_into};
pub use without_weight::known_without_weight;
