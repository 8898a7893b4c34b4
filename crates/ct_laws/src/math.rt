//! Laws of words, codes, their constructions and builds, schemes, duals, bounds and the finder's run, and worked ones. Nothing rests on them;
//! each would notice a definition that is slightly wrong.

mod builds;
mod codes;
mod constructions;
mod cosets;
mod counting;
mod delsarte;
mod doubly;
mod duals;
mod finder;
mod johnson;
mod krawtchouk;
mod parity;
mod partitions;
mod primals;
mod scheme;
mod sum_classes;
mod words;

pub use builds::{
    builds_are_codes_of_the_entry, known_builds, known_reasons, right_builds_have_no_fault,
    shapes_tell_the_reasons,
};
pub use codes::{
    bounds_of_every_entry, entries_of_the_table, faultless_lists_are_codes, known_faults,
    least_pair_is_least, table_entries_are_all,
};
pub use constructions::{
    added_words_are_sums, digits_at_places, digits_of_constructions, even_words_are_a_code,
    juxtaposed_codes, longer_words_are_codes, parts_of_codes_are_codes, punctured_codes,
    shortened_codes, sizes_of_constructions, translated_words_are_codes, uuv_codes,
};
pub use cosets::{
    choices_are_sums, coset_lists_hold_all_choices, faultless_cosets_are_codes, known_cosets,
    one_coset_is_linear,
};
pub use counting::{binomial_laws, pair_list_laws, word_laws};
pub use delsarte::{
    accepted_duals_are_sound, duals_bound_codes, known_duals, known_local_bounds,
    known_standing_duals,
};
pub use doubly::{doubly_codes_are_codes, known_doubly_bounds, known_doubly_codes};
pub use duals::{
    accepted_duals_bound_codes, accepted_duals_bound_codes_about_words,
    bounds_of_duals_are_monotone, faults_of_duals,
};
pub use finder::{
    gcd_is_greatest, known_numbers_of_primals, known_runs, known_wide_entries,
    least_duals_are_accepted, least_primals_are_sound, ones_are_accepted,
    rows_are_divided_by_their_greatest_divisor, rows_are_sums_of_opening_rows,
    solutions_of_rows_solve_opening_rows,
};
pub use johnson::{
    bounds_by_weight, bounds_from_other_entries, some_place_holds_enough_ones,
    some_place_holds_enough_zeros,
};
pub use krawtchouk::{character_sums_are_krawtchouk_numbers, krawtchouk_sums_are_sums_of_squares};
pub use parity::{known_odd_sums, odd_lists_have_odd_sums};
pub use partitions::{
    faultless_lists_are_partitions, known_partitions, known_products, products_are_codes,
    words_of_partitions,
};
pub use primals::{known_primals, primals_lie_below_duals, sound_primals_have_no_fault};
pub use scheme::johnson_sums_are_sums_of_squares;
pub use sum_classes::{
    known_largest_classes, known_sum_classes, sum_classes_are_codes, words_of_sum_classes,
};
pub use words::{
    distance_is_metric, distance_is_weight_of_sum, golay_words, texts_are_words,
    words_are_ordered_as_texts,
};
